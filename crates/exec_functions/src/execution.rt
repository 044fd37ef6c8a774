//! What each function answers and changes.
ghost use Rattle.std.specs.Prelude.{◌≡◌, IfOk};
ghost use Rattle.salt_value.specs.WellFormed.{ValueFits};
ghost use Rattle.salt_value.specs.declared.value.Value.TheVariants as v;
ghost use Rattle.exec_functions.specs.Exec as spec;
ghost use Rattle.exec_functions.specs.Limits.{StaysWithin, IsSendable};

use crate::arguments::key_and_rest;
use crate::by_key::result_by_key;
use crate::function::Function;
use crate::holdings::{Change, Done, Holdings, Note, Ran};
use crate::query::{query_result, query_value};
use crate::results::{bad_arguments, noted, refusal};
use salt_value::{Fields, Value, Word};
use std::alloc::{AllocError, Global};

// Empties the mine.
fn mine_flush(alloc: Global, args: &[Value], held: &Holdings) -> Result<Ran, AllocError>
    ensures { IfOk result (λ ran. ran ≡ spec.mine_flush args.now held.now) }
{
    if !args.is_empty() {
        return bad_arguments(alloc);
    }
    let change = if held.mine.as_slice().is_empty() {
        Change::Nothing
    } else {
        Change::Mine(Fields::new(alloc))
    };
    noted(alloc, change, Note::Mine)
}

// What a function makes, whatever its size.
fn result_of(
    alloc: Global,
    function: Function,
    args: &[Value],
    held: &Holdings,
) -> Result<Ran, AllocError>
    ensures { IfOk result (λ ran. ran ≡ spec.result_of function args.now held.now) }
{
    match function {
        Function::Asks(query) => query_result(alloc, query_value(alloc, query, args, held)?),
        Function::MineFlush => mine_flush(alloc, args, held),
        _ => match key_and_rest(args) {
            Some((key, rest)) => result_by_key(alloc, function, key, rest, held),
            None => bad_arguments(alloc),
        },
    }
}

// A result that is not within the limits is refused, so it changes nothing.
fn result_within(alloc: Global, ran: Ran) -> Result<Ran, AllocError>
    ensures { IfOk result (λ within. within ≡ spec.result_within ran) }
{
    if ran.outcome.value.fits() && ran.change.fits() {
        return Ok(ran);
    }
    Ok(refusal(alloc, 1, String::from_str(alloc, "result too large")?))
}

// The refusal of a name that no function has.
fn unknown_function(alloc: Global, name: &str) -> Result<Ran, AllocError>
    ensures { IfOk result (λ ran. ran ≡ spec.unknown_function name.now) }
{
    let mut text = String::from_str(alloc, "'")?;
    text.push_str(name)?;
    text.push_str("' is not available.")?;
    Ok(refusal(alloc, 254, text))
}

// What the function of this name makes.
fn run_named(alloc: Global, name: &str, args: &[Value], held: &Holdings) -> Result<Ran, AllocError>
    ensures { IfOk result (λ ran. ran ≡ spec.run name.now args.now held.now) }
{
    match Function::read(name.as_bytes()) {
        None => unknown_function(alloc, name),
        Some(function) => result_within(alloc, result_of(alloc, function, args, held)?),
    }
}

/// What the function of this name makes of its arguments and of what a minion holds: its outcome, what it changed,
/// and its notes. An outcome has retcode 0, or 1 with a text that tells why nothing was done, or 254 where no function
/// has the name. The functions are Salt's (Salt documentation, execution modules test, grains, pillar, data, mine and
/// event). This project's own are the texts and that they come in place of errors of Python, that a missing grain is the
/// empty text, that `data.incr` takes a step and refuses a sum outside 64 bits, that `mine.send` runs the seven
/// functions that change nothing, and the limits of an answer and of a changed part.
pub fn run(alloc: Global, fun: &Word, args: &[Value], held: &Holdings) -> Result<Ran, AllocError>
    ensures ok { IfOk result (λ ran. ran ≡ spec.run fun.now args.now held.now) }
    // Where the arguments are within the limits of a value, what is made is within those of a message.
    ensures fits { IfOk result (λ ran. ValueFits (v.List args.now) → IsSendable ran) }
{
    run_named(alloc, fun.as_str(), args, held)
}

/// The outcome of the function of this name, as `run` gives it, what the minion holds from then on, and the notes.
pub fn exec(alloc: Global, fun: &Word, args: &[Value], held: &Holdings) -> Result<Done, AllocError>
    ensures ok { IfOk result (λ done. done ≡ spec.exec fun.now args.now held.now) }
    // What is held stays within the limits.
    ensures within { IfOk result (StaysWithin held.now args.now) }
{
    let mut new = held.copy(alloc)?;
    let ran = run(alloc, fun, args, held)?;
    new.apply(ran.change);
    Ok(Done {
        outcome: ran.outcome,
        held: new,
        notes: ran.notes,
    })
}
