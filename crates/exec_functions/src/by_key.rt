//! The functions whose first argument is a key.
ghost use Rattle.std.specs.Prelude.{◌≡◌, ◌+ℤ◌, ◌==◌, not, IfOk};
ghost use Rattle.std.specs.List.{list_all};
ghost use Rattle.std.specs.Option.{option_copied};
ghost use Rattle.exec_functions.specs.ByKey as spec;

use crate::arguments::int_of;
use crate::function::Function;
use crate::holdings::{Change, Holdings, Note, Ran};
use crate::query::{found_or_default, query_value};
use crate::results::{
    bad_arguments, grains_change, is_stored, mine_change, new_with, new_without, noted, refusal,
    store_change, success,
};
use salt_value::{Event, Fields, Value, Word, WordFault};
use std::alloc::{AllocError, Global};

// Sets the grain, and answers a map with that pair.
fn grains_setval(
    alloc: Global,
    key: &str,
    rest: &[Value],
    held: &Holdings,
) -> Result<Ran, AllocError>
    ensures { IfOk result (λ ran. ran ≡ spec.grains_setval key.now rest.now held.now) }
{
    match rest {
        [value] => {
            if !is_grain_key(key.as_bytes()) {
                return bad_arguments(alloc);
            }
            let change = grains_change(new_with(alloc, &held.grains, key, value)?);
            let pair = Fields::new(alloc).with(alloc, key, value.copy(alloc)?)?;
            Ok(success(alloc, Value::Map(pair), change))
        }
        _ => bad_arguments(alloc),
    }
}

// Whether a grain may have this key: not empty, and without a colon.
fn is_grain_key(key: &[u8]) -> bool
    ensures { result ≡ spec.is_grain_key key.now }
{
    !key.is_empty() && has_no_colon(key)
}

fn has_no_colon(key: &[u8]) -> bool
    ensures { result ≡ list_all (λ b. not (b == 0x3A)) key.now }
{
    key.iter().all(|b| *b != b':')
}

// Stores the value.
fn data_update(alloc: Global, key: &str, rest: &[Value], held: &Holdings) -> Result<Ran, AllocError>
    ensures { IfOk result (λ ran. ran ≡ spec.data_update key.now rest.now held.now) }
{
    match rest {
        [value] => {
            let change = store_change(new_with(alloc, &held.store, key, value)?);
            Ok(success(alloc, Value::Flag(true), change))
        }
        _ => bad_arguments(alloc),
    }
}

// Takes the pair out, and answers its value.
fn data_pop(alloc: Global, key: &str, rest: &[Value], held: &Holdings) -> Result<Ran, AllocError>
    ensures { IfOk result (λ ran. ran ≡ spec.data_pop key.now rest.now held.now) }
{
    let found = held.store.get(key.as_bytes());
    let Some(value) = found_or_default(alloc, found, rest, Value::Null)? else {
        return bad_arguments(alloc);
    };
    let change = store_change(new_without(alloc, &held.store, key)?);
    Ok(success(alloc, value, change))
}

// Stores the new value where the old one is stored.
fn data_cas(alloc: Global, key: &str, rest: &[Value], held: &Holdings) -> Result<Ran, AllocError>
    ensures { IfOk result (λ ran. ran ≡ spec.data_cas key.now rest.now held.now) }
{
    match rest {
        [new, old] => {
            if !is_stored(old, held.store.get(key.as_bytes())) {
                return Ok(success(alloc, Value::Flag(false), Change::Nothing));
            }
            let change = store_change(new_with(alloc, &held.store, key, new)?);
            Ok(success(alloc, Value::Flag(true), change))
        }
        _ => bad_arguments(alloc),
    }
}

// The number that is stored, 0 where nothing is, None where it is another value.
fn stored_number(found: Option<&Value>) -> Option<i64>
    ensures { result ≡ spec.stored_number (option_copied found.entry) }
{
    match found {
        None => Some(0),
        Some(value) => int_of(value),
    }
}

// The number to add, 1 by default, None where the arguments are of another form.
fn step_of(rest: &[Value]) -> Option<i64>
    ensures { result ≡ spec.step_of rest.now }
{
    match rest {
        [] => Some(1),
        [step] => int_of(step),
        _ => None,
    }
}

// Stores the sum, where it has 64 bits.
fn sum_result(
    alloc: Global,
    key: &str,
    number: i64,
    step: i64,
    held: &Holdings,
) -> Result<Ran, AllocError>
    ensures { IfOk result (λ ran. ran ≡ spec.sum_result key.now (number +ℤ step) held.now) }
{
    let Some(sum) = number.checked_add(step) else {
        return Ok(refusal(alloc, 1, String::from_str(alloc, "out of range")?));
    };
    let value = Value::Int(sum);
    let change = store_change(new_with(alloc, &held.store, key, &value)?);
    Ok(success(alloc, value, change))
}

// Adds the step to the number that is stored.
fn data_incr(alloc: Global, key: &str, rest: &[Value], held: &Holdings) -> Result<Ran, AllocError>
    ensures { IfOk result (λ ran. ran ≡ spec.data_incr key.now rest.now held.now) }
{
    let Some(step) = step_of(rest) else {
        return bad_arguments(alloc);
    };
    let Some(number) = stored_number(held.store.get(key.as_bytes())) else {
        return Ok(refusal(alloc, 1, String::from_str(alloc, "not a number")?));
    };
    sum_result(alloc, key, number, step, held)
}

// Runs a function that changes nothing, and puts its answer into the mine.
fn mine_send(alloc: Global, name: &str, args: &[Value], held: &Holdings) -> Result<Ran, AllocError>
    ensures { IfOk result (λ ran. ran ≡ spec.mine_send_by_name name.now args.now held.now) }
{
    let Some(Function::Asks(query)) = Function::read(name.as_bytes()) else {
        return bad_arguments(alloc);
    };
    let Some(value) = query_value(alloc, query, args, held)? else {
        return bad_arguments(alloc);
    };
    let change = mine_change(new_with(alloc, &held.mine, name, &value)?);
    noted(alloc, change, Note::Mine)
}

// Takes the row out of the mine.
fn mine_delete(
    alloc: Global,
    name: &str,
    rest: &[Value],
    held: &Holdings,
) -> Result<Ran, AllocError>
    ensures { IfOk result (λ ran. ran ≡ spec.mine_delete name.now rest.now held.now) }
{
    if !rest.is_empty() {
        return bad_arguments(alloc);
    }
    let change = mine_change(new_without(alloc, &held.mine, name)?);
    noted(alloc, change, Note::Mine)
}

// Fires an event.
fn event_send(alloc: Global, tag: &str, rest: &[Value]) -> Result<Ran, AllocError>
    ensures { IfOk result (λ ran. ran ≡ spec.event_send tag.now rest.now) }
{
    let Some(body) = found_or_default(alloc, None, rest, Value::Map(Fields::new(alloc)))? else {
        return bad_arguments(alloc);
    };
    match Word::read(alloc, tag) {
        Ok(tag) => noted(
            alloc,
            Change::Nothing,
            Note::Fired {
                event: Event { tag, body },
            },
        ),
        Err(WordFault::NoMemory) => Err(AllocError),
        Err(_) => bad_arguments(alloc),
    }
}

/// What a function makes of a key and what follows it.
pub fn result_by_key(
    alloc: Global,
    function: Function,
    key: &str,
    rest: &[Value],
    held: &Holdings,
) -> Result<Ran, AllocError>
    ensures { IfOk result (λ ran. ran ≡ spec.result_by_key function key.now rest.now held.now) }
{
    match function {
        Function::Asks(_) | Function::MineFlush => bad_arguments(alloc),
        Function::GrainsSetval => grains_setval(alloc, key, rest, held),
        Function::DataUpdate => data_update(alloc, key, rest, held),
        Function::DataPop => data_pop(alloc, key, rest, held),
        Function::DataCas => data_cas(alloc, key, rest, held),
        Function::DataIncr => data_incr(alloc, key, rest, held),
        Function::MineSend => mine_send(alloc, key, rest, held),
        Function::MineDelete => mine_delete(alloc, key, rest, held),
        Function::EventSend => event_send(alloc, key, rest),
    }
}
