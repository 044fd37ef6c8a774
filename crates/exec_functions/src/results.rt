//! What functions make: refusals, answers, and what they change.
ghost use Rattle.std.specs.Prelude.{◌≡◌, ◌∷◌, [], true, IfOk, string_bytes};
ghost use Rattle.std.specs.Option.{option_copied};
ghost use Rattle.salt_value.specs.declared.value.Value.TheVariants as v;
ghost use Rattle.exec_functions.specs.Results as spec;
ghost use Rattle.exec_functions.specs.declared.holdings.Change.TheVariants.{Grains, Store, Mine};

use crate::holdings::{Change, Note, Notes, Ran};
use salt_value::{Fields, Outcome, Text, Value};
use std::alloc::{AllocError, Global};

/// A retcode that is not 0 and a text.
pub fn refusal(alloc: Global, retcode: u8, text: String) -> Ran
    ensures { result ≡ spec.refusal retcode (string_bytes text) }
{
    Ran {
        outcome: Outcome {
            retcode,
            value: Value::Str(Text::new(text)),
        },
        change: Change::Nothing,
        notes: Notes::new(alloc),
    }
}

/// The refusal of arguments of another number or form.
pub fn bad_arguments(alloc: Global) -> Result<Ran, AllocError>
    ensures { IfOk result (λ ran. ran ≡ spec.bad_arguments) }
{
    Ok(refusal(alloc, 1, String::from_str(alloc, "bad arguments")?))
}

/// An answer with a change and without notes.
pub fn success(alloc: Global, value: Value, change: Change) -> Ran
    ensures { result ≡ spec.success value change [] }
{
    Ran {
        outcome: Outcome { retcode: 0, value },
        change,
        notes: Notes::new(alloc),
    }
}

/// The answer true with a change and a note.
pub fn noted(alloc: Global, change: Change, note: Note) -> Result<Ran, AllocError>
    ensures { IfOk result (λ ran. ran ≡ spec.success (v.Flag true) change (note ∷ [])) }
{
    let mut notes = Notes::new(alloc);
    notes.push(note)?;
    Ok(Ran {
        outcome: Outcome {
            retcode: 0,
            value: Value::Flag(true),
        },
        change,
        notes,
    })
}

/// Whether what was found is this value.
pub fn is_stored(value: &Value, found: Option<&Value>) -> bool
    ensures { result ≡ spec.is_stored value.now (option_copied found.entry) }
{
    match found {
        None => false,
        Some(old) => value.is_same(old),
    }
}

/// The pairs with a pair set; None where it stands there already.
pub fn new_with(
    alloc: Global,
    fields: &Fields,
    key: &str,
    value: &Value,
) -> Result<Option<Fields>, AllocError>
    ensures { IfOk result (λ new. new ≡ spec.new_with key.now value.now fields.now) }
{
    if is_stored(value, fields.get(key.as_bytes())) {
        return Ok(None);
    }
    Ok(Some(fields.with(alloc, key, value.copy(alloc)?)?))
}

/// The pairs with a key taken out; None where there is none.
pub fn new_without(alloc: Global, fields: &Fields, key: &str) -> Result<Option<Fields>, AllocError>
    ensures { IfOk result (λ new. new ≡ spec.new_without key.now fields.now) }
{
    match fields.get(key.as_bytes()) {
        Some(_) => Ok(Some(fields.without(alloc, key)?)),
        None => Ok(None),
    }
}

/// The store as another one, if it is.
pub fn store_change(new: Option<Fields>) -> Change
    ensures { result ≡ spec.change_to Store new }
{
    match new {
        None => Change::Nothing,
        Some(new) => Change::Store(new),
    }
}

/// The mine as another one, if it is.
pub fn mine_change(new: Option<Fields>) -> Change
    ensures { result ≡ spec.change_to Mine new }
{
    match new {
        None => Change::Nothing,
        Some(new) => Change::Mine(new),
    }
}

/// The grains as other ones, if they are.
pub fn grains_change(new: Option<Fields>) -> Change
    ensures { result ≡ spec.change_to Grains new }
{
    match new {
        None => Change::Nothing,
        Some(new) => Change::Grains(new),
    }
}
