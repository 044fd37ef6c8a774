//! Copies of maps, with a pair set or taken out.
ghost use Rattle.std.specs.Prelude.{◌≡◌, ◌++◌, ◌∷◌, [], true, IfOk, OnOk};
ghost use Rattle.salt_value.specs.Keys.{Ascend, keys_of, comes_after, last_key};
ghost use Rattle.salt_value.specs.Sides as sides;
ghost use Rattle.salt_value.specs.PairChanges as changes;

use crate::fields::Pairs;
use crate::fits;
use crate::limits::{MOST_VALUE_BYTES, MOST_VALUE_LEVELS};
use crate::text::Text;
use crate::value::{Fields, Value};
use std::alloc::{AllocError, Global};

/// Which pairs of a map are meant, by a key.
#[derive(Clone, Copy, Debug)]
pub enum Side {
    Every,
    Before,
    After,
    Other,
}

fn is_on(side: Side, key: &[u8], name: &[u8]) -> bool
    ensures { result ≡ sides.is_on side key.now name.now }
{
    match side {
        Side::Every => true,
        Side::Before => name.cmp(key).is_lt(),
        Side::After => key.cmp(name).is_lt(),
        Side::Other => name != key,
    }
}

// Puts a copy of a pair last.
fn push_copy(alloc: Global, new: &mut Fields, name: &Text, value: &Value) -> Result<(), AllocError>
    requires { comes_after (last_key new.old) name.now ≡ true }
    ensures { OnOk result (new.new ≡ new.old ++ (name.now, value.now) ∷ []) }
{
    let name = name.copy()?;
    new.push(name, value.copy(alloc)?)
}

// Puts copies of the pairs on this side of a key last.
fn push_side(
    alloc: Global,
    new: &mut Fields,
    pairs: &[(Text, Value)],
    side: Side,
    key: &[u8],
) -> Result<(), AllocError>
    requires { Ascend (keys_of (new.old ++ sides.on_side side key.now pairs.now)) }
    ensures { OnOk result (new.new ≡ new.old ++ sides.on_side side key.now pairs.now) }
{
    for (name, value) in pairs {
        if is_on(side, key, name.as_bytes()) {
            push_copy(alloc, new, name, value)?;
        }
    }
    Ok(())
}

fn copy_pairs(alloc: Global, fields: &Fields) -> Result<Fields, AllocError>
    ensures { IfOk result (λ new. new ≡ fields.now) }
{
    let mut new = Fields::new(alloc);
    push_side(alloc, &mut new, fields.as_slice(), Side::Every, b"")?;
    Ok(new)
}

fn with_pair(alloc: Global, fields: &Fields, key: &str, value: Value) -> Result<Fields, AllocError>
    ensures { IfOk result (λ new. new ≡ changes.with_pair key.now value fields.now) }
{
    let pairs = fields.as_slice();
    let mut new = Fields::new(alloc);
    push_side(alloc, &mut new, pairs, Side::Before, key.as_bytes())?;
    new.push(Text::new(String::from_str(alloc, key)?), value)?;
    push_side(alloc, &mut new, pairs, Side::After, key.as_bytes())?;
    Ok(new)
}

fn without_key(alloc: Global, fields: &Fields, key: &str) -> Result<Fields, AllocError>
    ensures { IfOk result (λ new. new ≡ changes.without_key key.now fields.now) }
{
    let mut new = Fields::new(alloc);
    push_side(
        alloc,
        &mut new,
        fields.as_slice(),
        Side::Other,
        key.as_bytes(),
    )?;
    Ok(new)
}

impl Pairs<Value> {
    ghost use Rattle.std.specs.Prelude.{◌≡◌, ◌↔◌, false, IsTrue, IfOk};
    ghost use Rattle.salt_value.specs.PairChanges.{with_pair, without_key};
    ghost use Rattle.salt_value.specs.WellFormed.{ValueFits};
    ghost use Rattle.salt_value.specs.FitTest as test;
    ghost use Rattle.salt_value.specs.declared.value.Value.TheVariants as v;

    /// Equal pairs in memory of their own.
    pub fn copy(&self, alloc: Global) -> Result<Fields, AllocError>
        ensures { IfOk result (λ copy. copy ≡ self.now) }
    {
        copy_pairs(alloc, self)
    }

    /// A copy with this pair in its place, and no other under its key.
    pub fn with(&self, alloc: Global, key: &str, value: Value) -> Result<Fields, AllocError>
        ensures { IfOk result (λ new. new ≡ with_pair key.now value self.now) }
    {
        with_pair(alloc, self, key, value)
    }

    /// A copy without the pair under this key, if there is one.
    pub fn without(&self, alloc: Global, key: &str) -> Result<Fields, AllocError>
        ensures { IfOk result (λ new. new ≡ without_key key.now self.now) }
    {
        without_key(alloc, self, key)
    }

    /// Whether a map of these pairs is within the limits of a value, as `Value::fits` says them.
    #[tactic(auto, using(crate::proofs::FitTests::fits_by))]
    pub fn fits(&self) -> bool
        ensures ok { IsTrue result ↔ ValueFits (v.Map self.now) }
        // A map that is refused is too deep or too large.
        ensures large { result ≡ false → test.IsPastLimits (v.Map self.now) }
        ensures exact { result ≡ test.fits (v.Map self.now) }
    {
        fits::after_map(self, MOST_VALUE_LEVELS, MOST_VALUE_BYTES).is_some()
    }
}
