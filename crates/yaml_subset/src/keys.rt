//! The keys of a map.
ghost use Rattle.std.specs.Prelude.{◌≡◌, [], not, IfOk, OnOk, OnErr};
ghost use Rattle.yaml_subset.specs.Keys as spec;

use indexmap::IndexSet;
use salt_value::Text;
use std::alloc::{AllocError, Global};
use std::marker::Model;

/// The keys that a map has so far, which contracts see as the list of their texts. A key is found without a walk over them.
#[derive(Drop)]
pub struct KeySet {
    keys: IndexSet<String>,
}

impl Model for KeySet {
    ghost use Rattle.std.specs.Prelude.{ℕ, List, map, string_bytes};

    ghost Value = { List (List ℕ) };

    ghost view = { λ s. map string_bytes s.keys.keys };
}

impl KeySet {
    /// No key. It takes no memory.
    pub fn new(alloc: Global) -> KeySet
        ensures { result ≡ [] }
    {
        KeySet {
            keys: IndexSet::new(alloc),
        }
    }

    /// Adds a key after the others, unless it is there. Whether it is new. After an error nothing has changed.
    pub fn insert(&mut self, alloc: Global, key: &Text) -> Result<bool, AllocError>
        ensures ok { IfOk result (λ new. new ≡ not (spec.has_key self.old key.now)) }
        ensures keys { OnOk result (self.new ≡ spec.with_key self.old key.now) }
        ensures err { OnErr result (self.new ≡ self.old) }
    {
        let key = String::from_str(alloc, key.as_str())?;
        Ok(self.keys.insert(key)?)
    }
}
