//! Pairs in the order of their keys.
ghost use Rattle.std.specs.Prelude.{◌≡◌, [], ◌∷◌, ◌++◌, length, true, OnOk, OnErr};
ghost use Rattle.std.specs.Option.{option_copied};
ghost use Rattle.salt_value.specs.Keys.{Ascend, keys_of, last_key, comes_after, under};

use crate::text::Text;
use std::alloc::{AllocError, Global};
use std::marker::Model;

/// Pairs of a key and what stands under it, whose keys ascend strictly by bytes.
/// Contracts see the list of the pairs.
#[derive(Drop)]
pub struct Pairs<T> {
    pairs: Vec<(Text, T)>,
}

impl<T> Model for Pairs<T> {
    ghost use Rattle.std.specs.Prelude.{ℕ, List, ◌≡◌, Bool, true};
    ghost use Rattle.std.specs.Coded.{coded_list, coded×, coded_ℕ};
    ghost use Rattle.salt_value.specs.Keys.{Ascend, keys_of};

    ghost Value = { List (List ℕ × T) };

    ghost coded = { coded_list (coded× (coded_list coded_ℕ) T.code) };

    ghost view = { λ f. f.pairs.items };

    ghost invariant = { λ f. Ascend (keys_of f.pairs.items) };
}

impl<T> Pairs<T> {
    /// No pair. It takes no memory.
    pub fn new(alloc: Global) -> Pairs<T>
        ensures { result ≡ [] }
    {
        Pairs {
            pairs: Vec::new(alloc),
        }
    }

    pub fn as_slice(&self) -> &[(Text, T)]
        ensures value { result.now ≡ self.now }
        ensures ascend { Ascend (keys_of self.now) }
    {
        self.pairs.as_slice()
    }

    /// The greatest key.
    pub fn last_key(&self) -> Option<&[u8]>
        ensures { option_copied result ≡ last_key self.now }
    {
        match self.pairs.last() {
            None => None,
            Some((key, _)) => Some(key.as_bytes()),
        }
    }

    /// What stands under exactly this key.
    pub fn get(&self, key: &[u8]) -> Option<&T>
        ensures { option_copied result ≡ under key.now self.now }
    {
        for (name, value) in self.as_slice() {
            if name.as_bytes() == key {
                return Some(value);
            }
        }
        None
    }

    /// Whether the key stands after all others, so that a pair with it may be pushed.
    pub fn can_push(&self, key: &Text) -> bool
        ensures { result ≡ comes_after (last_key self.now) key.now }
    {
        match self.last_key() {
            None => true,
            Some(last) => last.cmp(key.as_bytes()).is_lt(),
        }
    }
}

impl<T: Drop> Pairs<T> {
    /// Puts a pair last, whose key stands after all others.
    pub fn push(&mut self, key: Text, value: T) -> Result<(), AllocError>
        requires { comes_after (last_key self.old) key ≡ true }
        ensures ok { OnOk result (self.new ≡ self.old ++ (key, value) ∷ []) }
        ensures err { OnErr result (self.new ≡ self.old) }
    {
        self.pairs.push((key, value))?;
        Ok(())
    }
}
