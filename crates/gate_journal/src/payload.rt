//! Payloads, and the places of their gates.
ghost use Rattle.std.specs.Prelude.{◌≡◌, ◌≤◌, ◌<◌, ◌+◌, ◌↔◌, [], ◌∷◌, ◌++◌, length, IsTrue, IsNone, IfSome, IfNone, OnOk, OnErr};
ghost use Rattle.gate_journal.specs.Journal.{records};
ghost use Rattle.gate_journal.specs.Payloads.{gate_place};

use std::alloc::{AllocError, Global};
use std::marker::Model;

/// The bytes that one record of a journal holds.
#[derive(Debug, Drop)]
pub struct Payload {
    bytes: Vec<u8>,
}

impl Model for Payload {
    ghost use Rattle.std.specs.Prelude.{List, ℕ};

    ghost Value = { List ℕ };

    ghost view = { λ p. p.bytes.items };
}

impl Payload {
    /// A payload of these bytes.
    pub fn new(bytes: Vec<u8>) -> Payload
        ensures { result ≡ bytes.items }
    {
        Payload { bytes }
    }

    pub fn as_slice(&self) -> &[u8]
        ensures { result.now ≡ self.now }
    {
        &self.bytes
    }

    pub fn into_vec(self) -> Vec<u8>
        ensures { result.items ≡ self }
    {
        self.bytes
    }
}

/// The payloads of a journal in order, each with the place of its record's gate.
#[derive(Debug, Drop)]
pub struct Payloads {
    first: u64,
    items: Vec<Payload>,
    places: Vec<u64>,
}

impl Model for Payloads {
    ghost use Rattle.gate_journal.specs.Payloads.{PlacedPayloads, ArePlaced};

    ghost Value = { PlacedPayloads };

    ghost view = { λ p. record { first = p.first; items = p.items.items } };

    ghost invariant = { λ p. ArePlaced p.first p.items.items p.places.items };
}

impl Payloads {
    /// No payload yet: the gate of the first one will stand at this place.
    pub fn new(alloc: Global, first: u64) -> Payloads
        ensures first { result.first ≡ first }
        ensures none { result.items ≡ [] }
    {
        Payloads {
            first,
            items: Vec::new(alloc),
            places: Vec::new(alloc),
        }
    }

    pub fn len(&self) -> usize
        ensures { result ≡ length self.now.items }
    {
        self.items.len()
    }

    pub fn is_empty(&self) -> bool
        ensures { IsTrue result ↔ (self.now.items ≡ []) }
    {
        self.items.is_empty()
    }

    pub fn as_slice(&self) -> &[Payload]
        ensures { result.now ≡ self.now.items }
    {
        &self.items
    }

    /// The place of the gate of record `i`, counted from 0, in bytes from the beginning of the part. None
    /// exactly past the last record.
    pub fn place(&self, i: usize) -> Option<u64>
        ensures some { i < length self.now.items → result ≡ Some (gate_place self.now i) }
        ensures none { length self.now.items ≤ i → result ≡ None }
    {
        self.places.get(i).copied()
    }

    /// Adds a payload whose gate stands at the place `at`. After an error all is as before.
    pub(crate) fn add(&mut self, at: u64, payload: Payload) -> Result<(), AllocError>
        requires { at ≡ self.old.first + length (records self.old.items) }
        ensures first { self.new.first ≡ self.old.first }
        ensures ok { OnOk result (self.new.items ≡ self.old.items ++ payload ∷ []) }
        ensures err { OnErr result (self.new.items ≡ self.old.items) }
    {
        self.items.reserve(1)?;
        self.places.reserve(1)?;
        self.items.push_reserved(payload);
        self.places.push_reserved(at);
        Ok(())
    }
}
