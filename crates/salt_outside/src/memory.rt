//! A source and a sink in memory, of which chosen calls fail.
ghost use Rattle.std.specs.Prelude.{◌≡◌, ◌<◌, ◌≤◌, ℕ, List, [], Option, Some, drop, length, IfOk, OnErr, IsOkUnless};
ghost use Rattle.salt_outside.specs.Streams.{ReadsFront, WritesAll, IsPart, IsAtEnd};

use crate::calls::Calls;
use crate::{Outside, Sink, Source};
use std::alloc::Global;

/// A source over bytes in memory.
#[derive(Drop)]
pub struct MemSource {
    bytes: Vec<u8>,
    at: usize,
    calls: Calls,
    ghost within: { at ≤ length bytes.items },
}

impl MemSource {
    ghost use Rattle.salt_outside.specs.Memory.{source_left, source_fails, source_calls, source_faults};

    /// A source that has these bytes left. The calls of `read` whose numbers are listed fail, counted from 1.
    pub fn new(bytes: Vec<u8>, fails: Vec<u64>) -> MemSource
        ensures left { source_left result ≡ bytes.items }
        ensures fails { source_fails result ≡ fails.items }
        ensures calls { source_calls result ≡ 0 }
        ensures faults { source_faults result ≡ 0 }
    {
        MemSource {
            bytes,
            at: 0,
            calls: Calls::new(fails),
        }
    }
}

impl Source for MemSource {
    ghost use Rattle.salt_outside.specs.Memory.{source_left, left_in_memory, source_fails, source_calls, source_faults, CountsMost, FailsWhereListed};
    ghost use Rattle.salt_outside.specs.Causes.{next_count, CountsFailures};

    ghost left = { λ s. Some (drop s.at s.bytes.items) };

    ghost faults = { λ s. s.calls.faults };

    /// Reads as many bytes as there is room for, or as are left. It finds its memory always.
    #[tactic(auto, using(crate::proofs::Faults::counted, crate::proofs::Reading::none_left))]
    fn read(&mut self, into: &mut [u8]) -> Result<usize, Outside>
        requires { 0 < length into.old }
        ensures ok { IfOk result (λ count. count ≤ length into.new) }
        ensures count { CountsMost into.old (source_left self.old) result }
        ensures left { ReadsFront left_in_memory self.old self.new into.new result }
        ensures end { IfOk result (λ count. count ≡ 0 → IsAtEnd (left_in_memory self.old)) }
        ensures calls { source_calls self.new ≡ next_count (source_calls self.old) }
        ensures fails { source_fails self.new ≡ source_fails self.old }
        ensures faults { CountsFailures source_faults Outside.Failed self.old self.new result }
        ensures err { OnErr result (left_in_memory self.new ≡ left_in_memory self.old) }
        ensures failed { FailsWhereListed (source_fails self.old) (source_calls self.old) result }
        ensures memory { IsOkUnless result Outside.Failed }
    {
        if self.calls.next_fails() {
            return Err(Outside::Failed);
        }
        let rest = &self.bytes[self.at..];
        let count = into.len().min(rest.len());
        into[..count].copy_from_slice(&rest[..count]);
        self.at += count;
        Ok(count)
    }
}

/// A sink that keeps its bytes in memory.
#[derive(Drop)]
pub struct MemSink {
    bytes: Vec<u8>,
    calls: Calls,
}

impl MemSink {
    ghost use Rattle.salt_outside.specs.Memory.{sink_held, sink_fails, sink_calls, sink_faults};

    /// A sink that holds nothing. The calls of `write` whose numbers are listed fail, counted from 1.
    pub fn new(alloc: Global, fails: Vec<u64>) -> MemSink
        ensures held { sink_held result ≡ [] }
        ensures fails { sink_fails result ≡ fails.items }
        ensures calls { sink_calls result ≡ 0 }
        ensures faults { sink_faults result ≡ 0 }
    {
        MemSink {
            bytes: Vec::new(alloc),
            calls: Calls::new(fails),
        }
    }

    /// The bytes that were written.
    pub fn bytes(&self) -> &[u8]
        ensures value { result.now ≡ sink_held self.now }
    {
        &self.bytes
    }
}

impl Sink for MemSink {
    ghost use Rattle.salt_outside.specs.Memory.{sink_held, held_in_memory, sink_fails, sink_calls, sink_faults, FailsWhereListed};
    ghost use Rattle.salt_outside.specs.Causes.{next_count, CountsFailures};

    ghost held = { λ s. Some s.bytes.items };

    ghost faults = { λ s. s.calls.faults };

    /// Writes all the bytes. After an error none was written.
    #[tactic(auto, using(crate::proofs::Parts::part_whole, crate::proofs::Parts::part_none, crate::proofs::Faults::counted))]
    fn write(&mut self, bytes: &[u8]) -> Result<(), Outside>
        ensures ok { WritesAll held_in_memory self.old self.new bytes.now result }
        ensures part { IsPart (held_in_memory self.old) (held_in_memory self.new) bytes.now }
        ensures calls { sink_calls self.new ≡ next_count (sink_calls self.old) }
        ensures fails { sink_fails self.new ≡ sink_fails self.old }
        ensures faults { CountsFailures sink_faults Outside.Failed self.old self.new result }
        ensures err { OnErr result (sink_held self.new ≡ sink_held self.old) }
        ensures failed { FailsWhereListed (sink_fails self.old) (sink_calls self.old) result }
    {
        if self.calls.next_fails() {
            return Err(Outside::Failed);
        }
        if self.bytes.extend_from_slice(bytes).is_err() {
            return Err(Outside::NoMemory);
        }
        Ok(())
    }
}
