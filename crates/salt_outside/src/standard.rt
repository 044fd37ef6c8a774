//! A source over a reader of std, and a sink over a writer.
ghost use Rattle.std.specs.Prelude.{◌≡◌, ◌<◌, ◌≤◌, ℕ, length, take, None, IfOk, OnOk, IsErrOf, IsOkUnless};
ghost use Rattle.salt_outside.specs.Causes.{next_count};
ghost use Rattle.salt_outside.specs.StandardWrites.{AppendsAll, AppendsFront, ReadsKnown};

use crate::{Outside, Sink, Source};
use std::io;
use std::io::{ErrorKind, Read, Write};

/// A reader of std as a source. It doesn't tell what is left.
#[derive(Drop)]
pub struct StdSource<R: Read + Drop> {
    inner: R,
    faults: u64,
}

impl<R: Read + Drop> StdSource<R> {
    ghost use Rattle.salt_outside.specs.Standard.{reader, reader_faults};

    /// A source that reads from `inner`, with no fault yet.
    pub fn new(inner: R) -> StdSource<R>
        ensures inner { reader result ≡ inner }
        ensures faults { reader_faults result ≡ 0 }
    {
        StdSource { inner, faults: 0 }
    }
}

impl<R: Read + Drop> Source for StdSource<R> {
    ghost use Rattle.salt_outside.specs.Causes.{CountsFailures};
    ghost use Rattle.salt_outside.specs.Standard.{reader, reader_faults};

    ghost left = { λ _. None };

    ghost faults = { λ s. s.faults };

    /// Each error of the reader is a fault, an interrupted read and want of memory too.
    #[tactic(auto, using(crate::proofs::Faults::counted))]
    fn read(&mut self, into: &mut [u8]) -> Result<usize, Outside>
        requires { 0 < length into.old }
        ensures ok { IfOk result (λ count. count ≤ length into.new) }
        ensures faults { CountsFailures reader_faults Outside.Failed self.old self.new result }
        ensures memory { IsOkUnless result Outside.Failed }
        ensures known { ReadsKnown (λ s. R.remaining (reader s)) self.old self.new into.new result }
    {
        match self.inner.read(into) {
            Ok(count) => Ok(count),
            Err(_) => Err(count_fault(&mut self.faults)),
        }
    }
}

/// A writer of std as a sink. It doesn't tell what it holds.
#[derive(Drop)]
pub struct StdSink<W: Write + Drop> {
    inner: W,
    faults: u64,
}

impl<W: Write + Drop> StdSink<W> {
    ghost use Rattle.salt_outside.specs.Standard.{writer, writer_faults};

    /// A sink that writes to `inner`, with no fault yet.
    pub fn new(inner: W) -> StdSink<W>
        ensures inner { writer result ≡ inner }
        ensures faults { writer_faults result ≡ 0 }
    {
        StdSink { inner, faults: 0 }
    }
}

impl<W: Write + Drop> Sink for StdSink<W> {
    ghost use Rattle.salt_outside.specs.Causes.{CountsFailures};
    ghost use Rattle.salt_outside.specs.Standard.{writer, writer_faults};

    ghost held = { λ _. None };

    ghost faults = { λ s. s.faults };

    /// Writes all the bytes and flushes. Each error of the writer is a fault, an interrupted write and want of memory
    /// too, and so is a write that takes nothing.
    #[tactic(auto, using(crate::proofs::Faults::counted))]
    fn write(&mut self, bytes: &[u8]) -> Result<(), Outside>
        ensures faults { CountsFailures writer_faults Outside.Failed self.old self.new result }
        ensures memory { IsOkUnless result Outside.Failed }
        ensures known { AppendsAll (λ s. W.contents (writer s)) self.old self.new bytes.now result }
        ensures known_part { AppendsFront (λ s. W.contents (writer s)) self.old self.new bytes.now }
    {
        match write_and_flush(&mut self.inner, bytes) {
            Ok(()) => Ok(()),
            Err(_) => Err(count_fault(&mut self.faults)),
        }
    }
}

/// Counts a fault, and answers it.
fn count_fault(faults: &mut u64) -> Outside
    ensures value { result ≡ Outside.Failed }
    ensures count { faults.new ≡ next_count faults.old }
    ensures later { faults.old ≤ faults.new }
{
    *faults = faults.saturating_add(1);
    Outside::Failed
}

/// Writes all the bytes, and then flushes.
#[tactic(auto, using(crate::proofs::Written::appends_all, crate::proofs::Written::appends_part))]
fn write_and_flush<W: Write>(writer: &mut W, bytes: &[u8]) -> io::Result<()>
    ensures known { AppendsAll W.contents writer.old writer.new bytes.now result }
    ensures known_part { AppendsFront W.contents writer.old writer.new bytes.now }
{
    let mut done = 0;
    while done < bytes.len() {
        let count = writer.write(&bytes[done..])?;
        if count == 0 {
            return Err(ErrorKind::WriteZero.into());
        }
        done += count;
    }
    writer.flush()
}
