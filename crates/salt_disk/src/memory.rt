//! A disk in memory. It keeps a record of its changing calls, from which what a crash might have left follows.
ghost use Rattle.std.specs.Prelude.{◌≡◌, ◌≢◌, ◌≤◌, ◌+◌, [], length, vec_len, vec_capacity, OnOk, OnErr};
ghost use Rattle.salt_disk.specs.Disk.{part_of, settled_part};
ghost use Rattle.salt_disk.specs.History.{states, replay, owed_by, whole, Replays, IsBounded};
ghost use Rattle.salt_disk.specs.Memory.{part_state, parts_state, honest_parts, Crashes};
ghost use Rattle.salt_disk.specs.Steps.{WritesPart, CutsPart, SettlesPart, RecordsStep, RecordsOnlyChanges, HasEntriesLeft};

use crate::call::Call;
use crate::fuse::Faults;
use crate::part::{MemPart, Parts};
use crate::{Disk, DiskFault, Fuse, Part};
use std::alloc::{AllocError, Global};

// the entries that a write and what may follow it before the next write need, over all parts
const ROOM: usize = 10;

/// A disk in memory, for tests and for runs of a whole network: it tells what it holds, fails from a chosen
/// call on, and crashes as it is told.
///
/// A cut or a sync that changes no image has no entry in its record of calls, and its time stands still.
/// So each write, and each part that began with bytes, has entries for at most one cut and two syncs.
#[derive(Drop)]
pub struct MemDisk {
    alloc: Global,
    parts: Parts,
    // the bytes at the last crash, all of them at rest
    root: Vec<u8>,
    even: Vec<u8>,
    odd: Vec<u8>,
    // the changing calls since then
    calls: Vec<Call>,
    faults: Faults,
    // each earlier moment follows from the record
    ghost replayed: { Replays (replay (whole root.items even.items odd.items) calls.items) (parts_state parts) },
    // the record has room for the cuts and syncs that may follow before the next write
    ghost room: { vec_len calls + owed_by (parts_state parts) ≤ vec_capacity calls },
    // how long the record may get
    ghost bounded: { IsBounded (whole root.items even.items odd.items) calls.items (parts_state parts) },
}

impl MemDisk {
    /// Three empty parts, no fault and nothing pending.
    pub fn new(alloc: Global) -> Self
        ensures state { ⟦<MemDisk as Disk>⟧.state result ≡ whole [] [] [] }
        ensures time { ⟦<MemDisk as Disk>⟧.past result ≡ [] }
        ensures fuse { ⟦<MemDisk as Disk>⟧.fuse result ≡ Fuse.Whole }
        ensures faults { ⟦<MemDisk as Disk>⟧.faults result ≡ 0 }
    {
        MemDisk {
            alloc,
            parts: Parts {
                root: whole_part(alloc, Vec::new(alloc)),
                even: whole_part(alloc, Vec::new(alloc)),
                odd: whole_part(alloc, Vec::new(alloc)),
            },
            root: Vec::new(alloc),
            even: Vec::new(alloc),
            odd: Vec::new(alloc),
            calls: Vec::new(alloc),
            faults: Faults {
                fuse: Fuse::Whole,
                count: 0,
            },
        }
    }

    /// Sets a fuse: so many changing calls (`write_at`, `cut` and `sync`, over all parts together) pass, the
    /// next one fails, and from that one on every call fails, until the next crash. Calls of `len` and `read`
    /// before it pass. It needs that no call has failed since the last crash.
    pub fn arm(&mut self, calls: u64)
        requires { ⟦<MemDisk as Disk>⟧.fuse self.old ≢ Fuse.Out }
        ensures fuse { ⟦<MemDisk as Disk>⟧.fuse self.new ≡ Fuse.Armed calls }
        ensures state { ⟦<MemDisk as Disk>⟧.state self.new ≡ ⟦<MemDisk as Disk>⟧.state self.old }
        ensures time { ⟦<MemDisk as Disk>⟧.past self.new ≡ ⟦<MemDisk as Disk>⟧.past self.old }
        ensures faults { ⟦<MemDisk as Disk>⟧.faults self.new ≡ ⟦<MemDisk as Disk>⟧.faults self.old }
    {
        self.faults.fuse = Fuse::Armed(calls);
    }

    /// A crash: it takes the fuse away and leaves the image whose unsure bytes are all `pick`, and where the
    /// length of each part is `cut` bytes past its least length, or its greatest length where that is less.
    /// After an error all is as before.
    pub fn crash(&mut self, pick: u8, cut: u64) -> Result<(), AllocError>
        ensures ok { Crashes pick cut ⟦<MemDisk as Disk>⟧.state self.old self.new result }
        ensures time { OnOk result (⟦<MemDisk as Disk>⟧.past self.new ≡ []) }
        ensures fuse { OnOk result (⟦<MemDisk as Disk>⟧.fuse self.new ≡ Fuse.Whole) }
        ensures err { OnErr result (self.new ≡ self.old) }
        ensures faults { ⟦<MemDisk as Disk>⟧.faults self.new ≡ ⟦<MemDisk as Disk>⟧.faults self.old }
    {
        let root = self.parts.root.image(self.alloc, pick, cut)?;
        let even = self.parts.even.image(self.alloc, pick, cut)?;
        let odd = self.parts.odd.image(self.alloc, pick, cut)?;
        let first_root = Vec::from_slice(self.alloc, &root)?;
        let first_even = Vec::from_slice(self.alloc, &even)?;
        let first_odd = Vec::from_slice(self.alloc, &odd)?;
        let calls = Vec::with_capacity(self.alloc, ROOM)?;
        self.parts = Parts {
            root: whole_part(self.alloc, root),
            even: whole_part(self.alloc, even),
            odd: whole_part(self.alloc, odd),
        };
        self.root = first_root;
        self.even = first_even;
        self.odd = first_odd;
        self.calls = calls;
        self.faults.fuse = Fuse::Whole;
        Ok(())
    }
}

// A part of these bytes, with nothing pending.
fn whole_part(alloc: Global, bytes: Vec<u8>) -> MemPart
    ensures { part_state result ≡ settled_part bytes.items }
{
    let len = bytes.len() as u64;
    MemPart {
        bytes,
        unsure: Vec::new(alloc),
        least: len,
        greatest: len,
    }
}

// Each of these three makes a call, and records it where it changes an image.

fn write_part(
    parts: &mut Parts,
    calls: &mut Vec<Call>,
    part: Part,
    at: u64,
    bytes: Vec<u8>,
) -> Result<(), AllocError>
    requires within { at ≤ length (part_of (parts_state parts.old) part).bytes }
    requires room { vec_len calls.old + 10 ≤ vec_capacity calls.old }
    ensures state { OnOk result (WritesPart part at bytes.items parts.old parts.new) }
    ensures recorded { OnOk result (RecordsStep parts.old parts.new calls.old calls.new) }
    ensures room { OnOk result (HasEntriesLeft parts.new calls.new) }
    ensures err { OnErr result (parts_state parts.new ≡ parts_state parts.old) }
    ensures err_calls { OnErr result (calls.new.items ≡ calls.old.items) }
    ensures err_len { OnErr result (vec_len calls.new ≡ vec_len calls.old) }
    ensures err_capacity { OnErr result (vec_capacity calls.new ≡ vec_capacity calls.old) }
{
    parts.write(part, at, &bytes)?;
    calls.push_reserved(Call::Write(part, at, bytes));
    Ok(())
}

fn cut_part(parts: &mut Parts, calls: &mut Vec<Call>, part: Part)
    requires room { HasEntriesLeft parts.old calls.old }
    ensures state { CutsPart part parts.old parts.new }
    ensures recorded { RecordsStep parts.old parts.new calls.old calls.new }
    ensures still { RecordsOnlyChanges parts.old parts.new calls.old calls.new }
    ensures room { HasEntriesLeft parts.new calls.new }
{
    let changes = parts.least(part) > 0;
    parts.cut(part);
    if changes {
        calls.push_reserved(Call::Cut(part));
    }
}

fn sync_part(parts: &mut Parts, calls: &mut Vec<Call>, part: Part)
    requires room { HasEntriesLeft parts.old calls.old }
    ensures state { SettlesPart part parts.old parts.new }
    ensures recorded { RecordsStep parts.old parts.new calls.old calls.new }
    ensures still { RecordsOnlyChanges parts.old parts.new calls.old calls.new }
    ensures room { HasEntriesLeft parts.new calls.new }
{
    if parts.is_calm(part) {
        return;
    }
    parts.sync(part);
    calls.push_reserved(Call::Sync(part, parts.len(part)));
}

impl Disk for MemDisk {
    ghost is_told = { Unit {0} };

    ghost state = { λ d. parts_state d.parts };

    ghost past = { λ d. states (whole d.root.items d.even.items d.odd.items) d.calls.items };

    ghost fuse = { λ d. d.faults.fuse };

    ghost faults = { λ d. d.faults.count };

    ghost honest = { λ d told. honest_parts d.parts };

    fn len(&mut self, part: Part) -> Result<u64, DiskFault> {
        self.faults.pass()?;
        Ok(self.parts.len(part))
    }

    fn read(&mut self, part: Part, at: u64, into: &mut [u8]) -> Result<usize, DiskFault> {
        self.faults.pass()?;
        Ok(self.parts.read(part, at, into))
    }

    fn write_at(&mut self, part: Part, at: u64, bytes: &[u8]) -> Result<(), DiskFault> {
        let copy = Vec::from_slice(self.alloc, bytes)?;
        self.calls.reserve(ROOM)?;
        write_part(&mut self.parts, &mut self.calls, part, at, copy)?;
        self.faults.burn()?;
        Ok(())
    }

    fn cut(&mut self, part: Part) -> Result<(), DiskFault> {
        cut_part(&mut self.parts, &mut self.calls, part);
        self.faults.burn()?;
        Ok(())
    }

    fn sync(&mut self, part: Part) -> Result<(), DiskFault> {
        self.faults.burn()?;
        sync_part(&mut self.parts, &mut self.calls, part);
        Ok(())
    }
}
