//! Reads the bytes of a part, in one pass.
ghost use Rattle.std.specs.Prelude.{◌≡◌, ℕ, MatchOption, IfOk, IsErrOf};
ghost use Rattle.gate_journal.specs.declared.read.ReadFault.TheVariants.{NoMemory};
ghost use Rattle.salt_disk.specs.Disk.{Stays};
ghost use Rattle.salt_outside.specs.Causes.{CountsFailures};
ghost use Rattle.salt_disk.specs.Fuse.{Lasts};
ghost use Rattle.gate_journal.specs.Calls.{KeepsBytes, KeepsOthers, SettlesUnless, LeavesAsBefore, BurnsUnless};
ghost use Rattle.gate_journal.specs.Storage.{ReadsWhole, HasHeader, ReadsRecord, ReadsAs};
ghost use Rattle.gate_journal.specs.Damage.{IsNoJournal, IsDamagedAt};

use crate::{
    FIRST_GATE, GREATEST_LIMIT, HEADER_BYTES, LEAST_LIMIT, NAME, OPEN_GATE, Payload, Payloads,
    RECORD_OVERHEAD,
};
use salt_disk::{Disk, DiskFault, Part};
use std::alloc::{AllocError, Global};

#[derive(Clone, Copy, Debug, PartialEq, Eq)]
pub enum ReadFault {
    NoMemory,
    NotAJournal,
    Damaged(u64),
}

impl From<AllocError> for ReadFault {
    ghost from_gives = { λ _ e. e ≡ NoMemory };

    fn from(_: AllocError) -> Self {
        ReadFault::NoMemory
    }
}

// The limit in the header, where there is one and a gate.
fn read_header(bytes: &[u8]) -> Option<u64>
    ensures { MatchOption result (IsNoJournal bytes.now) (λ limit. HasHeader bytes.now limit) }
{
    if bytes.len() <= HEADER_BYTES {
        return None;
    }
    let Some((name, rest)) = bytes.split_first_chunk::<8>() else {
        return None;
    };
    let Some((limit, _)) = rest.split_first_chunk::<8>() else {
        return None;
    };
    if name.as_slice() != NAME.as_slice() {
        return None;
    }
    let limit = u64::from_be_bytes(*limit);
    if limit < LEAST_LIMIT || limit > GREATEST_LIMIT {
        return None;
    }
    Some(limit)
}

// The payload behind an open gate, and what stands from the next gate on.
fn read_record(rest: &[u8], room: u64) -> Option<(&[u8], &[u8])>
    ensures { ReadsRecord room rest.now result }
{
    let (length, rest) = rest.split_first_chunk::<4>()?;
    let length = u32::from_be_bytes(*length) as usize;
    if rest.len() <= length || room < RECORD_OVERHEAD + 1 + length as u64 {
        return None;
    }
    Some((&rest[..length], &rest[length..]))
}

// The limit in the header, the payloads behind it, and the length of the journal.
pub fn read_journal(alloc: Global, bytes: &[u8]) -> Result<(u64, Payloads, u64), ReadFault>
    ensures ok { IfOk result (λ r. ReadsAs bytes.now r.0 r.1 r.2) }
    ensures not_a_journal { IsErrOf result ReadFault.NotAJournal → IsNoJournal bytes.now }
    ensures damaged { (at : ℕ) → IsErrOf result (ReadFault.Damaged at) → IsDamagedAt at bytes.now }
{
    let Some(limit) = read_header(bytes) else {
        return Err(ReadFault::NotAJournal);
    };
    let mut payloads = Payloads::new(alloc, FIRST_GATE);
    let mut at = FIRST_GATE;
    let mut rest = &bytes[HEADER_BYTES..];
    while rest[0] == OPEN_GATE {
        let Some((payload, after)) = read_record(&rest[1..], limit - at) else {
            return Err(ReadFault::Damaged(at));
        };
        payloads.add(at, Payload::new(Vec::from_slice(alloc, payload)?))?;
        at += RECORD_OVERHEAD + payload.len() as u64;
        rest = after;
    }
    Ok((limit, payloads, at + 1))
}

// Syncs a part, and reads it.
pub fn read_synced<D: Disk>(alloc: Global, disk: &mut D, part: Part) -> Result<Vec<u8>, DiskFault>
    ensures ok { D.is_told → ReadsWhole (D.state disk.old) part result }
    ensures settled { D.is_told → SettlesUnless DiskFault.Failed result (D.state disk.new) part }
    ensures same { D.is_told → KeepsBytes D.Disk disk.old disk.new part }
    ensures others { D.is_told → KeepsOthers D.Disk disk.old disk.new part }
    ensures any_moment { D.is_told → LeavesAsBefore D.Disk disk.old disk.new }
    ensures fuse { D.is_told → BurnsUnless 1 D.fuse DiskFault.Failed disk.old disk.new result }
    ensures faults { CountsFailures D.faults DiskFault.Failed disk.old disk.new result }
{
    disk.sync(part)?;
    read_part(alloc, disk, part)
}

// All the bytes of a part.
fn read_part<D: Disk>(alloc: Global, disk: &mut D, part: Part) -> Result<Vec<u8>, DiskFault>
    ensures ok { D.is_told → ReadsWhole (D.state disk.old) part result }
    ensures same { D.is_told → Stays D.past D.state disk.old disk.new }
    ensures fuse { D.is_told → Lasts (D.fuse disk.old) (D.fuse disk.new) result }
    ensures faults { CountsFailures D.faults DiskFault.Failed disk.old disk.new result }
{
    let len = disk.len(part)?;
    let mut bytes = vec![in alloc; 0; len as usize]?;
    let count = disk.read(part, 0, &mut bytes)?;
    bytes.truncate(count);
    Ok(bytes)
}
