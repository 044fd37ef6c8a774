//! Writes a header, and a record.
ghost use Rattle.std.specs.Prelude.{◌≡◌, ◌<◌, ◌≤◌, ◌^◌, ◌∷◌, ◌++◌, [], length, drop, IfOk, OnOk};
ghost use Rattle.salt_disk.specs.Disk.{part_of, IsSettled};
ghost use Rattle.salt_outside.specs.Causes.{CountsFailures};
ghost use Rattle.salt_disk.specs.Fuse.{Burns};
ghost use Rattle.byteorder.specs.Endian.{big_bytes};
ghost use Rattle.gate_journal.specs.Layout.{least_limit, greatest_limit, fresh_length, closed_gate};
ghost use Rattle.gate_journal.specs.Journal.{header, record_of, tail_of};
ghost use Rattle.gate_journal.specs.Calls.{KeepsOthers};
ghost use Rattle.gate_journal.specs.Creation.{IsFresh, LeavesNothing};
ghost use Rattle.gate_journal.specs.Storage.{HasJournal, AddsNext, RestsAfterNoMemory, LeavesNext, StopsNext};

use crate::{CLOSED_GATE, HEADER_BYTES, NAME, OPEN_GATE, RECORD_OVERHEAD};
use byteorder::{BigEndian, ByteOrder};
use salt_disk::{Disk, DiskFault, Part, write_through};
use std::alloc::{AllocError, Global};

/// The header of a journal of this limit: the name of the format, and the limit with its high byte first. A limit
/// outside `LEAST_LIMIT` to `GREATEST_LIMIT` has a header too, and no journal begins with it.
pub fn header_bytes(limit: u64) -> [u8; HEADER_BYTES]
    ensures value { result ≡ header limit }
{
    let mut bytes = [0; HEADER_BYTES];
    bytes[..8].copy_from_slice(&NAME);
    BigEndian::write_u64(&mut bytes[8..], limit);
    bytes
}

/// A record of this payload: an open gate, the payload's length with its high byte first, and the payload, which has to
/// be under 2^32 bytes.
pub fn record_bytes(alloc: Global, payload: &[u8]) -> Result<Vec<u8>, AllocError>
    requires { length payload.now < 2 ^ 32 }
    ensures ok { IfOk result (λ bytes. bytes.items ≡ record_of payload.now) }
{
    let mut bytes = Vec::with_capacity(alloc, payload.len() + RECORD_OVERHEAD as usize)?;
    bytes.push(OPEN_GATE)?;
    bytes.extend_from_slice(&length_bytes(payload))?;
    bytes.extend_from_slice(payload)?;
    Ok(bytes)
}

// The length of a payload, its high byte first.
fn length_bytes(payload: &[u8]) -> [u8; 4]
    requires { length payload.now < 2 ^ 32 }
    ensures value { result ≡ big_bytes 4 (length payload.now) }
{
    let mut bytes = [0; 4];
    BigEndian::write_u32(&mut bytes, payload.len() as u32);
    bytes
}

// What stands behind the gate of a record, with a closed gate at its end.
pub fn body_of(alloc: Global, payload: &[u8]) -> Result<Vec<u8>, AllocError>
    requires { length payload.now < 2 ^ 32 }
    ensures { IfOk result (λ body. body.items ≡ tail_of payload.now) }
{
    let mut body = Vec::with_capacity(alloc, payload.len() + RECORD_OVERHEAD as usize)?;
    body.extend_from_slice(&length_bytes(payload))?;
    body.extend_from_slice(payload)?;
    body.push(CLOSED_GATE)?;
    Ok(body)
}

// Writes behind the closed gate, and then opens it.
pub fn store<D: Disk>(disk: &mut D, part: Part, len: u64, body: &[u8]) -> Result<(), DiskFault>
    requires begun { fresh_length ≤ len }
    requires some { 0 < length body.now }
    requires rests { D.is_told → HasJournal len (part_of (D.state disk.old) part) }
    ensures ok { D.is_told → OnOk result (AddsNext D.Disk disk.old disk.new part len body.now) }
    ensures memory { D.is_told → RestsAfterNoMemory D.Disk disk.old disk.new part len result }
    ensures any_moment { D.is_told → LeavesNext D.Disk disk.old disk.new part len body.now }
    ensures failed { D.is_told → StopsNext D.Disk disk.old disk.new part len body.now result }
    ensures fuse { D.is_told → Burns 4 (D.fuse disk.old) (D.fuse disk.new) result }
    ensures others { D.is_told → KeepsOthers D.Disk disk.old disk.new part }
    ensures faults { CountsFailures D.faults DiskFault.Failed disk.old disk.new result }
{
    write_through(disk, part, len, body)?;
    write_through(disk, part, len - 1, &[OPEN_GATE])
}

// Writes the header with its first byte left out, and then that byte.
pub fn write_header<D: Disk>(disk: &mut D, part: Part, limit: u64) -> Result<(), DiskFault>
    requires least { least_limit ≤ limit }
    requires greatest { limit ≤ greatest_limit }
    requires settled { D.is_told → IsSettled (part_of (D.state disk.old) part) }
    requires short { D.is_told → length (part_of (D.state disk.old) part).bytes ≤ fresh_length }
    ensures ok { D.is_told → OnOk result (IsFresh limit (part_of (D.state disk.new) part)) }
    ensures others { D.is_told → KeepsOthers D.Disk disk.old disk.new part }
    ensures any_moment { D.is_told → LeavesNothing D.Disk disk.old disk.new part }
    ensures fuse { D.is_told → Burns 4 (D.fuse disk.old) (D.fuse disk.new) result }
    ensures faults { CountsFailures D.faults DiskFault.Failed disk.old disk.new result }
{
    write_through(disk, part, 0, &header_but_one(limit))?;
    write_through(disk, part, 0, &NAME[..1])
}

// The bytes of an empty journal, with a 0 in place of the first.
fn header_but_one(limit: u64) -> [u8; HEADER_BYTES + 1]
    ensures { result ≡ 0 ∷ (drop 1 (header limit) ++ closed_gate ∷ []) }
{
    let mut bytes = [0; HEADER_BYTES + 1];
    bytes[1..HEADER_BYTES].copy_from_slice(&header_bytes(limit)[1..]);
    bytes[HEADER_BYTES] = CLOSED_GATE;
    bytes
}
