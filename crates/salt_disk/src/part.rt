//! The three parts of a disk in memory.
ghost use Rattle.std.specs.Prelude.{◌≡◌, ◌≤◌, ◌<◌, ◌+◌, ◌^◌, ◌++◌, length, OnOk, OnErr, IfOk, slice_get, vec_len, vec_capacity};
ghost use Rattle.std.specs.Option.{ForSome};
ghost use Rattle.salt_disk.specs.Disk.{part_of, settled_part, put, ranges_of, IsReadAt};
ghost use Rattle.salt_disk.specs.Crash.{IsBlotted, IsRangeBlotted};
ghost use Rattle.salt_disk.specs.History.{wrote, after_cut, is_calm};

use crate::{Part, Range};
use std::alloc::{AllocError, Global};

/// One file of a disk in memory.
#[derive(Drop)]
pub struct MemPart {
    pub bytes: Vec<u8>,
    pub unsure: Vec<Range>,
    pub least: u64,
    pub greatest: u64,
    pub ghost no_more: { least ≤ length bytes.items },
    pub ghost no_less: { length bytes.items ≤ greatest },
    // where a write is pending, its range has a place
    pub ghost pending: { ForSome (slice_get unsure.items 0) (λ range. (range.start < range.end) × (range.end ≤ greatest)) },
}

/// The three files of a disk in memory.
#[derive(Drop)]
pub struct Parts {
    pub root: MemPart,
    pub even: MemPart,
    pub odd: MemPart,
}

impl MemPart {
    ghost use Rattle.salt_disk.specs.Memory.{part_state, IsPicked};

    pub fn write(&mut self, at: u64, bytes: &[u8]) -> Result<(), AllocError>
        requires { at ≤ length self.old.bytes.items }
        ensures ok { OnOk result (part_state self.new ≡ wrote (part_state self.old) at bytes.now) }
        ensures err { OnErr result (part_state self.new ≡ part_state self.old) }
    {
        let end = at + bytes.len() as u64;
        self.unsure.reserve(1)?;
        put_bytes(&mut self.bytes, at as usize, bytes)?;
        note_range(&mut self.unsure, at, bytes);
        self.greatest = self.greatest.max(end);
        Ok(())
    }

    /// What a crash leaves: the unsure bytes are all `pick`, and the length goes so far past the least one.
    pub fn image(&self, alloc: Global, pick: u8, cut: u64) -> Result<Vec<u8>, AllocError>
        ensures { IfOk result (λ image. IsPicked pick cut (part_state self.now) image.items) }
    {
        let len = self.least + cut.min(self.greatest - self.least);
        let mut image = Vec::from_slice(alloc, &self.bytes[..self.least as usize])?;
        blot_ranges(&mut image, &self.unsure, pick);
        image.resize(len as usize, pick)?;
        Ok(image)
    }

    pub fn is_calm(&self) -> bool
        ensures { result ≡ is_calm (part_state self.now) }
    {
        self.unsure.is_empty() && self.least == self.greatest
    }

    pub fn cut(&mut self)
        ensures { part_state self.new ≡ after_cut (part_state self.old) }
    {
        self.bytes.clear();
        self.least = 0;
    }

    pub fn sync(&mut self)
        ensures { part_state self.new ≡ settled_part (part_state self.old).bytes }
    {
        self.unsure.clear();
        self.least = self.bytes.len() as u64;
        self.greatest = self.least;
    }

    pub fn read(&self, at: u64, into: &mut [u8]) -> usize
        ensures { IsReadAt self.now.bytes.items at into.old into.new result }
    {
        if at >= self.bytes.len() as u64 {
            return 0;
        }
        let there = &self.bytes[at as usize..];
        let count = there.len().min(into.len());
        into[..count].copy_from_slice(&there[..count]);
        count
    }
}

impl Parts {
    ghost use Rattle.salt_disk.specs.Memory.{part_state, parts_state};
    ghost use Rattle.salt_disk.specs.Steps.{WritesPart, CutsPart, SettlesPart};

    pub fn write(&mut self, part: Part, at: u64, bytes: &[u8]) -> Result<(), AllocError>
        requires { at ≤ length (part_of (parts_state self.old) part).bytes }
        ensures ok { OnOk result (WritesPart part at bytes.now self.old self.new) }
        ensures err { OnErr result (parts_state self.new ≡ parts_state self.old) }
    {
        match part {
            Part::Root => self.root.write(at, bytes),
            Part::Even => self.even.write(at, bytes),
            Part::Odd => self.odd.write(at, bytes),
        }
    }

    pub fn cut(&mut self, part: Part)
        ensures { CutsPart part self.old self.new }
    {
        match part {
            Part::Root => self.root.cut(),
            Part::Even => self.even.cut(),
            Part::Odd => self.odd.cut(),
        }
    }

    pub fn sync(&mut self, part: Part)
        ensures { SettlesPart part self.old self.new }
    {
        match part {
            Part::Root => self.root.sync(),
            Part::Even => self.even.sync(),
            Part::Odd => self.odd.sync(),
        }
    }

    pub fn len(&self, part: Part) -> u64
        ensures { result ≡ length (part_of (parts_state self.now) part).bytes }
    {
        match part {
            Part::Root => self.root.bytes.len() as u64,
            Part::Even => self.even.bytes.len() as u64,
            Part::Odd => self.odd.bytes.len() as u64,
        }
    }

    pub fn least(&self, part: Part) -> u64
        ensures { result ≡ (part_of (parts_state self.now) part).least }
    {
        match part {
            Part::Root => self.root.least,
            Part::Even => self.even.least,
            Part::Odd => self.odd.least,
        }
    }

    pub fn read(&self, part: Part, at: u64, into: &mut [u8]) -> usize
        ensures { IsReadAt (part_of (parts_state self.now) part).bytes at into.old into.new result }
    {
        match part {
            Part::Root => self.root.read(at, into),
            Part::Even => self.even.read(at, into),
            Part::Odd => self.odd.read(at, into),
        }
    }

    pub fn is_calm(&self, part: Part) -> bool
        ensures { result ≡ is_calm (part_of (parts_state self.now) part) }
    {
        match part {
            Part::Root => self.root.is_calm(),
            Part::Even => self.even.is_calm(),
            Part::Odd => self.odd.is_calm(),
        }
    }
}

// Puts these bytes at this place, in the place of what is there.
fn put_bytes(bytes: &mut Vec<u8>, at: usize, new: &[u8]) -> Result<(), AllocError>
    requires { at ≤ length bytes.old.items }
    ensures ok { OnOk result (bytes.new.items ≡ put at new.now bytes.old.items) }
    ensures err { OnErr result (bytes.new.items ≡ bytes.old.items) }
{
    let inside = new.len().min(bytes.len() - at);
    bytes.extend_from_slice(&new[inside..])?;
    bytes[at..at + inside].copy_from_slice(&new[..inside]);
    Ok(())
}

// Notes the range of a write, where it has a place.
fn note_range(unsure: &mut Vec<Range>, at: u64, bytes: &[u8])
    requires fits { at + length bytes.now < 2 ^ 64 }
    requires room { vec_len unsure.old < vec_capacity unsure.old }
    ensures { unsure.new.items ≡ unsure.old.items ++ ranges_of at bytes.now }
{
    if !bytes.is_empty() {
        unsure.push_reserved(Range {
            start: at,
            end: at + bytes.len() as u64,
        });
    }
}

// Puts `pick` at each place of the image that lies in one of the ranges.
fn blot_ranges(image: &mut [u8], ranges: &[Range], pick: u8)
    ensures { IsBlotted pick ranges.now image.old image.new }
{
    for range in ranges {
        blot_range(image, range, pick);
    }
}

// Puts `pick` at each place of the image that lies in this range.
fn blot_range(image: &mut [u8], range: &Range, pick: u8)
    ensures { IsRangeBlotted pick range.now image.old image.new }
{
    let end = image.len().min(range.end as usize);
    for place in range.start as usize..end {
        image[place] = pick;
    }
}
