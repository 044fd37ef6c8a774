//! Disks in memory, one for each node of a network.
ghost use Rattle.std.specs.Prelude.{◌≡◌, [], OnOk, OnErr, IfOk};
ghost use Rattle.std.specs.Borrow.{sem};
ghost use Rattle.salt_disk.specs.Told.{fresh_disks, IsDiskAt, AreFresh};
ghost use Rattle.salt_disk.specs.Stage.{LendsDisk};

use crate::{Disk, MemDisk};
use std::alloc::{AllocError, Global};
use std::marker::Model;

/// A disk in memory for each node, counted from 0. Contracts see what each of them tells.
#[derive(Drop)]
pub struct MemStage {
    disks: Vec<MemDisk>,
}

impl Model for MemStage {
    ghost use Rattle.std.specs.Prelude.{List, map};
    ghost use Rattle.salt_disk.specs.Told.{DiskTold, told_by};

    ghost Value = { List DiskTold };

    ghost view = { λ s. map (told_by ⟦<MemDisk as Disk>⟧) s.disks.items };
}

impl MemStage {
    /// A stage without a disk. It takes no memory.
    pub fn new(alloc: Global) -> MemStage
        ensures { result ≡ [] }
    {
        MemStage {
            disks: Vec::new(alloc),
        }
    }

    /// Puts so many empty disks in the place of those that are there, each with a whole fuse and no fault. After an
    /// error all is as before.
    pub fn reset(&mut self, alloc: Global, count: usize) -> Result<(), AllocError>
        ensures ok { OnOk result (self.new ≡ fresh_disks count) }
        ensures err { OnErr result (self.new ≡ self.old) }
    {
        self.disks = empty_disks(alloc, count)?;
        Ok(())
    }

    /// Lends the disk of node `n`; None exactly where there is none. Whatever is done to it, the other disks stay.
    pub fn disk(&mut self, n: usize) -> Option<&mut MemDisk>
        ensures* stage { sem 𝓛 (LendsDisk ⟦<MemDisk as Disk>⟧ self.entry n result) }
        ensures value { IsDiskAt ⟦<MemDisk as Disk>⟧ self.old n result }
    {
        self.disks.get_mut(n)
    }
}

// So many empty disks.
fn empty_disks(alloc: Global, count: usize) -> Result<Vec<MemDisk>, AllocError>
    ensures ok { IfOk result (λ disks. AreFresh ⟦<MemDisk as Disk>⟧ disks.items count) }
{
    let mut disks = Vec::new(alloc);
    for _ in 0..count {
        disks.push(MemDisk::new(alloc))?;
    }
    Ok(disks)
}
