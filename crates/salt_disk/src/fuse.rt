//! When the calls of a disk in memory fail.
ghost use Rattle.std.specs.Prelude.{◌≡◌, ◌≤◌, OnOk, IsErrOf};
ghost use Rattle.salt_outside.specs.Causes.{next_count, CountsFailures};
ghost use Rattle.salt_disk.specs.Fuse.{Burns, Lasts};

use crate::{DiskFault, Fuse};

#[derive(Drop)]
pub struct Faults {
    pub fuse: Fuse,
    pub count: u64,
}

impl Faults {
    /// A call that changes nothing: it fails where the fuse is out.
    pub fn pass(&mut self) -> Result<(), DiskFault>
        ensures ok { OnOk result (self.new ≡ self.old) }
        ensures fuse { Lasts self.old.fuse self.new.fuse result }
        ensures faults { CountsFailures (λ f. f.count) DiskFault.Failed self.old self.new result }
        ensures memory { IsErrOf result DiskFault.NoMemory → ⊥ }
    {
        match self.fuse {
            Fuse::Out => Err(self.failed()),
            _ => Ok(()),
        }
    }

    /// A changing call: it burns the fuse by one, and fails where there is nothing left of it.
    pub fn burn(&mut self) -> Result<(), DiskFault>
        ensures fuse { Burns 1 self.old.fuse self.new.fuse result }
        ensures faults { CountsFailures (λ f. f.count) DiskFault.Failed self.old self.new result }
        ensures memory { IsErrOf result DiskFault.NoMemory → ⊥ }
    {
        match self.fuse {
            Fuse::Whole => Ok(()),
            Fuse::Armed(left) if left > 0 => {
                self.fuse = Fuse::Armed(left - 1);
                Ok(())
            }
            _ => {
                self.fuse = Fuse::Out;
                Err(self.failed())
            }
        }
    }

    fn failed(&mut self) -> DiskFault
        ensures value { result ≡ DiskFault.Failed }
        ensures later { self.old.count ≤ self.new.count }
        ensures count { self.new.count ≡ next_count self.old.count }
        ensures fuse { self.new.fuse ≡ self.old.fuse }
    {
        self.count = self.count.saturating_add(1);
        DiskFault::Failed
    }
}
