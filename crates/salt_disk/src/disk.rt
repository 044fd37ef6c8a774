//! A disk of three files: the trait, its parts and its faults.
ghost use Rattle.std.specs.Prelude.{◌≡◌, ◌≤◌, List, ℕ, [], length, IfOk, OnOk, OnErr, IsErrOf};
ghost use Rattle.salt_disk.specs.declared.disk.DiskFault.TheVariants.{NoMemory};
ghost use Rattle.salt_disk.specs.Disk.{DiskState, part_of, IsEmptied, Changes, Settles, Stays, IsHonest, ReadsAt, PutsAt, WritesAt};
ghost use Rattle.salt_disk.specs.Crash.{TakesTime, StandsStillWhereSame};
ghost use Rattle.salt_outside.specs.Causes.{CountsFailures};
ghost use Rattle.salt_disk.specs.declared.disk.Fuse.{Fuse};
ghost use Rattle.salt_disk.specs.Fuse.{Burns, Lasts};

use std::alloc::AllocError;
use thiserror::Error;

/// One of the three files of a disk.
#[derive(Clone, Copy, Debug, PartialEq, Eq)]
pub enum Part {
    Root,
    Even,
    Odd,
}

/// Why a call on a disk was refused.
#[derive(Clone, Copy, Debug, Error, PartialEq, Eq)]
pub enum DiskFault {
    /// Nothing was changed.
    #[error("no memory was found")]
    NoMemory,
    /// The disk's count of faults rose in this call.
    #[error("the disk failed")]
    Failed,
}

impl From<AllocError> for DiskFault {
    ghost from_gives = { λ _ e. e ≡ NoMemory };

    fn from(_: AllocError) -> Self {
        DiskFault::NoMemory
    }
}

/// Which calls of a told disk fail: none, the one after so many changing calls and all after it, or all.
#[derive(Clone, Copy, Debug, PartialEq, Eq)]
pub enum Fuse {
    Whole,
    Armed(u64),
    Out,
}

/// The places of a part from `start` on and before `end`, in bytes from its beginning.
#[derive(Clone, Copy, Debug, PartialEq, Eq)]
pub struct Range {
    pub start: u64,
    pub end: u64,
}

/// One device with three files, each of them bytes from place 0 on.
///
/// A disk may lose power at any moment. Between two syncs of a part, each range that was written may hold
/// any bytes after that, also where the write failed. The part past the least length since the last sync
/// may hold any bytes, and the length may be any number from the least to the greatest length since that
/// sync. Bytes outside stay. After a sync that succeeds, a crash leaves what a read gives.
pub trait Disk {
    /// Whether this kind of disk tells what it holds. Clauses on content hold where it does.
    ghost is_told: { Type 0 };

    /// What the disk tells now. From it follows what a crash now may leave.
    ghost state: { Self → DiskState };

    /// For each earlier moment, the first one first, a state in which a crash leaves what it might have left then.
    /// The length of this list is the time.
    ghost past: { Self → List DiskState };

    /// Which of the next calls fail.
    ghost fuse: { Self → Fuse };

    /// How often a call has failed.
    ghost faults: { Self → ℕ };

    /// The number of bytes of the part. A disk that answers it is as it was, whether it tells what it holds or not.
    fn len(&mut self, part: Part) -> Result<u64, DiskFault>
        ensures ok { is_told → IfOk result (λ n. n ≡ length (part_of (state self.old) part).bytes) }
        ensures disk { OnOk result (self.new ≡ self.old) }
        ensures same { is_told → Stays past state self.old self.new }
        ensures memory { IsErrOf result NoMemory → ⊥ }
        ensures fuse { is_told → Lasts (fuse self.old) (fuse self.new) result }
        ensures faults { CountsFailures faults DiskFault.Failed self.old self.new result };

    /// Reads the bytes that are there from the place `at` on, as far as `into` goes, and answers their number.
    /// After an error `into` may hold anything.
    fn read(&mut self, part: Part, at: u64, into: &mut [u8]) -> Result<usize, DiskFault>
        ensures room { IfOk result (λ n. n ≤ length into.old) }
        ensures ok { is_told → ReadsAt (state self.old) part at into.old into.new result }
        ensures same { is_told → Stays past state self.old self.new }
        ensures memory { IsErrOf result NoMemory → ⊥ }
        ensures fuse { is_told → Lasts (fuse self.old) (fuse self.new) result }
        ensures faults { CountsFailures faults DiskFault.Failed self.old self.new result };

    /// Writes these bytes at the place `at`, over what is there and past the end. After `Failed` the range
    /// may hold anything; after `NoMemory` nothing was changed.
    fn write_at(&mut self, part: Part, at: u64, bytes: &[u8]) -> Result<(), DiskFault>
        requires { is_told → at ≤ length (part_of (state self.old) part).bytes }
        ensures ok { is_told → PutsAt state self.old self.new part at bytes.now result }
        ensures crash { is_told → WritesAt past state self.old self.new part at bytes.now result }
        ensures time { is_told → TakesTime past state self.old self.new }
        ensures fuse { is_told → Burns 1 (fuse self.old) (fuse self.new) result }
        ensures memory { is_told → IsErrOf result NoMemory → fuse self.new ≡ fuse self.old }
        ensures faults { CountsFailures faults DiskFault.Failed self.old self.new result };

    /// Makes the part empty. After `Failed` a crash may leave it empty or as it was.
    fn cut(&mut self, part: Part) -> Result<(), DiskFault>
        ensures ok { is_told → OnOk result ((part_of (state self.new) part).bytes ≡ []) }
        ensures crash { is_told → Changes part IsEmptied (state self.old) (state self.new) }
        ensures time { is_told → TakesTime past state self.old self.new }
        ensures still { is_told → StandsStillWhereSame past state self.old self.new }
        ensures memory { IsErrOf result NoMemory → ⊥ }
        ensures fuse { is_told → Burns 1 (fuse self.old) (fuse self.new) result }
        ensures faults { CountsFailures faults DiskFault.Failed self.old self.new result };

    /// Brings the part to rest: after it, a crash leaves what a read gives. After `Failed` all is as it was.
    fn sync(&mut self, part: Part) -> Result<(), DiskFault>
        ensures ok { is_told → OnOk result (Settles part (state self.old) (state self.new)) }
        ensures err { is_told → OnErr result (Stays past state self.old self.new) }
        ensures time { is_told → TakesTime past state self.old self.new }
        ensures still { is_told → StandsStillWhereSame past state self.old self.new }
        ensures memory { IsErrOf result NoMemory → ⊥ }
        ensures fuse { is_told → Burns 1 (fuse self.old) (fuse self.new) result }
        ensures faults { CountsFailures faults DiskFault.Failed self.old self.new result };

    /// A disk as it reads is one of its own images.
    ghost honest: { (disk : Self) → is_told → IsHonest (state disk) };
}
