//! Stages of disks: each call, and that the other disks stay.
ghost use Rattle.std.specs.Prelude.{◌≡◌, ◌≢◌, ℕ, slice_get};

use salt_disk::{Disk, DiskFault, MemStage, Part};
use std::process::Abort;

// What is said where a step that must succeed doesn't.
const FAILED: &str = "memory, or a disk that works";

// Any call that is generic over the disk.
fn write<D: Disk>(disk: &mut D, bytes: &[u8]) -> Result<(), DiskFault> {
    disk.write_at(Part::Even, 0, bytes)
}

// Writes on the disk of node `n`, where there is one: the other disks stay.
fn write_on(stage: &mut MemStage, n: usize, bytes: &[u8]) -> Option<Result<(), DiskFault>>
    ensures others { (j : ℕ) → j ≢ n → slice_get stage.new j ≡ slice_get stage.old j }
{
    match stage.disk(n) {
        Some(disk) => Some(write(disk, bytes)),
        None => None,
    }
}

// The number of bytes on the disk of node `n`, None where there is none.
fn len_on(stage: &mut MemStage, n: usize) -> Option<Result<u64, DiskFault>> {
    match stage.disk(n) {
        Some(disk) => Some(disk.len(Part::Even)),
        None => None,
    }
}

// The number of bytes on the disk of each node.
fn has(rt: &impl Abort, stage: &mut MemStage, lens: &[Option<Result<u64, DiskFault>>]) {
    for (n, len) in lens.iter().enumerate() {
        assert_eq!(rt; len_on(stage, n), *len);
    }
}

fn writes(
    rt: &impl Abort,
    stage: &mut MemStage,
    n: usize,
    bytes: &[u8],
    answer: Option<Result<(), DiskFault>>,
) {
    assert_eq!(rt; write_on(stage, n, bytes), answer);
}

static NO_DISK: [Option<Result<u64, DiskFault>>; 2] = [None, None];

static EMPTY: [Option<Result<u64, DiskFault>>; 4] = [Some(Ok(0)), Some(Ok(0)), Some(Ok(0)), None];

static WRITTEN: [Option<Result<u64, DiskFault>>; 4] = [Some(Ok(0)), Some(Ok(2)), Some(Ok(3)), None];

#[test]
fn a_stage_lends_its_disks(rt: HostRuntime) {
    let mut stage = MemStage::new(rt.alloc());
    has(&rt, &mut stage, &NO_DISK);
    stage.reset(rt.alloc(), 3).expect(&rt, FAILED);
    has(&rt, &mut stage, &EMPTY);
    writes(&rt, &mut stage, 1, b"ab", Some(Ok(())));
    writes(&rt, &mut stage, 2, b"abc", Some(Ok(())));
    writes(&rt, &mut stage, 3, b"abcd", None);
    has(&rt, &mut stage, &WRITTEN);
    stage.reset(rt.alloc(), 3).expect(&rt, FAILED);
    has(&rt, &mut stage, &EMPTY);
}
