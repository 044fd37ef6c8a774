//! Disks: each call and what it leaves, what a crash leaves after it, and a disk that tells nothing.
ghost use Rattle.std.specs.Prelude.{◌≡◌, ◌≤◌, []};
ghost use Rattle.salt_disk.specs.declared.disk.Fuse.TheVariants.{Whole};
ghost use Rattle.salt_disk.specs.History.{whole};
ghost use Rattle.salt_outside.specs.Causes.{Rose};

use salt_disk::{Disk, DiskFault, MemDisk, Part, write_through};
use std::alloc::{AllocError, Global};
use std::process::Abort;

// What is said where a step that must succeed doesn't.
const FAILED: &str = "memory, or a disk that works";

// One call on a disk.
#[derive(Clone, Copy, Debug)]
enum Step {
    Len,
    Write(u64, &'static [u8]),
    Cut,
    Sync,
    // a sync, and then a write through to the disk
    Through(u64, &'static [u8]),
}

// Makes a call, if it is one that the disk takes. The number that it answers, or 0.
fn go(disk: &mut MemDisk, part: Part, step: Step) -> Result<u64, DiskFault> {
    match step {
        Step::Len => disk.len(part),
        Step::Write(at, bytes) => {
            if at > 0 && disk.len(part)? < at {
                return Err(DiskFault::Failed);
            }
            disk.write_at(part, at, bytes)?;
            Ok(0)
        }
        Step::Cut => {
            disk.cut(part)?;
            Ok(0)
        }
        Step::Sync => {
            disk.sync(part)?;
            Ok(0)
        }
        Step::Through(at, bytes) => {
            disk.sync(part)?;
            if bytes.is_empty() || disk.len(part)? < at {
                return Err(DiskFault::Failed);
            }
            write_through(disk, part, at, bytes)?;
            Ok(0)
        }
    }
}

// Each call in order, and what it answers.
fn goes(rt: &impl Abort, disk: &mut MemDisk, calls: &[(Part, Step, Result<u64, DiskFault>)]) {
    for (part, step, answer) in calls {
        assert_eq!(rt; go(disk, *part, *step), *answer, "{step:?}");
    }
}

// A read of three bytes over three sevens at each place, and what it answers.
fn reads(
    rt: &impl Abort,
    disk: &mut MemDisk,
    rows: &[(Part, u64, Result<usize, DiskFault>, &[u8])],
) {
    for (part, at, answer, bytes) in rows {
        let mut three = [7; 3];
        let read = disk.read(*part, *at, &mut three);
        assert_eq!(rt; (read, three.as_slice()), (*answer, *bytes));
    }
}

// A read of the whole part gives these bytes.
fn has(rt: &impl Abort, disk: &mut MemDisk, part: Part, bytes: &[u8]) {
    let mut into = [0; 20];
    let count = disk.read(part, 0, &mut into).expect(rt, FAILED);
    assert_eq!(rt; &into[..count], bytes);
}

static CALLS: [(Part, Step, Result<u64, DiskFault>); 5] = [
    (Part::Even, Step::Len, Ok(0)),
    (Part::Even, Step::Write(0, b"abcd"), Ok(0)),
    (Part::Even, Step::Write(3, b"xyz"), Ok(0)),
    (Part::Even, Step::Len, Ok(6)),
    (Part::Root, Step::Len, Ok(0)),
];

static READS: [(Part, u64, Result<usize, DiskFault>, &[u8]); 4] = [
    (Part::Even, 2, Ok(3), b"cxy"),
    (Part::Even, 5, Ok(1), b"z\x07\x07"),
    (Part::Even, 6, Ok(0), b"\x07\x07\x07"),
    (Part::Odd, 0, Ok(0), b"\x07\x07\x07"),
];

static CUTS: [(Part, Step, Result<u64, DiskFault>); 3] = [
    (Part::Even, Step::Sync, Ok(0)),
    (Part::Even, Step::Cut, Ok(0)),
    (Part::Even, Step::Len, Ok(0)),
];

static THROUGH: [(Part, Step, Result<u64, DiskFault>); 1] = [(
    Part::Even,
    Step::Through(1, b"!"),
    Ok(0),
)];

#[test]
fn a_disk_is_written_read_and_cut(rt: HostRuntime) {
    let mut disk = MemDisk::new(rt.alloc());
    goes(&rt, &mut disk, &CALLS);
    reads(&rt, &mut disk, &READS);
    goes(&rt, &mut disk, &CUTS);
    disk.crash(9, 2).expect(&rt, FAILED);
    has(&rt, &mut disk, Part::Even, b"\x09\x09");
    goes(&rt, &mut disk, &THROUGH);
    disk.crash(0, 0).expect(&rt, FAILED);
    has(&rt, &mut disk, Part::Even, b"\x09!");
}

// A run of calls on one part of which the first `passes` pass, a crash, and what it leaves.
#[derive(Drop)]
struct Row {
    steps: &'static [Step],
    passes: u64,
    pick: u8,
    cut: u64,
    left: &'static [u8],
}

// Each run begins with these: the part has four bytes, at rest.
const FOUR: Step = Step::Write(0, b"abcd");

static ROWS: [Row; 20] = [
    // nothing is pending
    Row {
        steps: &[FOUR, Step::Sync],
        passes: 2,
        pick: 0xff,
        cut: 1000,
        left: b"abcd",
    },
    Row {
        steps: &[FOUR, Step::Sync, Step::Write(4, b"")],
        passes: 3,
        pick: 0xff,
        cut: 1000,
        left: b"abcd",
    },
    Row {
        steps: &[FOUR, Step::Sync, Step::Write(1, b"XY"), Step::Sync],
        passes: 4,
        pick: 7,
        cut: 0,
        left: b"aXYd",
    },
    Row {
        steps: &[FOUR, Step::Sync, Step::Cut, Step::Sync],
        passes: 4,
        pick: 5,
        cut: 1000,
        left: b"",
    },
    // a write is pending
    Row {
        steps: &[FOUR],
        passes: 1,
        pick: 7,
        cut: 0,
        left: b"",
    },
    Row {
        steps: &[FOUR],
        passes: 1,
        pick: 7,
        cut: 3,
        left: &[7, 7, 7],
    },
    Row {
        steps: &[FOUR, Step::Sync, Step::Write(1, b"XY")],
        passes: 3,
        pick: 7,
        cut: 0,
        left: &[97, 7, 7, 100],
    },
    Row {
        steps: &[FOUR, Step::Sync, Step::Write(1, b"XY")],
        passes: 3,
        pick: 7,
        cut: 1000,
        left: &[97, 7, 7, 100],
    },
    Row {
        steps: &[FOUR, Step::Sync, Step::Write(2, b"XYZ")],
        passes: 3,
        pick: 1,
        cut: 0,
        left: &[97, 98, 1, 1],
    },
    Row {
        steps: &[FOUR, Step::Sync, Step::Write(2, b"XYZ")],
        passes: 3,
        pick: 1,
        cut: 1,
        left: &[97, 98, 1, 1, 1],
    },
    Row {
        steps: &[FOUR, Step::Sync, Step::Write(2, b"XYZ")],
        passes: 3,
        pick: 1,
        cut: 1000,
        left: &[97, 98, 1, 1, 1],
    },
    Row {
        steps: &[FOUR, Step::Sync, Step::Write(1, b"X"), Step::Write(3, b"Y")],
        passes: 4,
        pick: 7,
        cut: 0,
        left: &[97, 7, 99, 7],
    },
    // a cut is pending
    Row {
        steps: &[FOUR, Step::Sync, Step::Cut],
        passes: 3,
        pick: 5,
        cut: 0,
        left: b"",
    },
    Row {
        steps: &[FOUR, Step::Sync, Step::Cut],
        passes: 3,
        pick: 5,
        cut: 3,
        left: &[5, 5, 5],
    },
    Row {
        steps: &[FOUR, Step::Sync, Step::Cut],
        passes: 3,
        pick: 5,
        cut: 1000,
        left: &[5, 5, 5, 5],
    },
    Row {
        steps: &[FOUR, Step::Sync, Step::Cut, Step::Write(0, b"X")],
        passes: 4,
        pick: 5,
        cut: 2,
        left: &[5, 5],
    },
    // a call fails: the write and the cut count all the same, and the sync does nothing
    Row {
        steps: &[FOUR, Step::Sync, Step::Write(1, b"XY")],
        passes: 2,
        pick: 7,
        cut: 0,
        left: &[97, 7, 7, 100],
    },
    Row {
        steps: &[FOUR, Step::Sync, Step::Cut],
        passes: 2,
        pick: 5,
        cut: 1,
        left: &[5],
    },
    Row {
        steps: &[FOUR, Step::Sync, Step::Write(1, b"XY"), Step::Sync],
        passes: 3,
        pick: 7,
        cut: 0,
        left: &[97, 7, 7, 100],
    },
    Row {
        steps: &[FOUR, Step::Sync],
        passes: 1,
        pick: 7,
        cut: 1,
        left: &[7],
    },
];

// Each step of a run passes or fails as it should.
fn passes(rt: &impl Abort, disk: &mut MemDisk, row: &Row) {
    for (i, step) in row.steps.iter().enumerate() {
        let is_ok = go(disk, Part::Even, *step).is_ok();
        assert_eq!(rt; is_ok, (i as u64) < row.passes, "{step:?}");
    }
}

fn run(rt: &impl Abort, alloc: Global, row: &Row) {
    let mut disk = MemDisk::new(alloc);
    disk.arm(row.passes);
    passes(rt, &mut disk, row);
    disk.crash(row.pick, row.cut).expect(rt, FAILED);
    has(rt, &mut disk, Part::Even, row.left);
    has(rt, &mut disk, Part::Odd, b"");
}

#[test]
fn what_a_crash_leaves(rt: HostRuntime) {
    for row in &ROWS {
        run(&rt, rt.alloc(), row);
    }
}

static FAILING: [(Part, Step, Result<u64, DiskFault>); 6] = [
    (Part::Root, Step::Cut, Ok(0)),
    (Part::Root, Step::Len, Ok(0)),
    (Part::Odd, Step::Sync, Err(DiskFault::Failed)),
    (Part::Root, Step::Len, Err(DiskFault::Failed)),
    (Part::Root, Step::Write(0, b"a"), Err(DiskFault::Failed)),
    (Part::Root, Step::Cut, Err(DiskFault::Failed)),
];

static FAILING_READ: [(Part, u64, Result<usize, DiskFault>, &[u8]); 1] = [(
    Part::Root,
    0,
    Err(DiskFault::Failed),
    b"\x07\x07\x07",
)];

static AFTER_THE_CRASH: [(Part, Step, Result<u64, DiskFault>); 1] = [(
    Part::Odd,
    Step::Sync,
    Ok(0),
)];

#[test]
fn from_a_failed_call_on_every_call_fails(rt: HostRuntime) {
    let mut disk = MemDisk::new(rt.alloc());
    disk.arm(1);
    goes(&rt, &mut disk, &FAILING);
    reads(&rt, &mut disk, &FAILING_READ);
    disk.crash(0, 0).expect(&rt, FAILED);
    goes(&rt, &mut disk, &AFTER_THE_CRASH);
}

// A disk that tells nothing, as one over real files does, and on which each call fails.
#[derive(Drop)]
struct Broken {
    faults: u64,
}

impl Broken {
    fn failed(&mut self) -> DiskFault
        ensures value { result ≡ DiskFault.Failed }
        ensures later { self.old.faults ≤ self.new.faults }
        ensures rose { Rose self.old.faults self.new.faults }
    {
        self.faults = self.faults.saturating_add(1);
        DiskFault::Failed
    }
}

impl Disk for Broken {
    ghost is_told = { ⊥ };

    ghost state = { λ d. whole [] [] [] };

    ghost past = { λ d. [] };

    ghost fuse = { λ d. Whole };

    ghost faults = { λ d. d.faults };

    ghost honest = { λ d told. absurd told };

    fn len(&mut self, _part: Part) -> Result<u64, DiskFault> {
        Err(self.failed())
    }

    fn read(&mut self, _part: Part, _at: u64, _into: &mut [u8]) -> Result<usize, DiskFault> {
        Err(self.failed())
    }

    fn write_at(&mut self, _part: Part, _at: u64, _bytes: &[u8]) -> Result<(), DiskFault> {
        Err(self.failed())
    }

    fn cut(&mut self, _part: Part) -> Result<(), DiskFault> {
        Err(self.failed())
    }

    fn sync(&mut self, _part: Part) -> Result<(), DiskFault> {
        Err(self.failed())
    }
}

fn broken_through(disk: &mut Broken) -> Result<(), DiskFault> {
    write_through(disk, Part::Root, 5, b"a")
}

fn counts_one(rt: &impl Abort, disk: &Broken, answer: Result<(), DiskFault>) {
    assert_eq!(rt; (answer, disk.faults), (Err(DiskFault::Failed), 1));
}

#[test]
fn a_disk_that_tells_nothing(rt: HostRuntime) {
    let mut disk = Broken { faults: 0 };
    let answer = broken_through(&mut disk);
    counts_one(&rt, &disk, answer);
}

static TEXTS: [(DiskFault, &str); 2] = [
    (DiskFault::NoMemory, "no memory was found"),
    (DiskFault::Failed, "the disk failed"),
];

fn says(rt: &impl Abort, said: &str, text: &str) {
    assert_eq!(rt; said, text);
}

#[test]
fn faults_have_texts(rt: HostRuntime) {
    for (fault, text) in &TEXTS {
        let said = fault.to_string(rt.alloc()).expect(&rt, FAILED);
        says(&rt, said.as_str(), text);
    }
}

#[test]
fn a_refused_growth_is_want_of_memory(rt: HostRuntime) {
    assert_eq!(rt; DiskFault::from(AllocError), DiskFault::NoMemory);
}
