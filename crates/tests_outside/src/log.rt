//! Logs: each call and what it leaves, what a crash leaves of an append and of a create, and where a log is damaged.
use crate::journal::Steady;
use checkpoint_log::{LoadedContent, Log};
use gate_journal::{AppendFault, CreateFault, LoadFault, Payload};
use salt_disk::{Disk, MemDisk, Part};
use std::alloc::Global;
use std::process::Abort;

// What is said where a step that must succeed doesn't.
const FAILED: &str = "memory, or a disk that works";

const NONE: Result<usize, LoadFault> = Err(LoadFault::NotAJournal);

const ROOT_16: Result<usize, LoadFault> = Err(LoadFault::Damaged {
    part: Part::Root,
    at: 16,
});

const ROOT_23: Result<usize, LoadFault> = Err(LoadFault::Damaged {
    part: Part::Root,
    at: 23,
});

const EVEN_16: Result<usize, LoadFault> = Err(LoadFault::Damaged {
    part: Part::Even,
    at: 16,
});

const EVEN_23: Result<usize, LoadFault> = Err(LoadFault::Damaged {
    part: Part::Even,
    at: 23,
});

// How many payloads a load finds.
fn found(alloc: Global, disk: &mut MemDisk) -> Result<usize, LoadFault> {
    match Log::load(alloc, disk) {
        Ok((_log, content)) => Ok(content.rest.len()),
        Err(fault) => Err(fault),
    }
}

// A load finds so many payloads.
fn finds(rt: &impl Abort, alloc: Global, disk: &mut MemDisk, count: Result<usize, LoadFault>) {
    assert_eq!(rt; found(alloc, disk), count);
}

// A read of the whole part gives these bytes.
fn has(rt: &impl Abort, disk: &mut MemDisk, part: Part, bytes: &[u8]) {
    let mut into = [0; 100];
    let count = disk.read(part, 0, &mut into).expect(rt, FAILED);
    assert_eq!(rt; &into[..count], bytes);
}

// A disk with an empty log of 64 bytes.
fn fresh(rt: &impl Abort, alloc: Global) -> MemDisk {
    let mut disk = MemDisk::new(alloc);
    Log::create(&mut disk, 64).expect(rt, FAILED);
    disk
}

// Loads the log and adds a payload: the length that it has then.
fn add(alloc: Global, disk: &mut MemDisk, payload: &[u8]) -> Result<u64, AppendFault> {
    match Log::load(alloc, disk) {
        Ok((mut log, _content)) => match log.append(alloc, disk, payload) {
            Ok(()) => Ok(log.length()),
            Err(fault) => Err(fault),
        },
        Err(_) => Err(AppendFault::Disk),
    }
}

fn is_up(rt: &impl Abort, log: &Log, length: u64) {
    assert_eq!(rt;
        (log.part(), log.length(), log.is_down()),
        (Part::Even, length, false)
    );
}

static PAYLOADS: [(&[u8], Option<u64>); 2] = [(b"ab", Some(16)), (b"c", Some(23))];

fn holds(rt: &impl Abort, content: &LoadedContent, rows: &[(&[u8], Option<u64>)]) {
    let base = content.base.as_ref().map(Payload::as_slice);
    assert_eq!(rt; (base, content.rest.len()), (None, rows.len()));
    for (i, (payload, (bytes, place))) in content
        .rest
        .as_slice()
        .iter()
        .zip(rows.iter())
        .enumerate()
    {
        assert_eq!(rt;
            (payload.as_slice(), content.rest.place(i)),
            (*bytes, *place)
        );
    }
}

#[test]
fn a_log_is_made_added_to_and_loaded(rt: HostRuntime) {
    let alloc = rt.alloc();
    let mut disk = fresh(&rt, alloc);
    has(&rt, &mut disk, Part::Root, b"SALTJNL1\0\0\0\0\0\0\0@\0");
    has(&rt, &mut disk, Part::Even, b"SALTJNL1\0\0\0\0\0\0\0@\0");
    has(&rt, &mut disk, Part::Odd, b"");
    add(alloc, &mut disk, b"ab").expect(&rt, FAILED);
    add(alloc, &mut disk, b"c").expect(&rt, FAILED);
    let (log, content) = Log::load(alloc, &mut disk).expect(&rt, FAILED);
    is_up(&rt, &log, 30);
    holds(&rt, &content, &PAYLOADS);
    has(&rt, &mut disk, Part::Root, b"SALTJNL1\0\0\0\0\0\0\0@\0");
}

// The longest payloads that fit, of a limit of 64 bytes.
static FULL: [(usize, Result<u64, AppendFault>); 4] = [
    (10, Ok(32)),
    (
        28,
        Err(AppendFault::Full {
            length: 65,
            limit: 64,
        }),
    ),
    (27, Ok(64)),
    (
        0,
        Err(AppendFault::Full {
            length: 69,
            limit: 64,
        }),
    ),
];

fn fills(rt: &impl Abort, alloc: Global, disk: &mut MemDisk) {
    let sevens = [7; 28];
    for (count, length) in &FULL {
        let payload = &sevens[..sevens.len().min(*count)];
        assert_eq!(rt; add(alloc, disk, payload), *length);
    }
}

#[test]
fn a_full_log(rt: HostRuntime) {
    let mut disk = fresh(&rt, rt.alloc());
    fills(&rt, rt.alloc(), &mut disk);
    finds(&rt, rt.alloc(), &mut disk, Ok(2));
}

// How far past its least length a crash leaves a part.
static CUTS: [u64; 3] = [0, 1, 1000];

// A second payload is added: how many changing calls pass, the byte that the crash picks, and how many payloads a load
// then finds, whatever the cut.
static APPENDS: [(u64, u8, usize); 15] = [
    (0, 0x00, 1),
    (0, 0x01, 1),
    (0, 0xff, 1),
    (1, 0x00, 1),
    (1, 0x01, 1),
    (1, 0xff, 1),
    (2, 0x00, 1),
    (2, 0x01, 2),
    (2, 0xff, 1),
    (3, 0x00, 1),
    (3, 0x01, 2),
    (3, 0xff, 1),
    (4, 0x00, 2),
    (4, 0x01, 2),
    (4, 0xff, 2),
];

fn is_added(
    rt: &impl Abort,
    answer: Result<(), AppendFault>,
    is_down: bool,
    wanted: Result<(), AppendFault>,
) {
    assert_eq!(rt; (answer, is_down), (wanted, wanted.is_err()));
}

fn append(rt: &impl Abort, alloc: Global, passes: u64, pick: u8, cut: u64) -> MemDisk {
    let mut disk = fresh(rt, alloc);
    add(alloc, &mut disk, b"ab").expect(rt, FAILED);
    let (mut log, _content) = Log::load(alloc, &mut disk).expect(rt, FAILED);
    disk.arm(passes);
    let answer = log.append(alloc, &mut disk, b"c");
    let wanted = if passes == 4 {
        Ok(())
    } else {
        Err(AppendFault::Disk)
    };
    is_added(rt, answer, log.is_down(), wanted);
    disk.crash(pick, cut).expect(rt, FAILED);
    disk
}

#[test]
fn what_a_crash_leaves_of_an_append(rt: HostRuntime) {
    let alloc = rt.alloc();
    for (passes, pick, count) in &APPENDS {
        for cut in &CUTS {
            let mut disk = append(&rt, alloc, *passes, *pick, *cut);
            finds(&rt, alloc, &mut disk, Ok(*count));
        }
    }
}

fn stopped(rt: &impl Abort, alloc: Global) -> MemDisk {
    let mut disk = fresh(rt, alloc);
    let (mut log, _content) = Log::load(alloc, &mut disk).expect(rt, FAILED);
    disk.arm(1);
    let answer = log.append(alloc, &mut disk, b"ab");
    is_added(rt, answer, log.is_down(), Err(AppendFault::Disk));
    if !log.is_down() {
        panic!(rt; "the log is up");
    }
    let again = log.append(alloc, &mut disk, b"ab");
    is_added(rt, again, log.is_down(), Err(AppendFault::Down));
    disk
}

#[test]
fn a_log_is_down_until_it_is_loaded_again(rt: HostRuntime) {
    let alloc = rt.alloc();
    let mut disk = stopped(&rt, alloc);
    finds(&rt, alloc, &mut disk, Err(LoadFault::Disk));
    disk.crash(1, 1000).expect(&rt, FAILED);
    finds(&rt, alloc, &mut disk, Ok(0));
}

fn is_created(rt: &impl Abort, answer: Result<(), CreateFault>, wanted: Result<(), CreateFault>) {
    assert_eq!(rt; answer, wanted);
}

// A log of 64 bytes is made: how many changing calls pass, the byte that the crash picks, and how many payloads a load
// then finds, whatever the cut. The byte 0x53 begins the name of the format.
static CREATES: [(u64, u8, Result<usize, LoadFault>); 11] = [
    (0, 0x00, NONE),
    (1, 0x53, NONE),
    (2, 0x53, NONE),
    (3, 0x53, NONE),
    (4, 0x53, NONE),
    (5, 0xff, NONE),
    (6, 0x00, NONE),
    (6, 0x53, Ok(0)),
    (7, 0x00, NONE),
    (7, 0x53, Ok(0)),
    (8, 0xff, Ok(0)),
];

fn create(rt: &impl Abort, alloc: Global, passes: u64, pick: u8, cut: u64) -> MemDisk {
    let mut disk = MemDisk::new(alloc);
    disk.arm(passes);
    let answer = Log::create(&mut disk, 64);
    let wanted = if passes == 8 {
        Ok(())
    } else {
        Err(CreateFault::Disk)
    };
    is_created(rt, answer, wanted);
    disk.crash(pick, cut).expect(rt, FAILED);
    disk
}

// A crash, and then a create.
fn create_after(disk: &mut MemDisk) -> Result<(), CreateFault> {
    match disk.crash(0, 0) {
        Ok(()) => Log::create(disk, 64),
        Err(_) => Err(CreateFault::NoMemory),
    }
}

#[test]
fn what_a_crash_leaves_of_a_create(rt: HostRuntime) {
    let alloc = rt.alloc();
    for (passes, pick, count) in &CREATES {
        for cut in &CUTS {
            let mut disk = create(&rt, alloc, *passes, *pick, *cut);
            finds(&rt, alloc, &mut disk, *count);
            is_created(&rt, create_after(&mut disk), Ok(()));
            finds(&rt, alloc, &mut disk, Ok(0));
        }
    }
}

// A disk whose parts have these bytes, all at rest.
fn filled(rt: &impl Abort, alloc: Global, root: &[u8], even: &[u8], odd: &[u8]) -> MemDisk {
    let mut disk = MemDisk::new(alloc);
    disk.write_at(Part::Root, 0, root).expect(rt, FAILED);
    disk.write_at(Part::Even, 0, even).expect(rt, FAILED);
    disk.write_at(Part::Odd, 0, odd).expect(rt, FAILED);
    disk.sync(Part::Root).expect(rt, FAILED);
    disk.sync(Part::Even).expect(rt, FAILED);
    disk.sync(Part::Odd).expect(rt, FAILED);
    disk
}

const SHORT: &[u8] = b"seventeen bytes 7";

const LONG: &[u8] = b"eighteen bytes, 18";

const LONGER: &[u8] = b"these are nineteen.";

const LONG_18: Result<(), CreateFault> = Err(CreateFault::NotEmpty { length: 18 });

const LONG_19: Result<(), CreateFault> = Err(CreateFault::NotEmpty { length: 19 });

// The bytes of the root, of `Even` and of `Odd`, and what a create answers.
static FILLED: [(&[u8], &[u8], &[u8], Result<(), CreateFault>); 4] = [
    (SHORT, SHORT, LONG, Ok(())),
    (SHORT, LONG, b"", LONG_18),
    (LONG, SHORT, b"", LONG_18),
    (LONG, LONGER, b"", LONG_19),
];

#[test]
fn parts_that_are_not_empty(rt: HostRuntime) {
    for (root, even, odd, answer) in &FILLED {
        let mut disk = filled(&rt, rt.alloc(), root, even, odd);
        is_created(&rt, create_after(&mut disk), *answer);
        has(&rt, &mut disk, Part::Odd, odd);
    }
}

const EMPTY: &[u8] = b"SALTJNL1\0\0\0\0\0\0\0@\0";

const ONE: &[u8] = b"SALTJNL1\0\0\0\0\0\0\0@\x01\0\0\0\x02ab\0";

const BROKEN_16: &[u8] = b"SALTJNL1\0\0\0\0\0\0\0@\x01\0\0\0\x02ab";

const BROKEN_23: &[u8] = b"SALTJNL1\0\0\0\0\0\0\0@\x01\0\0\0\x02ab\x01";

// The bytes of the root and of `Even`, and how many payloads a load finds: the faults of the root come first, and a root
// with a record is damaged at its first gate.
static PARTS: [(&[u8], &[u8], Result<usize, LoadFault>); 12] = [
    (EMPTY, EMPTY, Ok(0)),
    (EMPTY, ONE, Ok(1)),
    (b"", EMPTY, NONE),
    (EMPTY, b"", NONE),
    (b"", BROKEN_16, NONE),
    (EMPTY, BROKEN_16, EVEN_16),
    (EMPTY, BROKEN_23, EVEN_23),
    (BROKEN_16, EMPTY, ROOT_16),
    (BROKEN_23, BROKEN_16, ROOT_23),
    (ONE, EMPTY, ROOT_16),
    (ONE, b"", ROOT_16),
    (BROKEN_23, b"", ROOT_23),
];

#[test]
fn what_a_load_finds_of_the_bytes_of_the_parts(rt: HostRuntime) {
    let alloc = rt.alloc();
    for (root, even, count) in &PARTS {
        let mut disk = filled(&rt, alloc, root, even, BROKEN_16);
        finds(&rt, alloc, &mut disk, *count);
        has(&rt, &mut disk, Part::Root, root);
        has(&rt, &mut disk, Part::Even, even);
    }
}

// A disk on which a write is pending on each part.
fn pending(rt: &impl Abort, alloc: Global) -> MemDisk {
    let mut disk = MemDisk::new(alloc);
    disk.write_at(Part::Root, 0, EMPTY).expect(rt, FAILED);
    disk.write_at(Part::Even, 0, ONE).expect(rt, FAILED);
    disk.write_at(Part::Odd, 0, b"odd").expect(rt, FAILED);
    disk
}

#[test]
fn a_load_brings_all_parts_to_rest(rt: HostRuntime) {
    let alloc = rt.alloc();
    let mut disk = pending(&rt, alloc);
    finds(&rt, alloc, &mut disk, Ok(1));
    disk.crash(9, 0).expect(&rt, FAILED);
    has(&rt, &mut disk, Part::Root, EMPTY);
    has(&rt, &mut disk, Part::Even, ONE);
    has(&rt, &mut disk, Part::Odd, b"odd");
}

// How many changing calls pass, and how many payloads a load finds: it makes three.
static LOADS: [(u64, Result<usize, LoadFault>); 4] = [
    (0, Err(LoadFault::Disk)),
    (1, Err(LoadFault::Disk)),
    (2, Err(LoadFault::Disk)),
    (3, Ok(1)),
];

#[test]
fn a_load_on_a_disk_that_fails(rt: HostRuntime) {
    let alloc = rt.alloc();
    for (passes, count) in &LOADS {
        let mut disk = filled(&rt, alloc, EMPTY, ONE, b"");
        disk.crash(0, 0).expect(&rt, FAILED);
        disk.arm(*passes);
        finds(&rt, alloc, &mut disk, *count);
        disk.crash(9, 0).expect(&rt, FAILED);
        finds(&rt, alloc, &mut disk, Ok(1));
    }
}

// The bytes of each part of a disk that tells nothing, and what a create and a load answer.
static STEADY: [(&[u8], Result<(), CreateFault>, Result<usize, LoadFault>); 3] = [
    (EMPTY, Ok(()), Ok(0)),
    (ONE, Err(CreateFault::NotEmpty { length: 24 }), ROOT_16),
    (
        BROKEN_23,
        Err(CreateFault::NotEmpty { length: 24 }),
        ROOT_23,
    ),
];

fn steady_count(alloc: Global, disk: &mut Steady) -> Result<usize, LoadFault> {
    match Log::load(alloc, disk) {
        Ok((_log, content)) => Ok(content.rest.len()),
        Err(fault) => Err(fault),
    }
}

#[test]
fn a_disk_that_tells_nothing(rt: HostRuntime) {
    for (bytes, answer, count) in &STEADY {
        let mut disk = Steady { bytes };
        let made = Log::create(&mut disk, 64);
        let found = steady_count(rt.alloc(), &mut disk);
        assert_eq!(rt; (made, found), (*answer, *count));
    }
}
