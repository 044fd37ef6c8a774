//! Journals: their bytes, each call and what it leaves, and what a crash leaves at each of its moments.
ghost use Rattle.std.specs.Prelude.{[]};
ghost use Rattle.salt_disk.specs.declared.disk.Fuse.TheVariants.{Whole};
ghost use Rattle.salt_disk.specs.History.{whole};

use gate_journal::{
    AppendFault, CreateFault, Journal, LoadFault, Payload, Payloads, header_bytes, record_bytes,
};
use salt_disk::{Disk, DiskFault, MemDisk, Part};
use std::alloc::Global;
use std::process::Abort;

// What is said where a step that must succeed doesn't.
const FAILED: &str = "memory, or a disk that works";

const NONE: Result<usize, LoadFault> = Err(LoadFault::NotAJournal);

const DAMAGED_16: Result<usize, LoadFault> = Err(LoadFault::Damaged {
    part: Part::Odd,
    at: 16,
});

const DAMAGED_23: Result<usize, LoadFault> = Err(LoadFault::Damaged {
    part: Part::Odd,
    at: 23,
});

// How many payloads a load finds.
fn found(alloc: Global, disk: &mut MemDisk, part: Part) -> Result<usize, LoadFault> {
    match Journal::load(alloc, disk, part) {
        Ok((_journal, payloads)) => Ok(payloads.len()),
        Err(fault) => Err(fault),
    }
}

// A read of the whole part gives these bytes.
fn has(rt: &impl Abort, disk: &mut MemDisk, part: Part, bytes: &[u8]) {
    let mut into = [0; 100];
    let count = disk.read(part, 0, &mut into).expect(rt, FAILED);
    assert_eq!(rt; &into[..count], bytes);
}

// A read of the part gives the header of a limit of 64 bytes, and these bytes behind it.
fn has_behind(rt: &impl Abort, disk: &mut MemDisk, part: Part, bytes: &[u8]) {
    let mut header = [0; 16];
    disk.read(part, 0, &mut header).expect(rt, FAILED);
    let mut into = [0; 20];
    let count = disk.read(part, 16, &mut into).expect(rt, FAILED);
    assert_eq!(rt;
        (header.as_slice(), &into[..count]),
        (header_bytes(64).as_slice(), bytes)
    );
}

// A load finds so many payloads.
fn finds(
    rt: &impl Abort,
    alloc: Global,
    disk: &mut MemDisk,
    part: Part,
    count: Result<usize, LoadFault>,
) {
    assert_eq!(rt; found(alloc, disk, part), count);
}

// A disk with an empty journal of 64 bytes on this part.
fn fresh(rt: &impl Abort, alloc: Global, part: Part) -> MemDisk {
    let mut disk = MemDisk::new(alloc);
    Journal::create(&mut disk, part, 64).expect(rt, FAILED);
    disk
}

fn is_created(rt: &impl Abort, answer: Result<(), CreateFault>, wanted: Result<(), CreateFault>) {
    assert_eq!(rt; answer, wanted);
}

// How far past its least length a crash leaves the part.
static CUTS: [u64; 3] = [0, 1, 1000];

// A journal of 64 bytes is made on an empty part: how many changing calls pass, the byte that the crash picks, what it
// leaves at the last cut, how many bytes of that at each cut, and how many payloads a load then finds.
static CREATES: [(u64, u8, &[u8], [usize; 3], Result<usize, LoadFault>); 22] = [
    (0, 0x00, &[0x00; 17], [0, 1, 17], NONE),
    (0, 0x01, &[0x01; 17], [0, 1, 17], NONE),
    (0, 0x07, &[0x07; 17], [0, 1, 17], NONE),
    (0, 0xff, &[0xff; 17], [0, 1, 17], NONE),
    (1, 0x00, &[0x00; 17], [0, 1, 17], NONE),
    (1, 0x01, &[0x01; 17], [0, 1, 17], NONE),
    (1, 0x07, &[0x07; 17], [0, 1, 17], NONE),
    (1, 0xff, &[0xff; 17], [0, 1, 17], NONE),
    (2, 0x00, b"\0ALTJNL1\0\0\0\0\0\0\0@\0", [17, 17, 17], NONE),
    (2, 0x01, b"\x01ALTJNL1\0\0\0\0\0\0\0@\0", [17, 17, 17], NONE),
    (2, 0x07, b"\x07ALTJNL1\0\0\0\0\0\0\0@\0", [17, 17, 17], NONE),
    (2, 0xff, b"\xffALTJNL1\0\0\0\0\0\0\0@\0", [17, 17, 17], NONE),
    (3, 0x00, b"\0ALTJNL1\0\0\0\0\0\0\0@\0", [17, 17, 17], NONE),
    (3, 0x01, b"\x01ALTJNL1\0\0\0\0\0\0\0@\0", [17, 17, 17], NONE),
    (3, 0x07, b"\x07ALTJNL1\0\0\0\0\0\0\0@\0", [17, 17, 17], NONE),
    (3, 0xff, b"\xffALTJNL1\0\0\0\0\0\0\0@\0", [17, 17, 17], NONE),
    (4, 0x00, b"SALTJNL1\0\0\0\0\0\0\0@\0", [17, 17, 17], Ok(0)),
    (4, 0x01, b"SALTJNL1\0\0\0\0\0\0\0@\0", [17, 17, 17], Ok(0)),
    (4, 0x07, b"SALTJNL1\0\0\0\0\0\0\0@\0", [17, 17, 17], Ok(0)),
    (4, 0xff, b"SALTJNL1\0\0\0\0\0\0\0@\0", [17, 17, 17], Ok(0)),
    (2, 0x53, b"SALTJNL1\0\0\0\0\0\0\0@\0", [17, 17, 17], Ok(0)),
    (3, 0x53, b"SALTJNL1\0\0\0\0\0\0\0@\0", [17, 17, 17], Ok(0)),
];

fn create(rt: &impl Abort, alloc: Global, passes: u64, pick: u8, cut: u64) -> MemDisk {
    let mut disk = MemDisk::new(alloc);
    disk.arm(passes);
    let answer = Journal::create(&mut disk, Part::Even, 64);
    is_created(
        rt,
        answer,
        if passes == 4 {
            Ok(())
        } else {
            Err(CreateFault::Disk)
        },
    );
    disk.crash(pick, cut).expect(rt, FAILED);
    disk
}

#[test]
fn what_a_crash_leaves_of_a_create(rt: HostRuntime) {
    let alloc = rt.alloc();
    for (passes, pick, left, lens, count) in &CREATES {
        for (cut, len) in CUTS.iter().zip(lens.iter()) {
            let mut disk = create(&rt, alloc, *passes, *pick, *cut);
            has(&rt, &mut disk, Part::Even, &left[..left.len().min(*len)]);
            finds(&rt, alloc, &mut disk, Part::Even, *count);
        }
    }
}

// The payload `ab` is added to a fresh journal: the rows are as those above, of what stands behind the header.
static APPENDS: [(u64, u8, &[u8], [usize; 3], Result<usize, LoadFault>); 20] = [
    (0, 0x00, b"\0\0\0\0\0\0\0\0", [1, 2, 8], Ok(0)),
    (0, 0x01, b"\0\x01\x01\x01\x01\x01\x01\x01", [1, 2, 8], Ok(0)),
    (0, 0x07, b"\0\x07\x07\x07\x07\x07\x07\x07", [1, 2, 8], Ok(0)),
    (0, 0xff, b"\0\xff\xff\xff\xff\xff\xff\xff", [1, 2, 8], Ok(0)),
    (1, 0x00, b"\0\0\0\0\0\0\0\0", [1, 2, 8], Ok(0)),
    (1, 0x01, b"\0\x01\x01\x01\x01\x01\x01\x01", [1, 2, 8], Ok(0)),
    (1, 0x07, b"\0\x07\x07\x07\x07\x07\x07\x07", [1, 2, 8], Ok(0)),
    (1, 0xff, b"\0\xff\xff\xff\xff\xff\xff\xff", [1, 2, 8], Ok(0)),
    (2, 0x00, b"\0\0\0\0\x02ab\0", [8, 8, 8], Ok(0)),
    (2, 0x01, b"\x01\0\0\0\x02ab\0", [8, 8, 8], Ok(1)),
    (2, 0x07, b"\x07\0\0\0\x02ab\0", [8, 8, 8], Ok(0)),
    (2, 0xff, b"\xff\0\0\0\x02ab\0", [8, 8, 8], Ok(0)),
    (3, 0x00, b"\0\0\0\0\x02ab\0", [8, 8, 8], Ok(0)),
    (3, 0x01, b"\x01\0\0\0\x02ab\0", [8, 8, 8], Ok(1)),
    (3, 0x07, b"\x07\0\0\0\x02ab\0", [8, 8, 8], Ok(0)),
    (3, 0xff, b"\xff\0\0\0\x02ab\0", [8, 8, 8], Ok(0)),
    (4, 0x00, b"\x01\0\0\0\x02ab\0", [8, 8, 8], Ok(1)),
    (4, 0x01, b"\x01\0\0\0\x02ab\0", [8, 8, 8], Ok(1)),
    (4, 0x07, b"\x01\0\0\0\x02ab\0", [8, 8, 8], Ok(1)),
    (4, 0xff, b"\x01\0\0\0\x02ab\0", [8, 8, 8], Ok(1)),
];

fn is_added(
    rt: &impl Abort,
    answer: Result<(), AppendFault>,
    is_down: bool,
    wanted: Result<(), AppendFault>,
) {
    assert_eq!(rt; (answer, is_down), (wanted, wanted.is_err()));
}

fn append(rt: &impl Abort, alloc: Global, passes: u64, pick: u8, cut: u64) -> MemDisk {
    let mut disk = fresh(rt, alloc, Part::Even);
    let (mut journal, _payloads) = Journal::load(alloc, &mut disk, Part::Even).expect(rt, FAILED);
    disk.arm(passes);
    let answer = journal.append(alloc, &mut disk, b"ab");
    is_added(
        rt,
        answer,
        journal.is_down(),
        if passes == 4 {
            Ok(())
        } else {
            Err(AppendFault::Disk)
        },
    );
    disk.crash(pick, cut).expect(rt, FAILED);
    disk
}

#[test]
fn what_a_crash_leaves_of_an_append(rt: HostRuntime) {
    let alloc = rt.alloc();
    for (passes, pick, left, lens, count) in &APPENDS {
        for (cut, len) in CUTS.iter().zip(lens.iter()) {
            let mut disk = append(&rt, alloc, *passes, *pick, *cut);
            has_behind(&rt, &mut disk, Part::Even, &left[..left.len().min(*len)]);
            finds(&rt, alloc, &mut disk, Part::Even, *count);
        }
    }
}

// The bytes of a part, and how many payloads a load finds.
static PARTS: [(&[u8], Result<usize, LoadFault>); 20] = [
    (b"", NONE),
    (b"SALTJNL1\0\0\0\0\0\0\0@", NONE),
    (b"TALTJNL1\0\0\0\0\0\0\0@\0", NONE),
    (b"SALTJNL1\0\0\0\0\0\0\0?\0", NONE),
    (b"SALTJNL1\0\0\0\0@\0\0\x01\0", NONE),
    (b"SALTJNL1\x80\0\0\0\0\0\0\0\0", NONE),
    (b"SALTJNL1\0\0\0\0\0\0\0@\0", Ok(0)),
    (b"SALTJNL1\0\0\0\0@\0\0\0\0", Ok(0)),
    (b"SALTJNL1\0\0\0\0\0\0\0@\x02ab", Ok(0)),
    (b"SALTJNL1\0\0\0\0\0\0\0@\x01", DAMAGED_16),
    (b"SALTJNL1\0\0\0\0\0\0\0@\x01\0\0", DAMAGED_16),
    (b"SALTJNL1\0\0\0\0\0\0\0@\x01\0\0\0\x02a", DAMAGED_16),
    (b"SALTJNL1\0\0\0\0\0\0\0@\x01\0\0\0\x02ab", DAMAGED_16),
    (b"SALTJNL1\0\0\0\0\0\0\0@\x01\0\0\0\x02ab\0", Ok(1)),
    (b"SALTJNL1\0\0\0\0\0\0\0@\x01\0\0\0\0\x07", Ok(1)),
    (b"SALTJNL1\0\0\0\0\0\0\0@\x01\0\0\0\x02ab\x01", DAMAGED_23),
    (
        b"SALTJNL1\0\0\0\0\0\0\0@\x01\0\0\0\x02ab\x01\0\0\0\0\0",
        Ok(2),
    ),
    (
        b"SALTJNL1\0\0\0\0\0\0\0@\x01\xff\xff\xff\xffab\0",
        DAMAGED_16,
    ),
    (
        b"SALTJNL1\0\0\0\0\0\0\0@\x01\0\0\0*..........................................\0",
        Ok(1),
    ),
    (
        b"SALTJNL1\0\0\0\0\0\0\0@\x01\0\0\0+...........................................\0",
        DAMAGED_16,
    ),
];

#[test]
fn what_a_load_finds_of_the_bytes_of_a_part(rt: HostRuntime) {
    let alloc = rt.alloc();
    for (bytes, count) in &PARTS {
        let mut disk = MemDisk::new(alloc);
        disk.write_at(Part::Odd, 0, bytes).expect(&rt, FAILED);
        finds(&rt, alloc, &mut disk, Part::Odd, *count);
        disk.crash(9, 0).expect(&rt, FAILED);
        has(&rt, &mut disk, Part::Odd, bytes);
    }
}

// Loads a journal and adds a payload: the length that it has then.
fn add(alloc: Global, disk: &mut MemDisk, part: Part, payload: &[u8]) -> Result<u64, AppendFault> {
    match Journal::load(alloc, disk, part) {
        Ok((mut journal, _payloads)) => match journal.append(alloc, disk, payload) {
            Ok(()) => Ok(journal.length()),
            Err(fault) => Err(fault),
        },
        Err(_) => Err(AppendFault::Disk),
    }
}

// Payloads that are added in order: the length that the journal has then, and the bytes of the part.
static ADDS: [(&[u8], Result<u64, AppendFault>, &[u8]); 2] = [
    (b"ab", Ok(24), b"SALTJNL1\0\0\0\0\0\0\0@\x01\0\0\0\x02ab\0"),
    (
        b"",
        Ok(29),
        b"SALTJNL1\0\0\0\0\0\0\0@\x01\0\0\0\x02ab\x01\0\0\0\0\0",
    ),
];

fn adds(
    rt: &impl Abort,
    alloc: Global,
    disk: &mut MemDisk,
    part: Part,
    rows: &[(&[u8], Result<u64, AppendFault>, &[u8])],
) {
    for (payload, length, bytes) in rows {
        assert_eq!(rt; add(alloc, disk, part, payload), *length);
        has(rt, disk, part, bytes);
    }
}

#[test]
fn the_bytes_of_a_journal(rt: HostRuntime) {
    let alloc = rt.alloc();
    let mut disk = fresh(&rt, alloc, Part::Root);
    has(&rt, &mut disk, Part::Root, b"SALTJNL1\0\0\0\0\0\0\0@\0");
    adds(&rt, alloc, &mut disk, Part::Root, &ADDS);
}

// The longest payloads that fit, of a limit of 64 bytes.
static FULL: [(usize, Result<u64, AppendFault>); 3] = [
    (10, Ok(32)),
    (
        28,
        Err(AppendFault::Full {
            length: 65,
            limit: 64,
        }),
    ),
    (27, Ok(64)),
];

fn fills(rt: &impl Abort, alloc: Global, disk: &mut MemDisk, part: Part) {
    let sevens = [7; 28];
    for (count, length) in &FULL {
        let payload = &sevens[..sevens.len().min(*count)];
        assert_eq!(rt; add(alloc, disk, part, payload), *length);
    }
}

#[test]
fn a_full_journal(rt: HostRuntime) {
    let mut disk = fresh(&rt, rt.alloc(), Part::Even);
    fills(&rt, rt.alloc(), &mut disk, Part::Even);
}

static PAYLOADS: [&[u8]; 2] = [b"ab", b"c"];

static PLACES: [Option<u64>; 3] = [Some(16), Some(23), None];

fn are(rt: &impl Abort, payloads: &Payloads, rows: &[&[u8]]) {
    assert_eq!(rt;
        (payloads.len(), payloads.is_empty()),
        (rows.len(), rows.is_empty())
    );
    for (payload, row) in payloads.as_slice().iter().zip(rows.iter()) {
        assert_eq!(rt; payload.as_slice(), *row);
    }
}

fn stand_at(rt: &impl Abort, payloads: &Payloads, places: &[Option<u64>]) {
    for (i, place) in places.iter().enumerate() {
        assert_eq!(rt; payloads.place(i), *place);
    }
}

fn is_up(rt: &impl Abort, journal: &Journal, part: Part, limit: u64, length: u64) {
    assert_eq!(rt;
        (
            journal.part(),
            journal.limit(),
            journal.length(),
            journal.is_down()
        ),
        (part, limit, length, false)
    );
}

#[test]
fn the_payloads_of_a_journal(rt: HostRuntime) {
    let alloc = rt.alloc();
    let mut disk = fresh(&rt, alloc, Part::Root);
    add(alloc, &mut disk, Part::Root, b"ab").expect(&rt, FAILED);
    add(alloc, &mut disk, Part::Root, b"c").expect(&rt, FAILED);
    let (journal, payloads) = Journal::load(alloc, &mut disk, Part::Root).expect(&rt, FAILED);
    is_up(&rt, &journal, Part::Root, 64, 30);
    are(&rt, &payloads, &PAYLOADS);
    stand_at(&rt, &payloads, &PLACES);
}

fn is(rt: &impl Abort, bytes: &[u8], wanted: &[u8]) {
    assert_eq!(rt; bytes, wanted);
}

#[test]
fn payloads_are_made_and_given_back(rt: HostRuntime) {
    let alloc = rt.alloc();
    let bytes = b"ab".to_vec(alloc).expect(&rt, FAILED);
    is(&rt, Payload::new(bytes).into_vec().as_slice(), b"ab");
    are(&rt, &Payloads::new(alloc, 16), &[]);
}

#[test]
fn the_bytes_of_a_header_and_of_a_record(rt: HostRuntime) {
    is(&rt, &header_bytes(64), b"SALTJNL1\0\0\0\0\0\0\0@");
    is(
        &rt,
        &header_bytes(1_073_741_824),
        b"SALTJNL1\0\0\0\0@\0\0\0",
    );
    let record = record_bytes(rt.alloc(), b"ab").expect(&rt, FAILED);
    is(&rt, record.as_slice(), b"\x01\0\0\0\x02ab");
}

// An append that is stopped after so many changing calls, the byte and the cut of a crash, and how many payloads a load
// then finds.
static STOPPED: [(u64, u8, u64, Result<usize, LoadFault>); 3] = [
    (2, 1, 0, Ok(1)),
    (2, 7, 0, Ok(0)),
    (0, 1, 100, Ok(0)),
];

fn stopped(rt: &impl Abort, alloc: Global, calls: u64) -> MemDisk {
    let mut disk = fresh(rt, alloc, Part::Even);
    let (mut journal, _payloads) = Journal::load(alloc, &mut disk, Part::Even).expect(rt, FAILED);
    disk.arm(calls);
    let answer = journal.append(alloc, &mut disk, b"ab");
    is_added(rt, answer, journal.is_down(), Err(AppendFault::Disk));
    if !journal.is_down() {
        panic!(rt; "the journal is up");
    }
    let again = journal.append(alloc, &mut disk, b"ab");
    is_added(rt, again, journal.is_down(), Err(AppendFault::Down));
    disk
}

#[test]
fn a_journal_is_down_until_it_is_loaded_again(rt: HostRuntime) {
    let alloc = rt.alloc();
    for (calls, pick, cut, count) in &STOPPED {
        let mut disk = stopped(&rt, alloc, *calls);
        finds(&rt, alloc, &mut disk, Part::Even, Err(LoadFault::Disk));
        disk.crash(*pick, *cut).expect(&rt, FAILED);
        finds(&rt, alloc, &mut disk, Part::Even, *count);
    }
}

// A crash, and then a create.
fn create_after(disk: &mut MemDisk, part: Part) -> Result<(), CreateFault> {
    if disk.crash(0, 0).is_err() {
        return Err(CreateFault::NoMemory);
    }
    Journal::create(disk, part, 64)
}

// The bytes of a part at rest, and what a create on it answers.
static FILLED: [(&[u8], Result<(), CreateFault>); 2] = [
    (
        b"eighteen bytes, 18",
        Err(CreateFault::NotEmpty { length: 18 }),
    ),
    (b"seventeen bytes 7", Ok(())),
];

#[test]
fn a_part_that_is_not_empty(rt: HostRuntime) {
    for (bytes, answer) in &FILLED {
        let mut disk = MemDisk::new(rt.alloc());
        disk.write_at(Part::Odd, 0, bytes).expect(&rt, FAILED);
        disk.sync(Part::Odd).expect(&rt, FAILED);
        is_created(&rt, create_after(&mut disk, Part::Odd), *answer);
    }
}

#[test]
fn a_create_that_was_stopped_is_made_again(rt: HostRuntime) {
    let alloc = rt.alloc();
    let mut disk = create(&rt, alloc, 3, 7, 1000);
    is_created(&rt, create_after(&mut disk, Part::Even), Ok(()));
    has(&rt, &mut disk, Part::Even, b"SALTJNL1\0\0\0\0\0\0\0@\0");
    finds(&rt, alloc, &mut disk, Part::Even, Ok(0));
}

// A disk that tells nothing, as one over real files does. Each part has these bytes, and no call fails.
#[derive(Drop)]
pub struct Steady {
    pub bytes: &'static [u8],
}

impl Disk for Steady {
    ghost is_told = { ⊥ };

    ghost state = { λ d. whole [] [] [] };

    ghost past = { λ d. [] };

    ghost fuse = { λ d. Whole };

    ghost faults = { λ d. 0 };

    ghost honest = { λ d told. absurd told };

    fn len(&mut self, _part: Part) -> Result<u64, DiskFault> {
        Ok(self.bytes.len() as u64)
    }

    fn read(&mut self, _part: Part, _at: u64, into: &mut [u8]) -> Result<usize, DiskFault> {
        let count = self.bytes.len().min(into.len());
        into[..count].copy_from_slice(&self.bytes[..count]);
        Ok(count)
    }

    fn write_at(&mut self, _part: Part, _at: u64, _bytes: &[u8]) -> Result<(), DiskFault> {
        Ok(())
    }

    fn cut(&mut self, _part: Part) -> Result<(), DiskFault> {
        Ok(())
    }

    fn sync(&mut self, _part: Part) -> Result<(), DiskFault> {
        Ok(())
    }
}

// The bytes of each part of such a disk, and what a create and a load answer.
static STEADY: [(&[u8], Result<(), CreateFault>, Result<usize, LoadFault>); 4] = [
    (b"SALTJNL1\0\0\0\0\0\0\0@\0", Ok(()), Ok(0)),
    (b"TALTJNL1\0\0\0\0\0\0\0@\0", Ok(()), NONE),
    (
        b"SALTJNL1\0\0\0\0\0\0\0@\x01\0",
        Err(CreateFault::NotEmpty { length: 18 }),
        DAMAGED_16,
    ),
    (
        b"SALTJNL1\0\0\0\0\0\0\0@\x01\0\0\0\x02ab\0",
        Err(CreateFault::NotEmpty { length: 24 }),
        Ok(1),
    ),
];

fn steady_count(alloc: Global, disk: &mut Steady) -> Result<usize, LoadFault> {
    match Journal::load(alloc, disk, Part::Odd) {
        Ok((_journal, payloads)) => Ok(payloads.len()),
        Err(fault) => Err(fault),
    }
}

#[test]
fn a_disk_that_tells_nothing(rt: HostRuntime) {
    for (bytes, answer, count) in &STEADY {
        let mut disk = Steady { bytes };
        let made = Journal::create(&mut disk, Part::Odd, 64);
        let found = steady_count(rt.alloc(), &mut disk);
        assert_eq!(rt; (made, found), (*answer, *count));
    }
}

static CREATE_TEXTS: [(CreateFault, &str); 3] = [
    (CreateFault::NoMemory, "no memory was found"),
    (CreateFault::Disk, "the disk failed"),
    (
        CreateFault::NotEmpty { length: 18 },
        "the part has 18 bytes already",
    ),
];

static LOAD_TEXTS: [(LoadFault, &str); 4] = [
    (LoadFault::NoMemory, "no memory was found"),
    (LoadFault::Disk, "the disk failed"),
    (LoadFault::NotAJournal, "the part is no journal"),
    (
        LoadFault::Damaged {
            part: Part::Odd,
            at: 23,
        },
        "the journal on part Odd is damaged at place 23",
    ),
];

static APPEND_TEXTS: [(AppendFault, &str); 4] = [
    (AppendFault::NoMemory, "no memory was found"),
    (AppendFault::Down, "the journal is down"),
    (
        AppendFault::Full {
            length: 65,
            limit: 64,
        },
        "the journal's length would be 65, over its limit of 64",
    ),
    (AppendFault::Disk, "the disk failed"),
];

fn says(rt: &impl Abort, said: &str, text: &str) {
    assert_eq!(rt; said, text);
}

#[test]
fn faults_have_texts(rt: HostRuntime) {
    let alloc = rt.alloc();
    for (fault, text) in &CREATE_TEXTS {
        says(
            &rt,
            fault.to_string(alloc).expect(&rt, FAILED).as_str(),
            text,
        );
    }
    for (fault, text) in &LOAD_TEXTS {
        says(
            &rt,
            fault.to_string(alloc).expect(&rt, FAILED).as_str(),
            text,
        );
    }
    for (fault, text) in &APPEND_TEXTS {
        says(
            &rt,
            fault.to_string(alloc).expect(&rt, FAILED).as_str(),
            text,
        );
    }
}
