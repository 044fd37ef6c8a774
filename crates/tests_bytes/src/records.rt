//! Records of journals: each kind read and written again, and bytes that are those of no record.
ghost use Rattle.journal_records.specs.Limits.{RecordFits};

use journal_records::{read_record, records_read_back, write_record};
use salt_wire::Deed;
use std::alloc::{AllocError, Global};

// The number of a record's kind, and the bytes of the record.
static RECORDS: [(u8, &'static [u8]); 14] = [
    (
        1,
        b"\x01\x00\x06\x0a$\x18\x1e@\x00\x01\x00\x00\x00\x01*\x01\x00\x00\x00\x01*\x00\x09test.ping\x05\x00\x00\x00\x00",
    ),
    (2, b"\x02\x02m1\x03\x00\x00\x00\x02"),
    (
        2,
        b"\x02\x02m1\x01\x00\x00\x00\x04\x02\x04\x00\x00\x00\x02ok",
    ),
    (2, b"\x02\x02m1\x02\x00\x03a/b\x02"),
    (
        2,
        b"\x02\x02m1\x04\x00\x00\x00\x05\x06\x00\x00\x00\x01\x00\x00\x00\x01k\x00\x06\x00\x00\x00\x00\x06\x00\x00\x00\x00",
    ),
    (3, b"\x03\x00\x03a/b\x03\x00\x00\x00\x00\x00\x00\x00\x07"),
    (4, b"\x04\x00\x00\x00\x00"),
    (
        4,
        b"\x04\x00\x00\x00\x02\x02\x03web\x07\x01\x00\x06\x0a$\x18\x1e@\x00\x01\x00\x00\x00\x01*\x01\x00\x00\x00\x01*\x00\x01f\x05\x00\x00\x00\x00",
    ),
    (
        5,
        b"\x05\x00\x06\x0a$\x18\x1e@\x00\x09\x00\x00\x00\x01t\x0a\x08\x02\x00\x00\x00\x01a\x03\x00\x02\x01m\x01n\x00\x01f\x05\x00\x00\x00\x01\x02",
    ),
    (6, b"\x06"),
    (7, b"\x07\x00\x00\x00\x03\x00\x00\x00\x00\x00"),
    (
        7,
        b"\x07\x00\x00\x00\x03\x00\x00\x00\x00\x02\x02\x00\x01e\x00\x01\x00\x00\x00\x03\x00\x02",
    ),
    (
        7,
        b"\x07\xff\xff\xff\xff\x01\x06\x00\x00\x00\x00\x06\x00\x00\x00\x00\x06\x00\x00\x00\x00\x00\x00\x00\x00",
    ),
    (
        7,
        b"\x07\x00\x00\x00\x04\x01\x06\x00\x00\x00\x01\x00\x00\x00\x01g\x02\x06\x00\x00\x00\x01\x00\x00\x00\x01s\x01\x06\x00\x00\x00\x01\x00\x00\x00\x01m\x00\x00\x00\x00\x01\x01\x00\x00\x00\x04\x00\x02",
    ),
];

fn number_of(deed: &Deed) -> u8 {
    match deed {
        Deed::Publish { job: _ } => 1,
        Deed::Up {
            minion: _,
            entry: _,
        } => 2,
        Deed::Fire { event: _ } => 3,
        Deed::React { items: _ } => 4,
        Deed::Intake { job: _ } => 5,
        Deed::Boot => 6,
        Deed::Done {
            seq: _,
            changed: _,
            entries: _,
        } => 7,
    }
}

// The number of a record's kind where it has these bytes, and 0 where it has others.
fn written(alloc: Global, deed: &Deed, bytes: &[u8]) -> Result<u8, AllocError>
    requires { RecordFits deed.now }
{
    let out = write_record(alloc, deed)?;
    if out.as_slice() == bytes {
        Ok(number_of(deed))
    } else {
        Ok(0)
    }
}

// The number of the kind of the record that is read of these bytes and has them; 0 where there is none.
fn read_again(alloc: Global, bytes: &[u8]) -> Result<u8, AllocError> {
    match read_record(alloc, bytes)? {
        Some(deed) => written(alloc, &deed, bytes),
        None => Ok(0),
    }
}

#[test]
fn each_kind_is_read_and_written(rt: HostRuntime) {
    records_read_back();
    for (i, (kind, bytes)) in RECORDS.iter().enumerate() {
        assert_eq!(rt; read_again(rt.alloc(), *bytes), Ok(*kind), "row {i}");
    }
}

// Whether these bytes are those of a record.
fn is_record(alloc: Global, bytes: &[u8]) -> Result<bool, AllocError> {
    Ok(read_record(alloc, bytes)?.is_some())
}

// The first cut of a record that is read.
fn read_cut(alloc: Global, bytes: &[u8]) -> Result<Option<usize>, AllocError> {
    for cut in 0..bytes.len() {
        if is_record(alloc, &bytes[..cut])? {
            return Ok(Some(cut));
        }
    }
    Ok(None)
}

#[test]
fn no_cut_is_a_record(rt: HostRuntime) {
    for (i, (_, bytes)) in RECORDS.iter().enumerate() {
        assert_eq!(rt; read_cut(rt.alloc(), *bytes), Ok(None), "row {i}");
    }
}

// Whether the bytes with one more are those of a record.
fn is_longer(alloc: Global, bytes: &[u8], more: u8) -> Result<bool, AllocError> {
    let mut out = Vec::new(alloc);
    out.extend_from_slice(bytes)?;
    out.push(more)?;
    is_record(alloc, out.as_slice())
}

#[test]
fn nothing_may_follow_a_record(rt: HostRuntime) {
    for (i, (kind, bytes)) in RECORDS.iter().enumerate() {
        assert_eq!(rt; is_longer(rt.alloc(), *bytes, *kind), Ok(false), "row {i}");
    }
}

static WRONG: [&'static [u8]; 17] = [
    // codes of no record
    b"\x00",
    b"\x08",
    b"\xff\x00\x00\x00\x00",
    // codes of no reaction, and of no change
    b"\x04\x00\x00\x00\x01\x00",
    b"\x04\x00\x00\x00\x01\x03\x03web\x07",
    b"\x07\x00\x00\x00\x03\x02\x00\x00\x00\x00",
    // counts of one more than there are, and of one less
    b"\x04\x00\x00\x00\x02\x02\x03web\x07",
    b"\x04\x00\x00\x00\x00\x02\x03web\x07",
    b"\x07\x00\x00\x00\x03\x00\x00\x00\x00\x02\x03\x00\x00\x00\x01",
    b"\x07\x00\x00\x00\x03\x00\xff\xff\xff\xff\x03\x00\x00\x00\x01",
    // an id that is none, a word that is none, an entry that is none
    b"\x02\x00\x03\x00\x00\x00\x02",
    b"\x02\x01/\x03\x00\x00\x00\x02",
    b"\x03\x00\x03a b\x02",
    b"\x02\x02m1\x05\x00\x00\x00\x02",
    // holdings that are no map
    b"\x07\x00\x00\x00\x03\x01\x05\x00\x00\x00\x00\x06\x00\x00\x00\x00\x06\x00\x00\x00\x00\x00\x00\x00\x00",
    b"\x07\x00\x00\x00\x03\x01\x06\x00\x00\x00\x00\x06\x00\x00\x00\x00\x00\x00\x00\x00\x00",
    // a jid after the greatest
    b"\x05\x03\x84D\x0c\xccs`\x00\x01\x00\x00\x00\x01*\x01\x00\x00\x00\x01*\x00\x01f\x05\x00\x00\x00\x00",
];

#[test]
fn wrong_bytes_are_no_record(rt: HostRuntime) {
    for (i, bytes) in WRONG.iter().enumerate() {
        assert_eq!(rt; is_record(rt.alloc(), *bytes), Ok(false), "row {i}");
    }
}

// A record with a run of one byte between its front and its end, and whether it is one.
#[derive(Drop)]
struct Long {
    front: &'static [u8],
    run: usize,
    end: &'static [u8],
    is_record: bool,
}

static LONG: [Long; 8] = [
    // an id of 64 bytes, and one of 65
    Long {
        front: b"\x02\x40",
        run: 64,
        end: b"\x03\x00\x00\x00\x02",
        is_record: true,
    },
    Long {
        front: b"\x02\x41",
        run: 65,
        end: b"\x03\x00\x00\x00\x02",
        is_record: false,
    },
    // a tag of 256 bytes, and one of 257
    Long {
        front: b"\x03\x01\x00",
        run: 256,
        end: b"\x02",
        is_record: true,
    },
    Long {
        front: b"\x03\x01\x01",
        run: 257,
        end: b"\x02",
        is_record: false,
    },
    // a job's text of 4,096 bytes, and one of 4,097
    Long {
        front: b"\x01\x00\x06\x0a$\x18\x1e@\x00\x01\x00\x00\x10\x00",
        run: 4096,
        end: b"\x01\x00\x00\x00\x01*\x00\x01f\x05\x00\x00\x00\x00",
        is_record: true,
    },
    Long {
        front: b"\x01\x00\x06\x0a$\x18\x1e@\x00\x01\x00\x00\x10\x01",
        run: 4097,
        end: b"\x01\x00\x00\x00\x01*\x00\x01f\x05\x00\x00\x00\x00",
        is_record: false,
    },
    // a value of 65,536 bytes, and one more
    Long {
        front: b"\x03\x00\x01e\x04\x00\x00\xff\xfb",
        run: 65531,
        end: b"",
        is_record: true,
    },
    Long {
        front: b"\x03\x00\x01e\x04\x00\x00\xff\xfc",
        run: 65532,
        end: b"",
        is_record: false,
    },
];

fn is_long_record(alloc: Global, long: &Long) -> Result<bool, AllocError> {
    let run = vec![in alloc; b'x'; long.run]?;
    let mut bytes = Vec::new(alloc);
    bytes.extend_from_slice(long.front)?;
    bytes.extend_from_slice(run.as_slice())?;
    bytes.extend_from_slice(long.end)?;
    is_record(alloc, bytes.as_slice())
}

#[test]
fn fields_of_records_have_limits(rt: HostRuntime) {
    for (i, long) in LONG.iter().enumerate() {
        assert_eq!(rt;
            is_long_record(rt.alloc(), long),
            Ok(long.is_record),
            "row {i}"
        );
    }
}
