//! Bodies cut at each byte, long fields and large trees, and jobs, entries, ids and words at places of a body.
ghost use Rattle.salt_wire.specs.Limits.{JobFits, EntryFits};

use salt_wire::{
    Entry, Job, Message, WireFault, decode, messages_read_back, read_entry, read_id, read_job,
    read_word, write_entry, write_id, write_job, write_word,
};
use std::alloc::{AllocError, Global};

// A body, and where its fields begin.
#[derive(Drop)]
struct Row {
    body: &'static [u8],
    fields: &'static [usize],
}

static ROWS: [Row; 16] = [
    Row {
        body: b"\x01\x01\x00\x00\x00\x00\x00\x06\x0a$\x18\x1e@\x00\x01\x00\x00\x00\x01*\x01\x00\x00\x00\x01*\x00\x09test.ping\x05\x00\x00\x00\x00",
        fields: &[2, 6, 14, 15, 20, 21, 26, 37],
    },
    Row {
        body: b"\x01\x01\x00\x00\x01\x02\x00\x06\x0a$\x18\x1e@\x00\x09\x00\x00\x00\x01t\x0a\x09\x08\x02\x00\x00\x00\x01a\x03\x00\x02\x01m\x01n\x0a\x04\x00\x00\x00\x01g\x0a\x05\x00\x00\x00\x01h\x0a\x06\x00\x00\x00\x01i\x0a\x07\x00\x00\x00\x01j\x01\x00\x00\x00\x01k\x00\x09test.echo\x05\x00\x00\x00\x01\x03\x00\x00\x00\x00\x00\x00\x00\x07",
        fields: &[
            2, 6, 14, 15, 20, 21, 22, 23, 24, 29, 30, 36, 37, 38, 43, 44, 45, 50, 51, 52, 57, 58,
            59, 64, 65, 70, 81,
        ],
    },
    Row {
        body: b"\x01\x02\x00\x00\x00\x00",
        fields: &[2],
    },
    Row {
        body: b"\x01\x03\x02m1\x00\x00\x00\x01\x03\x00\x00\x00\x02",
        fields: &[2, 5, 9, 10],
    },
    Row {
        body: b"\x01\x03\x02m1\x00\x00\x00\x03\x01\x00\x00\x00\x04\x02\x04\x00\x00\x00\x02ok",
        fields: &[2, 5, 9, 10, 14, 15],
    },
    Row {
        body: b"\x01\x03\x02m1\x00\x00\x00\x00\x02\x00\x03a/b\x02",
        fields: &[2, 5, 9, 10, 15],
    },
    Row {
        body: b"\x01\x03\x02m1\x00\x00\x00\x09\x04\x00\x00\x00\x05\x06\x00\x00\x00\x01\x00\x00\x00\x01k\x00\x06\x00\x00\x00\x00\x06\x00\x00\x00\x00",
        fields: &[2, 5, 9, 10, 14, 25, 30],
    },
    Row {
        body: b"\x01\x04\x02m1\x01\x02\x03\x04",
        fields: &[2, 5],
    },
    Row {
        body: b"\x01\x05\x03top",
        fields: &[2],
    },
    Row {
        body: b"\x01\x06",
        fields: &[],
    },
    Row {
        body: b"\x01\x10\x09\x00\x00\x00\x06x or y\x00\x09test.ping\x05\x00\x00\x00\x00",
        fields: &[2, 3, 13, 24],
    },
    Row {
        body: b"\x01\x11\x00\x06\x0a$\x18\x1e@\x00",
        fields: &[2],
    },
    Row {
        body: b"\x01\x11\x03\x84D\x0c\xccs_\xff",
        fields: &[2],
    },
    Row {
        body: b"\x01\x12",
        fields: &[],
    },
    Row {
        body: b"\x01\x13\x08\x00\x00\x00\x03web\x00\x09test.echo",
        fields: &[2, 3, 10],
    },
    Row {
        body: b"\x01\x14\x0c\x00\x00\x00\x02a\x0a",
        fields: &[2, 3],
    },
];

// The fault of the first so many bytes of a body.
fn cut_fault(cut: usize, fields: &[usize]) -> WireFault {
    if cut == 0 {
        return WireFault::BadVersion;
    }
    if cut == 1 {
        return WireFault::BadKind;
    }
    let mut at = 2;
    for field in fields {
        if *field <= cut {
            at = *field;
        }
    }
    WireFault::BadField { at }
}

// The first cut of a body that has another fault.
fn wrong_cut(alloc: Global, row: &Row) -> Option<usize> {
    for cut in 0..row.body.len() {
        let fault = decode(alloc, &row.body[..cut]).err();
        if fault != Some(cut_fault(cut, row.fields)) {
            return Some(cut);
        }
    }
    None
}

#[test]
fn each_cut_is_told(rt: HostRuntime) {
    for (i, row) in ROWS.iter().enumerate() {
        assert_eq!(rt; wrong_cut(rt.alloc(), row), None, "row {i}");
    }
}

// The fault of a body with a byte after it.
fn longer(alloc: Global, body: &[u8]) -> Result<Option<WireFault>, AllocError> {
    let mut out = Vec::new(alloc);
    out.extend_from_slice(body)?;
    out.push(0)?;
    Ok(decode(alloc, out.as_slice()).err())
}

#[test]
fn nothing_may_trail(rt: HostRuntime) {
    for (i, row) in ROWS.iter().enumerate() {
        let fault = WireFault::Trailing { at: row.body.len() };
        assert_eq!(rt; longer(rt.alloc(), row.body), Ok(Some(fault)), "row {i}");
    }
}

// A publication whose job has this tree, which begins at byte 20.
fn with_tree(alloc: Global, tree: &[u8]) -> Result<Vec<u8>, AllocError> {
    let mut out = Vec::new(alloc);
    out.extend_from_slice(b"\x01\x01\0\0\0\0\0\x06\x0a\x24\x18\x1e\x40\0\x09\0\0\0\x01t")?;
    out.extend_from_slice(tree)?;
    out.extend_from_slice(b"\0\x09test.ping\x05\0\0\0\0")?;
    Ok(out)
}

fn tree_fault(alloc: Global, tree: &[u8]) -> Result<Option<WireFault>, AllocError> {
    Ok(decode(alloc, with_tree(alloc, tree)?.as_slice()).err())
}

fn push_often(out: &mut Vec<u8>, piece: &[u8], times: usize) -> Result<(), AllocError> {
    for _ in 0..times {
        out.extend_from_slice(piece)?;
    }
    Ok(())
}

// A leaf with a text of so many bytes.
fn push_leaf(out: &mut Vec<u8>, tag: u8, length: u16) -> Result<(), AllocError> {
    out.push(tag)?;
    out.extend_from_slice(&[0, 0])?;
    out.extend_from_slice(&length.to_be_bytes())?;
    push_often(out, b"x", length as usize)
}

// So many bytes of a tag, then so many leaves of one tag and length, and a last one.
#[derive(Drop)]
struct Limit {
    nodes: (u8, usize),
    leaves: (u8, u16, usize),
    last: (u8, u16),
    fault: Option<WireFault>,
}

static LIMITS: [Limit; 3] = [
    // 65,536 bytes, and one more
    Limit {
        nodes: (10, 15),
        leaves: (1, 4096, 15),
        last: (6, 4001),
        fault: None,
    },
    Limit {
        nodes: (10, 15),
        leaves: (1, 4096, 15),
        last: (6, 4002),
        fault: Some(WireFault::BadField { at: 61551 }),
    },
    // 65,536 bytes, and a node more
    Limit {
        nodes: (10, 16),
        leaves: (1, 4090, 16),
        last: (1, 1),
        fault: Some(WireFault::BadField { at: 65556 }),
    },
];

fn limit_fault(alloc: Global, limit: &Limit) -> Result<Option<WireFault>, AllocError> {
    let mut tree = Vec::new(alloc);
    let (tag, count) = limit.nodes;
    push_often(&mut tree, &[tag], count)?;
    let (tag, length, count) = limit.leaves;
    for _ in 0..count {
        push_leaf(&mut tree, tag, length)?;
    }
    let (tag, length) = limit.last;
    push_leaf(&mut tree, tag, length)?;
    tree_fault(alloc, tree.as_slice())
}

#[test]
fn trees_have_65536_bytes(rt: HostRuntime) {
    for (i, limit) in LIMITS.iter().enumerate() {
        assert_eq!(rt; limit_fault(rt.alloc(), limit), Ok(limit.fault), "row {i}");
    }
}

// A body with a run of one byte between its front and its end.
#[derive(Drop)]
struct Long {
    front: &'static [u8],
    run: usize,
    end: &'static [u8],
    fault: Option<WireFault>,
}

static LONG: [Long; 4] = [
    // a job's text of 4,096 bytes, and one of 4,097
    Long {
        front: b"\x01\x01\x00\x00\x00\x00\x00\x06\x0a$\x18\x1e@\x00\x01\x00\x00\x10\x00",
        run: 4096,
        end: b"\x01\x00\x00\x00\x01*\x00\x01f\x05\x00\x00\x00\x00",
        fault: None,
    },
    Long {
        front: b"\x01\x01\x00\x00\x00\x00\x00\x06\x0a$\x18\x1e@\x00\x01\x00\x00\x10\x01",
        run: 4097,
        end: b"\x01\x00\x00\x00\x01*\x00\x01f\x05\x00\x00\x00\x00",
        fault: Some(WireFault::BadField { at: 15 }),
    },
    // a value of 65,536 bytes, and one more
    Long {
        front: b"\x01\x03\x02m1\x00\x00\x00\x01\x01\x00\x00\x00\x01\x00\x04\x00\x00\xff\xfb",
        run: 65531,
        end: b"",
        fault: None,
    },
    Long {
        front: b"\x01\x03\x02m1\x00\x00\x00\x01\x01\x00\x00\x00\x01\x00\x04\x00\x00\xff\xfc",
        run: 65532,
        end: b"",
        fault: Some(WireFault::BadField { at: 15 }),
    },
];

fn long_fault(alloc: Global, long: &Long) -> Result<Option<WireFault>, AllocError> {
    let run = vec![in alloc; b'x'; long.run]?;
    let mut body = Vec::new(alloc);
    body.extend_from_slice(long.front)?;
    body.extend_from_slice(run.as_slice())?;
    body.extend_from_slice(long.end)?;
    Ok(decode(alloc, body.as_slice()).err())
}

#[test]
fn long_fields_have_limits(rt: HostRuntime) {
    for (i, long) in LONG.iter().enumerate() {
        assert_eq!(rt; long_fault(rt.alloc(), long), Ok(long.fault), "row {i}");
    }
}

// A job that is written after a byte and read there: where it ends, and the place after it.
fn job_again(alloc: Global, job: &Job) -> Result<(usize, usize), AllocError>
    requires { JobFits job.now }
{
    let mut out = Vec::new(alloc);
    out.push(9)?;
    write_job(job, &mut out)?;
    let end = out.len();
    match read_job(alloc, out.as_slice(), 1) {
        Ok((_, after)) => Ok((end, after)),
        Err(_) => Ok((0, 1)),
    }
}

// The same of an entry.
fn entry_again(alloc: Global, entry: &Entry) -> Result<(usize, usize), AllocError>
    requires { EntryFits entry.now }
{
    let mut out = Vec::new(alloc);
    out.push(9)?;
    write_entry(entry, &mut out)?;
    let end = out.len();
    match read_entry(alloc, out.as_slice(), 1) {
        Ok((_, after)) => Ok((end, after)),
        Err(_) => Ok((0, 2)),
    }
}

fn read_again(alloc: Global, body: &[u8]) -> Result<(usize, usize), AllocError> {
    match decode(alloc, body) {
        Ok(Message::Pub { seq: _, job }) => job_again(alloc, &job),
        Ok(
            Message::Up {
                minion: _,
                n: _,
                entry,
            },
        ) => entry_again(alloc, &entry),
        _ => Ok((0, 0)),
    }
}

fn ends_there(alloc: Global, body: &[u8]) -> Result<bool, AllocError> {
    let (end, after) = read_again(alloc, body)?;
    Ok(end == after)
}

#[test]
fn jobs_and_entries_are_read_again(rt: HostRuntime) {
    for (i, row) in ROWS.iter().enumerate() {
        assert_eq!(rt; ends_there(rt.alloc(), row.body), Ok(true), "row {i}");
    }
}

// An id and a word written one after the other.
fn id_and_word(alloc: Global) -> Result<Vec<u8>, AllocError> {
    let mut out = Vec::new(alloc);
    if let Ok((id, _)) = read_id(b"\x00\x02m1\x04", 1) {
        write_id(&id, &mut out)?;
    }
    if let Ok((word, _)) = read_word(alloc, b"\x00\x03a/b", 0) {
        write_word(&word, &mut out)?;
    }
    Ok(out)
}

#[test]
fn ids_and_words_are_read_and_written(rt: HostRuntime) {
    let out = id_and_word(rt.alloc()).expect(&rt, "memory");
    assert_eq!(rt; out.as_slice(), b"\x02m1\x00\x03a/b".as_slice());
}

// The places at which a read of a field ends or fails.
fn place_of<T: Drop>(read: Result<(T, usize), WireFault>) -> Result<usize, WireFault> {
    match read {
        Ok((_, after)) => Ok(after),
        Err(fault) => Err(fault),
    }
}

fn fails_at(at: usize) -> Result<usize, WireFault> {
    Err(WireFault::BadField { at })
}

#[test]
fn fields_have_faults(rt: HostRuntime) {
    let alloc = rt.alloc();
    assert_eq!(rt; place_of(read_id(b"\x01m", 2)), fails_at(2));
    assert_eq!(rt; place_of(read_id(b"\x00\x02m1", 1)), Ok(4));
    assert_eq!(rt; place_of(read_word(alloc, b"\x09\x00\x00", 1)), fails_at(1));
    assert_eq!(rt; place_of(read_job(alloc, b"", 0)), fails_at(0));
    assert_eq!(rt; place_of(read_entry(alloc, b"\x09\x05", 1)), fails_at(1));
    // a wrong field after right ones
    assert_eq!(rt;
        place_of(read_entry(alloc, b"\x09\x01\x00\x00\x00\x01\x00\x07", 1)),
        fails_at(7)
    );
    assert_eq!(rt;
        place_of(read_job(alloc, b"\x09\x00\x06\x0a$\x18\x1e@\x00\x0a", 1)),
        fails_at(9)
    );
}

#[test]
fn laws_of_messages_are_called() {
    messages_read_back();
}
