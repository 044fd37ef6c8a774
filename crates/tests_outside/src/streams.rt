//! Sources and sinks: in memory, where chosen calls fail, and over readers and writers of std that fail in mid-stream.
use salt_outside::{
    MemSink, MemSource, Outside, ReadAll, Sink, Source, StdSink, StdSource, read_all,
};
use std::alloc::Global;
use std::io;
use std::io::{ErrorKind, Read, Write};
use std::process::Abort;

// What is said where a step that must succeed doesn't.
const FAILED: &str = "memory";

// The most bytes of a script.
const SCRIPT: usize = 16_777_216;

// Each call of a source over the bytes `one ping` whose second call fails: what it answers, and what stands in the
// piece then, which was five dots.
static READS: [(Result<usize, Outside>, &[u8]); 5] = [
    (Ok(5), b"one p"),
    (Err(Outside::Failed), b"....."),
    (Ok(3), b"ing.."),
    (Ok(0), b"....."),
    (Ok(0), b"....."),
];

fn reads(rt: &impl Abort, source: &mut MemSource, rows: &[(Result<usize, Outside>, &[u8])]) {
    for (answer, piece) in rows {
        let mut into = [b'.'; 5];
        let read = source.read(&mut into);
        assert_eq!(rt; (read, into.as_slice()), (*answer, *piece));
    }
}

#[test]
fn a_source_is_read_in_pieces(rt: HostRuntime) {
    let alloc = rt.alloc();
    let bytes = b"one ping".to_vec(alloc).expect(&rt, FAILED);
    let fails = [2].to_vec(alloc).expect(&rt, FAILED);
    let mut source = MemSource::new(bytes, fails);
    reads(&rt, &mut source, &READS);
}

// A source of so many bytes whose call of this number fails, a limit, and how many bytes `read_all` gives.
// Twenty thousand bytes come in three pieces, and a fourth read finds the end.
static WHOLE: [(usize, u64, usize, Result<usize, ReadAll>); 13] = [
    (0, 0, 0, Ok(0)),
    (1, 0, 0, Err(ReadAll::TooLong { limit: 0 })),
    (8_192, 0, 8_192, Ok(8_192)),
    (8_193, 0, 8_192, Err(ReadAll::TooLong { limit: 8_192 })),
    (20_000, 0, usize::MAX, Ok(20_000)),
    (SCRIPT, 0, SCRIPT, Ok(SCRIPT)),
    (
        SCRIPT + 1,
        0,
        SCRIPT,
        Err(ReadAll::TooLong { limit: SCRIPT }),
    ),
    (20_000, 0, 20_000, Ok(20_000)),
    (20_000, 1, 20_000, Err(ReadAll::ReadFault)),
    (20_000, 2, 20_000, Err(ReadAll::ReadFault)),
    (20_000, 3, 20_000, Err(ReadAll::ReadFault)),
    (20_000, 4, 20_000, Err(ReadAll::ReadFault)),
    (20_000, 5, 20_000, Ok(20_000)),
];

fn count_read(
    rt: &impl Abort,
    alloc: Global,
    len: usize,
    fails: u64,
    limit: usize,
) -> Result<usize, ReadAll> {
    let bytes = vec![in alloc; b'x'; len].expect(rt, FAILED);
    let fails = [fails].to_vec(alloc).expect(rt, FAILED);
    let mut source = MemSource::new(bytes, fails);
    match read_all(alloc, &mut source, limit) {
        Ok(bytes) => Ok(bytes.len()),
        Err(fault) => Err(fault),
    }
}

#[test]
fn a_source_is_read_whole_up_to_the_limit(rt: HostRuntime) {
    for (len, fails, limit, count) in &WHOLE {
        let read = count_read(&rt, rt.alloc(), *len, *fails, *limit);
        assert_eq!(rt; read, *count, "{len} bytes, {limit} at most");
    }
}

// Each call of a sink whose calls 2, 4 and 9 fail: what is written, what it answers, and what the sink holds then.
static WRITES: [(&[u8], Result<(), Outside>, &[u8]); 5] = [
    (b"one ", Ok(()), b"one "),
    (b"lost ", Err(Outside::Failed), b"one "),
    (b"ping", Ok(()), b"one ping"),
    (b"lost", Err(Outside::Failed), b"one ping"),
    (b"", Ok(()), b"one ping"),
];

fn writes(rt: &impl Abort, sink: &mut MemSink, rows: &[(&[u8], Result<(), Outside>, &[u8])]) {
    for (bytes, answer, held) in rows {
        let written = sink.write(bytes);
        assert_eq!(rt; (written, sink.bytes()), (*answer, *held));
    }
}

#[test]
fn a_sink_is_written_but_for_its_listed_calls(rt: HostRuntime) {
    let alloc = rt.alloc();
    let fails = [2, 4, 9].to_vec(alloc).expect(&rt, FAILED);
    let mut sink = MemSink::new(alloc, fails);
    writes(&rt, &mut sink, &WRITES);
}

// Gives three bytes a call, of ten, and fails at one call.
#[derive(Drop)]
struct Giver {
    left: usize,
    calls: u8,
    bad_call: u8,
}

impl Read for Giver {
    fn read(&mut self, into: &mut [u8]) -> io::Result<usize> {
        self.calls = self.calls.saturating_add(1);
        if self.calls == self.bad_call {
            return Err(ErrorKind::Interrupted.into());
        }
        let count = self.left.min(into.len()).min(3);
        into[..count].fill(b'x');
        self.left -= count;
        Ok(count)
    }
}

// Whether all ten bytes come, by the call that fails. They come in four pieces, and a fifth read finds the end.
static GIVEN: [(u8, Result<bool, ReadAll>); 7] = [
    (0, Ok(true)),
    (1, Err(ReadAll::ReadFault)),
    (2, Err(ReadAll::ReadFault)),
    (3, Err(ReadAll::ReadFault)),
    (4, Err(ReadAll::ReadFault)),
    (5, Err(ReadAll::ReadFault)),
    (6, Ok(true)),
];

fn gives_ten(alloc: Global, bad_call: u8) -> Result<bool, ReadAll> {
    let mut source = StdSource::new(Giver {
        left: 10,
        calls: 0,
        bad_call,
    });
    match read_all(alloc, &mut source, 10) {
        Ok(bytes) => Ok(bytes.as_slice() == b"xxxxxxxxxx".as_slice()),
        Err(fault) => Err(fault),
    }
}

#[test]
fn a_reader_fails_in_mid_stream(rt: HostRuntime) {
    for (bad_call, given) in &GIVEN {
        assert_eq!(rt;
            gives_ten(rt.alloc(), *bad_call),
            *given,
            "at call {bad_call}"
        );
    }
}

// Takes three bytes a call, but none, or fails, at one call; and fails at one flush.
#[derive(Drop)]
struct Taker {
    got: Vec<u8>,
    flushed: usize,
    empty_call: u8,
    bad_call: u8,
    calls: u8,
    bad_flush: bool,
}

impl Write for Taker {
    fn write(&mut self, bytes: &[u8]) -> io::Result<usize> {
        self.calls = self.calls.saturating_add(1);
        if self.calls == self.empty_call {
            return Ok(0);
        }
        if self.calls == self.bad_call {
            return Err(ErrorKind::BrokenPipe.into());
        }
        let count = bytes.len().min(3);
        self.got.extend_from_slice(&bytes[..count])?;
        Ok(count)
    }

    fn flush(&mut self) -> io::Result<()> {
        if self.bad_flush {
            return Err(ErrorKind::BrokenPipe.into());
        }
        self.flushed = self.got.len();
        Ok(())
    }
}

// The calls that take nothing and fail, whether the flush fails, and what the writer gets of `one ping`.
#[derive(Drop)]
struct Taking {
    empty_call: u8,
    bad_call: u8,
    bad_flush: bool,
    answer: Result<(), Outside>,
    got: &'static [u8],
    flushed: usize,
}

static TAKINGS: [Taking; 6] = [
    Taking {
        empty_call: 0,
        bad_call: 0,
        bad_flush: false,
        answer: Ok(()),
        got: b"one ping",
        flushed: 8,
    },
    Taking {
        empty_call: 1,
        bad_call: 0,
        bad_flush: false,
        answer: Err(Outside::Failed),
        got: b"",
        flushed: 0,
    },
    Taking {
        empty_call: 2,
        bad_call: 0,
        bad_flush: false,
        answer: Err(Outside::Failed),
        got: b"one",
        flushed: 0,
    },
    Taking {
        empty_call: 0,
        bad_call: 1,
        bad_flush: false,
        answer: Err(Outside::Failed),
        got: b"",
        flushed: 0,
    },
    Taking {
        empty_call: 0,
        bad_call: 3,
        bad_flush: false,
        answer: Err(Outside::Failed),
        got: b"one pi",
        flushed: 0,
    },
    Taking {
        empty_call: 0,
        bad_call: 0,
        bad_flush: true,
        answer: Err(Outside::Failed),
        got: b"one ping",
        flushed: 0,
    },
];

fn took(rt: &impl Abort, taker: &Taker, answer: Result<(), Outside>, row: &Taking) {
    assert_eq!(rt;
        (answer, taker.got.as_slice(), taker.flushed),
        (row.answer, row.got, row.flushed)
    );
}

fn take(rt: &impl Abort, alloc: Global, row: &Taking) {
    let mut taker = Taker {
        got: Vec::new(alloc),
        flushed: 0,
        empty_call: row.empty_call,
        bad_call: row.bad_call,
        calls: 0,
        bad_flush: row.bad_flush,
    };
    let answer = StdSink::new(&mut taker).write(b"one ping");
    took(rt, &taker, answer, row);
}

#[test]
fn a_writer_fails_in_mid_stream(rt: HostRuntime) {
    for row in &TAKINGS {
        take(&rt, rt.alloc(), row);
    }
}

static OUTSIDE_TEXTS: [(Outside, &str); 2] = [
    (Outside::NoMemory, "no memory was found"),
    (Outside::Failed, "the outside failed"),
];

static READ_TEXTS: [(ReadAll, &str); 3] = [
    (ReadAll::NoMemory, "no memory was found"),
    (ReadAll::ReadFault, "the source failed"),
    (ReadAll::TooLong { limit: 16 }, "more than 16 bytes came"),
];

fn says(rt: &impl Abort, said: &str, text: &str) {
    assert_eq!(rt; said, text);
}

#[test]
fn faults_have_texts(rt: HostRuntime) {
    for (fault, text) in &OUTSIDE_TEXTS {
        let said = fault.to_string(rt.alloc()).expect(&rt, FAILED);
        says(&rt, said.as_str(), text);
    }
    for (fault, text) in &READ_TEXTS {
        let said = fault.to_string(rt.alloc()).expect(&rt, FAILED);
        says(&rt, said.as_str(), text);
    }
}
