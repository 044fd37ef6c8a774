//! Frames by hand, streams cut at each of their bytes, and lengths at the limit.
use salt_frame::{FeedFault, FrameBuf, any_cutting, frames_are_prefix_free, one_reading};
use std::alloc::Global;
use std::process::Abort;

// Pieces that are fed, the answer to the last one, the bodies that are then taken, and the bytes left after them.
#[derive(Drop)]
struct Row {
    pieces: &'static [&'static [u8]],
    answer: Result<(), FeedFault>,
    bodies: &'static [&'static [u8]],
    rest: usize,
}

const TOO_LARGE: Result<(), FeedFault> = Err(FeedFault::TooLarge { length: 1_048_577 });

static ROWS: [Row; 14] = [
    Row {
        pieces: &[],
        answer: Ok(()),
        bodies: &[],
        rest: 0,
    },
    Row {
        pieces: &[b""],
        answer: Ok(()),
        bodies: &[],
        rest: 0,
    },
    Row {
        pieces: &[b"\0\0\0\x03abc"],
        answer: Ok(()),
        bodies: &[b"abc"],
        rest: 0,
    },
    Row {
        pieces: &[b"\0\0\0\x01a\0\0\0\x02bc\0\0\0"],
        answer: Ok(()),
        bodies: &[b"a", b"bc"],
        rest: 3,
    },
    // Empty bodies.
    Row {
        pieces: &[b"\0\0\0\0\0\0\0\0"],
        answer: Ok(()),
        bodies: &[b"", b""],
        rest: 0,
    },
    // A length and a body in pieces.
    Row {
        pieces: &[b"\0", b"\0\0", b"\x03", b"", b"a", b"bc\0"],
        answer: Ok(()),
        bodies: &[b"abc"],
        rest: 1,
    },
    Row {
        pieces: &[b"\0\0\x01\0a"],
        answer: Ok(()),
        bodies: &[],
        rest: 5,
    },
    // The greatest length, and one more.
    Row {
        pieces: &[b"\0\x10\0\0"],
        answer: Ok(()),
        bodies: &[],
        rest: 4,
    },
    Row {
        pieces: &[b"\0\x10\0\x01"],
        answer: TOO_LARGE,
        bodies: &[],
        rest: 4,
    },
    Row {
        pieces: &[b"\xff\xff\xff\xff"],
        answer: Err(FeedFault::TooLarge {
            length: 4_294_967_295,
        }),
        bodies: &[],
        rest: 4,
    },
    // Frames before it can be taken, and all bytes after it are dropped.
    Row {
        pieces: &[b"\0\0\0\x01a\0\0\0\0\0\x10\0\x01\0\0\0\x01b"],
        answer: TOO_LARGE,
        bodies: &[b"a", b""],
        rest: 4,
    },
    // A length over the limit in pieces.
    Row {
        pieces: &[b"\0\0\0\x01a\0\x10\0", b"\x01b"],
        answer: TOO_LARGE,
        bodies: &[b"a"],
        rest: 4,
    },
    // Each later piece is answered the same, an empty one too.
    Row {
        pieces: &[b"\0\x10\0\x01", b"\0\0\0\x01a"],
        answer: TOO_LARGE,
        bodies: &[],
        rest: 4,
    },
    Row {
        pieces: &[b"\0\0\0\x01a\0\x10\0\x01", b""],
        answer: TOO_LARGE,
        bodies: &[b"a"],
        rest: 4,
    },
];

// Feeds the pieces, and gives the last answer.
fn fed(buf: &mut FrameBuf, pieces: &[&[u8]]) -> Result<(), FeedFault> {
    let mut answer = Ok(());
    for piece in pieces {
        answer = buf.feed(piece);
    }
    answer
}

fn is_next(buf: &mut FrameBuf, body: &[u8]) -> bool {
    match buf.next() {
        Some(next) => next == body,
        None => false,
    }
}

// Whether these bodies are taken, and no other after them.
fn gives(buf: &mut FrameBuf, bodies: &[&[u8]]) -> bool {
    for body in bodies {
        if !is_next(buf, body) {
            return false;
        }
    }
    buf.next().is_none()
}

fn holds(alloc: Global, row: &Row) -> bool {
    let mut buf = FrameBuf::new(alloc);
    fed(&mut buf, row.pieces) == row.answer && gives(&mut buf, row.bodies) && buf.rest() == row.rest
}

#[test]
fn frames_of_a_stream_in_pieces(rt: HostRuntime) {
    for (i, row) in ROWS.iter().enumerate() {
        assert!(rt; holds(rt.alloc(), row), "row {i}");
    }
}

static STREAM: [u8; 19] = *b"\0\0\0\x02ab\0\0\0\0\0\0\0\x03cde\0\0";

fn is_right_cut_at(alloc: Global, at: usize) -> bool {
    let (first, second) = STREAM.split_at(at.min(STREAM.len()));
    let mut buf = FrameBuf::new(alloc);
    fed(&mut buf, &[first, second]) == Ok(())
        && gives(&mut buf, &[b"ab", b"", b"cde"])
        && buf.rest() == 2
}

#[test]
fn a_stream_cut_at_each_of_its_bytes(rt: HostRuntime) {
    for at in 0..20 {
        assert!(rt; is_right_cut_at(rt.alloc(), at), "cut at {at}");
    }
}

// Feeds one byte, and gives the length of the body that is then taken.
fn taken_after(buf: &mut FrameBuf, byte: u8) -> Result<Option<usize>, FeedFault> {
    buf.feed(&[byte])?;
    Ok(buf.next().map(|body| body.len()))
}

// At which of its bytes a body of the stream is whole, and its length.
fn whole_at(i: usize) -> Option<usize> {
    match i {
        5 => Some(2),
        9 => Some(0),
        16 => Some(3),
        _ => None,
    }
}

fn takes_bytes(rt: &impl Abort, buf: &mut FrameBuf) {
    for (i, byte) in STREAM.iter().enumerate() {
        assert_eq!(rt; taken_after(buf, *byte), Ok(whole_at(i)), "byte {i}");
    }
    assert_eq!(rt; buf.rest(), 2);
}

#[test]
fn pieces_of_one_byte(rt: HostRuntime) {
    let mut buf = FrameBuf::new(rt.alloc());
    takes_bytes(&rt, &mut buf);
}

// Feeds the length of a body of the greatest length, and the body of zeros in two halves.
fn greatest(alloc: Global) -> Result<usize, FeedFault> {
    let mut buf = FrameBuf::new(alloc);
    buf.feed(&[0, 16, 0, 0])?;
    let half = vec![in alloc; 0; 524_288].map_err(|_| FeedFault::NoMemory)?;
    buf.feed(&half)?;
    buf.feed(&half)?;
    Ok(match buf.next() {
        Some(body) => body.len(),
        None => 0,
    })
}

#[test]
fn a_body_of_the_greatest_length(rt: HostRuntime) {
    assert!(rt; greatest(rt.alloc()) == Ok(1_048_576));
}

fn takes_after_the_limit(rt: &impl Abort, buf: &mut FrameBuf) {
    let first = buf.feed(b"\0\0\0\x01a\0\0\0\x01b\0\x10\0\x01c");
    let taken = is_next(buf, b"a");
    let second = buf.feed(b"\0\0\0\x01d");
    let others = gives(buf, &[b"b"]);
    assert!(rt; first == TOO_LARGE && second == TOO_LARGE && taken && others && buf.rest() == 4);
}

#[test]
fn frames_before_a_length_over_the_limit_are_taken_after_it(rt: HostRuntime) {
    let mut buf = FrameBuf::new(rt.alloc());
    takes_after_the_limit(&rt, &mut buf);
}

#[test]
fn laws_of_frames_are_called() {
    any_cutting();
    one_reading();
    frames_are_prefix_free();
}
