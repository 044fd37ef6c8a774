//! The buffer of a stream's bytes.
ghost use Rattle.std.specs.Prelude.{◌≡◌, ◌⊎◌, [], length, None, OnOk, IsErrOf};
ghost use Rattle.std.specs.Borrow.{sem};
ghost use Rattle.std.specs.Io.BufRead.{Rests};
ghost use Rattle.salt_frame.specs.Buffer.{KeepsPiece, Feeds, HoldsOver, AnswersOver, AnswersOverAgain, LendsNext};
ghost use Rattle.salt_frame.specs.contracts.buffer.FrameBuf.{the_row};

use crate::FeedFault;
use crate::front::{LENGTH_SIZE, length_of, scan};
use std::alloc::Global;
use std::marker::Model;

/// The bytes of a stream from the first frame on that was not taken, up to a length over the limit.
///
/// Bytes of frames that were taken are dropped only where they are at least half of all bytes, before the next piece is
/// added. So each such drop moves at most as many bytes as it drops, and all of them together at most as many as the
/// stream has; with the growth of a `Vec` each byte is moved a constant number of times on average. No contract speaks of it.
#[derive(Debug, Drop)]
pub struct FrameBuf {
    bytes: Vec<u8>,
    /// Where the first frame that was not taken begins.
    start: usize,
    /// Where the frames end that are known to be whole.
    ready: usize,
    over: Option<u32>,
}

impl Model for FrameBuf {
    ghost use Rattle.salt_frame.specs.Buffer.{BufferState, buffer_code};

    ghost Value = { BufferState };

    ghost coded = { buffer_code };

    ghost use Rattle.salt_frame.specs.BufferFields.{view_of, IsInside};

    ghost view = { view_of };

    ghost invariant = { IsInside };
}

impl FrameBuf {
    /// A buffer that no byte was fed to. It takes no memory.
    pub fn new(alloc: Global) -> FrameBuf
        ensures { result ≡ record { kept = []; over = None } }
    {
        FrameBuf {
            bytes: Vec::new(alloc),
            start: 0,
            ready: 0,
            over: None,
        }
    }

    /// Takes the next piece of the stream, of any size. `TooLarge` comes exactly where a frame's length in the stream is
    /// over 1,048,576: the frames before it can still be taken, all bytes after it are dropped, and each later feed
    /// answers it again. `NoMemory` leaves the buffer as it was.
    pub fn feed(&mut self, piece: &[u8]) -> Result<(), FeedFault>
        ensures ok { OnOk result (KeepsPiece self.old piece.now self.new) }
        ensures stream { IsErrOf result FeedFault.NoMemory ⊎ Feeds self.old piece.now self.new }
        ensures too_large { HoldsOver self.old piece.now self.new result }
        ensures again { AnswersOverAgain self.old self.new result }
        ensures memory { IsErrOf result FeedFault.NoMemory → self.new ≡ self.old }
        ensures complete { AnswersOver self.old piece.now result }
    {
        if let Some(length) = self.over {
            return Err(FeedFault::TooLarge { length });
        }
        self.compact();
        if self.bytes.extend_from_slice(piece).is_err() {
            return Err(FeedFault::NoMemory);
        }
        let (ready, over) = scan(&self.bytes, self.ready);
        self.ready = ready;
        if let Some(length) = over {
            self.bytes.truncate(ready + LENGTH_SIZE);
            self.over = Some(length);
            return Err(FeedFault::TooLarge { length });
        }
        Ok(())
    }

    /// Lends the body of the next frame, which counts as taken; None exactly where no whole frame is left. It takes no
    /// memory.
    pub fn next(&mut self) -> Option<&[u8]>
        ensures* after { sem 𝓛 (Rests the_row self.entry (LendsNext self.old result)) }
    {
        if self.start == self.ready {
            return None;
        }
        let from = self.start + LENGTH_SIZE;
        let to = from + length_of(&self.bytes[self.start..]) as usize;
        self.start = to;
        Some(&self.bytes[from..to])
    }

    /// How many bytes are kept after the frames that were taken. Of a length over the limit its four bytes count, and
    /// none after them.
    pub fn rest(&self) -> usize
        ensures { result ≡ length self.now.kept }
    {
        self.bytes.len() - self.start
    }

    // Drops the bytes of taken frames where they are at least half of all.
    fn compact(&mut self)
        ensures { self.new ≡ self.old }
    {
        let kept = self.bytes.len() - self.start;
        if kept <= self.start {
            self.bytes.copy_within(self.start.., 0);
            self.bytes.truncate(kept);
            self.ready -= self.start;
            self.start = 0;
        }
    }
}
