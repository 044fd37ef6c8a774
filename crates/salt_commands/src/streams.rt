//! A source and a sink in memory that never fail, so that each status of an example has its cause.
use salt_outside::{Outside, Sink, Source};

/// The bytes of a script that were not read yet.
#[derive(Drop)]
pub struct Input<'a> {
    pub rest: &'a [u8],
}

impl<'a> Source for Input<'a> {
    ghost use Rattle.std.specs.Prelude.{Some};

    ghost left = { λ s. Some s.rest.now };

    ghost faults = { λ _. 0 };

    /// Reads as many bytes as there is room for, or as are left.
    fn read(&mut self, into: &mut [u8]) -> Result<usize, Outside> {
        let count = into.len().min(self.rest.len());
        let (front, rest) = self.rest.split_at(count);
        into[..count].copy_from_slice(front);
        self.rest = rest;
        Ok(count)
    }
}

/// The bytes that a run wrote.
#[derive(Drop)]
pub struct Output {
    pub bytes: Vec<u8>,
}

impl Sink for Output {
    ghost use Rattle.std.specs.Prelude.{Some};

    ghost held = { λ s. Some s.bytes.items };

    ghost faults = { λ _. 0 };

    /// Writes all the bytes, or none where memory is not found.
    fn write(&mut self, bytes: &[u8]) -> Result<(), Outside> {
        match self.bytes.extend_from_slice(bytes) {
            Ok(()) => Ok(()),
            Err(_) => Err(Outside::NoMemory),
        }
    }
}
