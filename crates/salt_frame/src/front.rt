//! What stands at the front of a stream.
ghost use Rattle.std.specs.Prelude.{◌≡◌, ◌≤◌, ◌-◌, take, drop, length};
ghost use Rattle.salt_frame.specs.Frames.{length_at, Ends};
ghost use Rattle.salt_frame.specs.Fronts.{IsFront};
ghost use Rattle.salt_frame.specs.BufferFields.{AreFrames};

/// The most bytes that a body has.
const LIMIT: usize = 1_048_576;

/// How many bytes a length takes.
pub const LENGTH_SIZE: usize = 4;

/// What stands at the front of a stream.
#[derive(Clone, Copy)]
enum Front {
    Partial,
    /// A length over the limit.
    Over(u32),
    /// A whole frame, which has this many bytes.
    Frame(usize),
}

/// The length that the first four bytes say.
pub fn length_of(bytes: &[u8]) -> u32
    requires { 4 ≤ length bytes.now }
    ensures { result ≡ length_at bytes.now }
{
    u32::from_be_bytes([bytes[0], bytes[1], bytes[2], bytes[3]])
}

fn front_of(bytes: &[u8]) -> Front
    ensures { IsFront bytes.now result }
{
    if bytes.len() < LENGTH_SIZE {
        return Front::Partial;
    }
    let length = length_of(bytes);
    let size = length as usize;
    if size > LIMIT {
        return Front::Over(length);
    }
    if bytes.len() < size + LENGTH_SIZE {
        Front::Partial
    } else {
        Front::Frame(size + LENGTH_SIZE)
    }
}

/// Where the whole frames end that stand from a place on, and the length over the limit that comes then.
pub fn scan(bytes: &[u8], from: usize) -> (usize, Option<u32>)
    requires { from ≤ length bytes.now }
    ensures within { (from ≤ result.0) × (result.0 ≤ length bytes.now) }
    ensures frames { AreFrames (take (result.0 - from) (drop from bytes.now)) }
    ensures last { Ends result.1 (drop result.0 bytes.now) }
{
    let mut at = from;
    loop {
        match front_of(&bytes[at..]) {
            Front::Partial => return (at, None),
            Front::Over(length) => return (at, Some(length)),
            Front::Frame(size) => at += size,
        }
    }
}
