//! Whole bodies and fields, with places counted from the front.
ghost use Rattle.std.specs.Prelude.{◌≡◌, ◌≤◌, ◌-◌, Ok, Err, IfOk, IfErr, length};
ghost use Rattle.salt_value.specs.Readers.{Answers};
ghost use Rattle.salt_wire.specs.declared.fault.WireFault.TheVariants as faults;
ghost use Rattle.salt_wire.specs.Decoding.{wire_fault, field_at, decoding, id_field};

use crate::fault::{Misread, WireFault};
use crate::fields::{Parsed, id_at};
use crate::message::Message;
use crate::reading::message_at;
use salt_value::MinionId;
use std::alloc::Global;

// A fault of a body of so many bytes by its place from the front.
fn place(misread: Misread, all: usize) -> WireFault
    ensures { result ≡ wire_fault all misread }
{
    match misread {
        Misread::NoMemory => WireFault::NoMemory,
        Misread::BadVersion => WireFault::BadVersion,
        Misread::BadKind => WireFault::BadKind,
        Misread::BadField(left) => WireFault::BadField {
            at: all.saturating_sub(left),
        },
        Misread::Trailing(left) => WireFault::Trailing {
            at: all.saturating_sub(left),
        },
    }
}

// The message that this body is.
#[tactic(auto, unfolding(crate::specs::Decoding::decoding))]
pub fn whole(alloc: Global, body: &[u8]) -> Result<Message, WireFault>
    ensures { Answers faults.NoMemory result (decoding body.now) }
{
    match message_at(alloc, body) {
        Ok(message) => Ok(message),
        Err(misread) => Err(place(misread, body.len())),
    }
}

// The id that begins at a place, and the place after it.
#[tactic(auto, unfolding(crate::specs::Decoding::field_at))]
pub fn id_from(body: &[u8], at: usize) -> Result<(MinionId, usize), WireFault>
    requires { at ≤ length body.now }
    ensures { result ≡ field_at id_field body.now at }
{
    match id_at(&body[at..]) {
        Ok(found) => Ok((found.0, body.len().saturating_sub(found.1.len()))),
        Err(misread) => Err(place(misread, body.len())),
    }
}

// What was read of a body at some place, and the place after it.
pub fn placed_after<T>(body: &[u8], read: Parsed<'_, T>) -> Result<(T, usize), WireFault>
    ensures ok { IfOk read.entry (λ x. result ≡ Ok (x.0, length body.now - length x.1.now)) }
    ensures err { IfErr read.entry (λ e. result ≡ Err (wire_fault (length body.now) e)) }
{
    match read {
        Ok((found, rest)) => Ok((found, body.len().saturating_sub(rest.len()))),
        Err(misread) => Err(place(misread, body.len())),
    }
}
