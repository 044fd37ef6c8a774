//! Messages read from bytes.
ghost use Rattle.std.specs.Prelude.{◌≡◌};
ghost use Rattle.salt_wire.specs.Limits as limits;
ghost use Rattle.salt_wire.specs.Decoding as spec;
ghost use Rattle.salt_value.specs.Readers.{Gives};
ghost use Rattle.salt_wire.specs.declared.fault.Misread.TheVariants.{NoMemory};

use crate::fault::Misread;
use crate::fields::{
    Parsed, byte_at, id_at, items_at, jid_at, kind_at, number_at, short_text_at, text_at, word_at,
};
use crate::message::Message;
use crate::parts::{entry_at, job_at};
use std::alloc::Global;

/// The bytes of the longest text of an answer.
const MOST_ANSWER_BYTES: usize = 1_000_000;

#[tactic(auto, unfolding(crate::specs::Decoding::pub_fields))]
fn pub_fields(alloc: Global, bytes: &[u8]) -> Parsed<'_, Message>
    ensures { spec.GivesField result (spec.pub_fields bytes.now) }
{
    let (seq, rest) = number_at(bytes)?;
    let (job, rest) = job_at(alloc, rest)?;
    Ok((Message::Pub { seq, job }, rest))
}

#[tactic(auto, unfolding(crate::specs::Decoding::have_fields))]
fn have_fields(bytes: &[u8]) -> Parsed<'_, Message>
    ensures { spec.GivesField result (spec.have_fields bytes.now) }
{
    let (jobs, rest) = number_at(bytes)?;
    Ok((Message::Have { jobs }, rest))
}

#[tactic(auto, unfolding(crate::specs::Decoding::up_fields))]
fn up_fields(alloc: Global, bytes: &[u8]) -> Parsed<'_, Message>
    ensures { spec.GivesField result (spec.up_fields bytes.now) }
{
    let (minion, rest) = match id_at(bytes) {
        Ok(found) => found,
        Err(fault) => return Err(fault),
    };
    let (n, rest) = number_at(rest)?;
    let (entry, rest) = entry_at(alloc, rest)?;
    Ok((Message::Up { minion, n, entry }, rest))
}

#[tactic(auto, unfolding(crate::specs::Decoding::up_have_fields))]
fn up_have_fields(bytes: &[u8]) -> Parsed<'_, Message>
    ensures { spec.GivesField result (spec.up_have_fields bytes.now) }
{
    let (minion, rest) = match id_at(bytes) {
        Ok(found) => found,
        Err(fault) => return Err(fault),
    };
    let (n, rest) = number_at(rest)?;
    Ok((Message::UpHave { minion, n }, rest))
}

#[tactic(auto, unfolding(crate::specs::Decoding::hello_fields))]
fn hello_fields(bytes: &[u8]) -> Parsed<'_, Message>
    ensures { spec.GivesField result (spec.hello_fields bytes.now) }
{
    let (id, rest) = match id_at(bytes) {
        Ok(found) => found,
        Err(fault) => return Err(fault),
    };
    Ok((Message::Hello { id }, rest))
}

#[tactic(auto, unfolding(crate::specs::Decoding::ask_publish_fields))]
fn ask_publish_fields(alloc: Global, bytes: &[u8]) -> Parsed<'_, Message>
    ensures { spec.GivesField result (spec.ask_publish_fields bytes.now) }
{
    let (kind, rest) = kind_at(bytes)?;
    let (tgt, rest) = text_at(alloc, rest)?;
    let (fun, rest) = word_at(alloc, rest)?;
    let (args, rest) = items_at(alloc, rest)?;
    let message = Message::AskPublish {
        kind,
        tgt,
        fun,
        args,
    };
    Ok((message, rest))
}

#[tactic(auto, unfolding(crate::specs::Decoding::ask_report_fields))]
fn ask_report_fields(bytes: &[u8]) -> Parsed<'_, Message>
    ensures { spec.GivesField result (spec.ask_report_fields bytes.now) }
{
    let (jid, rest) = match jid_at(bytes) {
        Ok(found) => found,
        Err(fault) => return Err(fault),
    };
    Ok((Message::AskReport { jid }, rest))
}

#[tactic(auto, unfolding(crate::specs::Decoding::ask_mine_fields))]
fn ask_mine_fields(alloc: Global, bytes: &[u8]) -> Parsed<'_, Message>
    ensures { spec.GivesField result (spec.ask_mine_fields bytes.now) }
{
    let (kind, rest) = kind_at(bytes)?;
    let (tgt, rest) = text_at(alloc, rest)?;
    let (fun, rest) = word_at(alloc, rest)?;
    Ok((Message::AskMine { kind, tgt, fun }, rest))
}

fn is_status(status: u8) -> bool
    ensures { result ≡ limits.is_status status }
{
    matches!(status, 0 | 1 | 10 | 11 | 12)
}

// The status of an answer.
#[tactic(auto, unfolding(crate::specs::Decoding::status_field))]
fn status_at(bytes: &[u8]) -> Parsed<'_, u8>
    ensures { spec.GivesField result (spec.status_field bytes.now) }
{
    let (status, rest) = byte_at(bytes)?;
    if !is_status(status) {
        return Err(Misread::BadField(bytes.len()));
    }
    Ok((status, rest))
}

#[tactic(auto, unfolding(crate::specs::Decoding::answer_fields))]
fn answer_fields(alloc: Global, bytes: &[u8]) -> Parsed<'_, Message>
    ensures { spec.GivesField result (spec.answer_fields bytes.now) }
{
    let (status, rest) = status_at(bytes)?;
    let (text, rest) = short_text_at(alloc, MOST_ANSWER_BYTES, rest)?;
    Ok((Message::Answer { status, text }, rest))
}

// The fields of a client's message.
#[tactic(auto, unfolding(crate::specs::Decoding::client_fields))]
fn client_fields(alloc: Global, kind: u8, bytes: &[u8]) -> Parsed<'_, Message>
    ensures { spec.GivesField result (spec.client_fields kind bytes.now) }
{
    match kind {
        0x10 => ask_publish_fields(alloc, bytes),
        0x11 => ask_report_fields(bytes),
        0x12 => Ok((Message::AskJobs, bytes)),
        0x13 => ask_mine_fields(alloc, bytes),
        0x14 => answer_fields(alloc, bytes),
        _ => Err(Misread::BadKind),
    }
}

// The fields of a message of this kind.
#[tactic(auto, unfolding(crate::specs::Decoding::message_fields))]
fn fields_of(alloc: Global, kind: u8, bytes: &[u8]) -> Parsed<'_, Message>
    ensures { spec.GivesField result (spec.message_fields kind bytes.now) }
{
    match kind {
        0x01 => pub_fields(alloc, bytes),
        0x02 => have_fields(bytes),
        0x03 => up_fields(alloc, bytes),
        0x04 => up_have_fields(bytes),
        0x05 => hello_fields(bytes),
        0x06 => Ok((Message::End, bytes)),
        _ => client_fields(alloc, kind, bytes),
    }
}

#[tactic(auto, unfolding(crate::specs::Decoding::kind_and_fields))]
fn kind_and_fields(alloc: Global, bytes: &[u8]) -> Parsed<'_, Message>
    ensures { spec.GivesField result (spec.kind_and_fields bytes.now) }
{
    match bytes {
        [] => Err(Misread::BadKind),
        [kind, rest @ ..] => fields_of(alloc, *kind, rest),
    }
}

// The message that these bytes are.
#[tactic(auto, unfolding(crate::specs::Decoding::message_at))]
pub fn message_at(alloc: Global, bytes: &[u8]) -> Result<Message, Misread>
    ensures { Gives NoMemory (λ x. x) result (spec.message_at bytes.now) }
{
    match bytes {
        [] => Err(Misread::BadVersion),
        [version, rest @ ..] => {
            if *version != 0x01 {
                return Err(Misread::BadVersion);
            }
            let (message, after) = kind_and_fields(alloc, rest)?;
            if !after.is_empty() {
                return Err(Misread::Trailing(after.len()));
            }
            Ok(message)
        }
    }
}
