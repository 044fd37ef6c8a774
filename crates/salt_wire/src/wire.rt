//! The public calls.
ghost use Rattle.std.specs.Prelude.{◌≡◌, ◌≤◌, ◌++◌, length, IfOk, IfErr, OnOk, OnErr};
ghost use Rattle.salt_value.specs.Id.{IsId};
ghost use Rattle.salt_value.specs.Word.{IsWord};
ghost use Rattle.salt_wire.specs.Spelling as spelling;
ghost use Rattle.salt_wire.specs.Limits.{JobFits, EntryFits, Within};
ghost use Rattle.salt_value.specs.Readers.{Answers};
ghost use Rattle.salt_wire.specs.Decoding.{field_at, decoding, id_field, word_field, job_field, entry_field};
ghost use Rattle.salt_wire.specs.FirstFault as wrong;
ghost use Rattle.salt_wire.specs.FirstFault.{FirstWrong, FieldWrong, FaultAt, HasFirstFault, AnswersFirstFault, HasFaultAt, AnswersFaultAt, job_fields};
ghost use Rattle.salt_wire.specs.RoundTrip.{Spans, AnswersMessage, AnswersPart, AnswersPartIfMemory};
ghost use Rattle.salt_wire.specs.declared.fault.WireFault.TheVariants as faults;

use crate::fault::WireFault;
use crate::fields::word_at;
use crate::laws::{first_fault_is_met, messages_read_back};
use crate::message::{Entry, Job, Message};
use crate::parts::{entry_at, job_at};
use crate::whole::{id_from, placed_after, whole};
use crate::writing::{put_entry, put_id, put_job, put_message, put_word, whole_or_undone};
use salt_value::{MinionId, Word};
use std::alloc::{AllocError, Global};

/// The message that this body is, or its first fault from the left.
pub fn decode(alloc: Global, body: &[u8]) -> Result<Message, WireFault>
    // What is decoded is within its limits and has this body.
    ensures ok { IfOk result (λ message. Within message × (body.now ≡ spelling.body message)) }
    // A message within its limits that has this body is decoded, unless memory runs out.
    ensures complete { AnswersMessage body.now result }
    // Any fault but want of memory is the first of the body.
    ensures fault { HasFirstFault body.now result }
    // The first fault of the body is answered, unless memory runs out.
    ensures first { AnswersFirstFault body.now result }
    // All of this, with the faults and their places, as a function.
    ensures exact { Answers faults.NoMemory result (decoding body.now) }
{
    messages_read_back();
    first_fault_is_met();
    whole(alloc, body)
}

/// Appends the body of a message that is within its limits. An error leaves all as it was.
pub fn encode(message: &Message, out: &mut Vec<u8>) -> Result<(), AllocError>
    requires { Within message.now }
    ensures ok { OnOk result (out.new.items ≡ out.old.items ++ spelling.body message.now) }
    ensures err { OnErr result (out.new.items ≡ out.old.items) }
{
    let before = out.len();
    let written = put_message(out, message);
    whole_or_undone(out, before, written)
}

/// Appends an id, after the byte of its length. An error leaves all as it was.
pub fn write_id(id: &MinionId, out: &mut Vec<u8>) -> Result<(), AllocError>
    ensures ok { OnOk result (out.new.items ≡ out.old.items ++ spelling.id id.now) }
    ensures err { OnErr result (out.new.items ≡ out.old.items) }
{
    let before = out.len();
    let written = put_id(out, id);
    whole_or_undone(out, before, written)
}

/// Appends a word, after the two bytes of its length. An error leaves all as it was.
pub fn write_word(word: &Word, out: &mut Vec<u8>) -> Result<(), AllocError>
    ensures ok { OnOk result (out.new.items ≡ out.old.items ++ spelling.word word.now) }
    ensures err { OnErr result (out.new.items ≡ out.old.items) }
{
    let before = out.len();
    let written = put_word(out, word);
    whole_or_undone(out, before, written)
}

/// Appends a job that is within its limits. An error leaves all as it was.
pub fn write_job(job: &Job, out: &mut Vec<u8>) -> Result<(), AllocError>
    requires { JobFits job.now }
    ensures ok { OnOk result (out.new.items ≡ out.old.items ++ spelling.job job.now) }
    ensures err { OnErr result (out.new.items ≡ out.old.items) }
{
    let before = out.len();
    let written = put_job(out, job);
    whole_or_undone(out, before, written)
}

/// Appends an entry that is within its limits. An error leaves all as it was.
pub fn write_entry(entry: &Entry, out: &mut Vec<u8>) -> Result<(), AllocError>
    requires { EntryFits entry.now }
    ensures ok { OnOk result (out.new.items ≡ out.old.items ++ spelling.entry entry.now) }
    ensures err { OnErr result (out.new.items ≡ out.old.items) }
{
    let before = out.len();
    let written = put_entry(out, entry);
    whole_or_undone(out, before, written)
}

/// The id that begins at a place of a body, and the place after it; else `BadField` there.
pub fn read_id(body: &[u8], at: usize) -> Result<(MinionId, usize), WireFault>
    requires { at ≤ length body.now }
    // What is read is an id and stands between the two places.
    ensures ok { IfOk result (λ x. IsId x.0 × Spans spelling.id body.now at x) }
    // An id that stands there is read.
    ensures complete { AnswersPart spelling.id IsId body.now at result }
    // Any fault is that of the field there.
    ensures fault { IfErr result (FaultAt (FieldWrong wrong.Id) body.now at) }
    // The fault of the field there is answered.
    ensures first { (e : WireFault) → FaultAt (FieldWrong wrong.Id) body.now at e → result ≡ Err e }
    // All of this, with the faults and their places, as a function.
    ensures exact { result ≡ field_at id_field body.now at }
{
    messages_read_back();
    first_fault_is_met();
    id_from(body, at)
}

/// The word that begins at a place of a body, and the place after it; else `BadField` there.
pub fn read_word(alloc: Global, body: &[u8], at: usize) -> Result<(Word, usize), WireFault>
    requires { at ≤ length body.now }
    // What is read is within its limits and stands between the two places.
    ensures ok { IfOk result (λ x. IsWord x.0 × Spans spelling.word body.now at x) }
    // One within its limits that stands there is read, unless memory runs out.
    ensures complete { AnswersPartIfMemory spelling.word IsWord body.now at result }
    // Any fault but want of memory is the first one there.
    ensures fault { HasFaultAt (FieldWrong wrong.Word) body.now at result }
    // The first fault there is answered, unless memory runs out.
    ensures first { AnswersFaultAt (FieldWrong wrong.Word) body.now at result }
    // All of this, with the faults and their places, as a function.
    ensures exact { Answers faults.NoMemory result (field_at word_field body.now at) }
{
    messages_read_back();
    first_fault_is_met();
    placed_after(body, word_at(alloc, &body[at..]))
}

/// The job that begins at a place of a body, and the place after it; else `BadField` at the first
/// byte of its first field that isn't whole or breaks its rule.
pub fn read_job(alloc: Global, body: &[u8], at: usize) -> Result<(Job, usize), WireFault>
    requires { at ≤ length body.now }
    // What is read is within its limits and stands between the two places.
    ensures ok { IfOk result (λ x. JobFits x.0 × Spans spelling.job body.now at x) }
    // One within its limits that stands there is read, unless memory runs out.
    ensures complete { AnswersPartIfMemory spelling.job JobFits body.now at result }
    // Any fault but want of memory is the first one there.
    ensures fault { HasFaultAt (FirstWrong FieldWrong job_fields) body.now at result }
    // The first fault there is answered, unless memory runs out.
    ensures first { AnswersFaultAt (FirstWrong FieldWrong job_fields) body.now at result }
    // All of this, with the faults and their places, as a function.
    ensures exact { Answers faults.NoMemory result (field_at job_field body.now at) }
{
    messages_read_back();
    first_fault_is_met();
    placed_after(body, job_at(alloc, &body[at..]))
}

/// The entry that begins at a place of a body, and the place after it; else `BadField` at the first
/// byte of its first field that isn't whole or breaks its rule.
pub fn read_entry(alloc: Global, body: &[u8], at: usize) -> Result<(Entry, usize), WireFault>
    requires { at ≤ length body.now }
    // What is read is within its limits and stands between the two places.
    ensures ok { IfOk result (λ x. EntryFits x.0 × Spans spelling.entry body.now at x) }
    // One within its limits that stands there is read, unless memory runs out.
    ensures complete { AnswersPartIfMemory spelling.entry EntryFits body.now at result }
    // Any fault but want of memory is the first one there.
    ensures fault { HasFaultAt (FieldWrong wrong.Entry) body.now at result }
    // The first fault there is answered, unless memory runs out.
    ensures first { AnswersFaultAt (FieldWrong wrong.Entry) body.now at result }
    // All of this, with the faults and their places, as a function.
    ensures exact { Answers faults.NoMemory result (field_at entry_field body.now at) }
{
    messages_read_back();
    first_fault_is_met();
    placed_after(body, entry_at(alloc, &body[at..]))
}
