//! Laws of the bytes, as the clauses of functions that do nothing.
ghost use Rattle.salt_wire.specs.Spelling as spelling;
ghost use Rattle.salt_wire.specs.Limits.{JobFits, EntryFits, Within};
ghost use Rattle.salt_value.specs.Id.{IsId};
ghost use Rattle.salt_value.specs.Word.{IsWord};
ghost use Rattle.salt_wire.specs.Decoding.{id_field, word_field, job_field, entry_field, kind_and_fields, decoding};
ghost use Rattle.salt_wire.specs.FirstFault as wrong;
ghost use Rattle.salt_wire.specs.FirstFault.{FirstWrong, FieldWrong, IsTold, MeetsFirstFaults, MeetsEachFirstFault, job_fields};
ghost use Rattle.salt_wire.specs.RoundTrip.{IsReadBack};

use crate::fault::Misread;
use salt_value::{numbers_read_back, texts_read_back, values_read_back};

/// A law: ids, words, jobs and entries within their limits, and messages after their version, that are
/// written are read again, whatever follows them, and what is read was written so.
pub fn messages_read_back()
    ensures ids { IsReadBack spelling.id IsId id_field }
    ensures words { IsReadBack spelling.word IsWord word_field }
    ensures entries { IsReadBack spelling.entry EntryFits entry_field }
    ensures jobs { IsReadBack spelling.job JobFits job_field }
    ensures messages { IsReadBack spelling.kind_and_fields Within kind_and_fields }
{
    numbers_read_back::<Misread>();
    texts_read_back::<Misread>();
    values_read_back();
}

// The fault that decoding meets is the first one of the body, and the first one is met; so it is with the fields.
pub fn first_fault_is_met()
    ensures fault { MeetsFirstFaults decoding }
    ensures first { MeetsEachFirstFault decoding }
    ensures ids { IsTold (FieldWrong wrong.Id) id_field }
    ensures words { IsTold (FieldWrong wrong.Word) word_field }
    ensures entries { IsTold (FieldWrong wrong.Entry) entry_field }
    ensures jobs { IsTold (FirstWrong FieldWrong job_fields) job_field }
{
    numbers_read_back::<Misread>();
    texts_read_back::<Misread>();
    values_read_back();
}
