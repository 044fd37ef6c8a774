//! Laws of the bytes, as the clauses of functions that do nothing.
ghost use Rattle.journal_records.specs.Decoding.{AreRecordsRead, AreRecordsWritten};
ghost use Rattle.journal_records.specs.RoundTrip.{HasOneRecord};

use crate::fault::RecordFault;
use salt_value::{numbers_read_back, values_read_back};
use salt_wire::messages_read_back;

/// A law: bytes are those of one record at most.
pub fn records_read_back()
    ensures unique { HasOneRecord }
{
    readers_read_back();
}

// What is written is read again, and what is read was written so.
pub fn readers_read_back()
    ensures written { AreRecordsRead }
    ensures read { AreRecordsWritten }
{
    numbers_read_back::<RecordFault>();
    values_read_back();
    messages_read_back();
}
