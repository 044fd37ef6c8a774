//! The public calls.
ghost use Rattle.std.specs.Prelude.{◌≡◌, IfOk};
ghost use Rattle.salt_value.specs.Reading.{Decodes};
ghost use Rattle.journal_records.specs.Spelling.{record_bytes};
ghost use Rattle.journal_records.specs.Limits.{RecordFits};
ghost use Rattle.journal_records.specs.RoundTrip.{AnswersRecord};

use crate::fault::RecordFault;
use crate::laws::readers_read_back;
use crate::reading::whole;
use crate::writing::put_deed;
use salt_wire::Deed;
use std::alloc::{AllocError, Global};

/// The bytes of the record of what a node did, each of its fields within its limits. The format is
/// this project's own.
pub fn write_record(alloc: Global, deed: &Deed) -> Result<Vec<u8>, AllocError>
    requires { RecordFits deed.now }
    ensures ok { IfOk result (λ bytes. bytes.items ≡ record_bytes deed.now) }
{
    let mut out = Vec::new(alloc);
    put_deed(&mut out, deed)?;
    Ok(out)
}

/// What a node did by the bytes of its record; `None` where the bytes are those of no record whose
/// fields are within their limits.
pub fn read_record(alloc: Global, bytes: &[u8]) -> Result<Option<Deed>, AllocError>
    // What is read is within its limits and it alone has these bytes; none where nothing has them.
    ensures ok { IfOk result (Decodes RecordFits record_bytes bytes.now) }
    // A record within its limits that has these bytes is read, unless memory runs out.
    ensures complete { AnswersRecord bytes.now result }
{
    readers_read_back();
    match whole(alloc, bytes) {
        Ok(deed) => Ok(Some(deed)),
        Err(RecordFault::NoMemory) => Err(AllocError),
        Err(RecordFault::NoRecord) => Ok(None),
    }
}
