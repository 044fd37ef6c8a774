//! All that a source has left, up to a limit.
ghost use Rattle.std.specs.Prelude.{◌≡◌, ◌≤◌, ℕ, length, IfOk, OnOk, IsErrOf};
ghost use Rattle.salt_outside.specs.declared.read.ReadAll.TheVariants.{TooLong};
ghost use Rattle.salt_outside.specs.Streams.{left_before, HasMoreThan, HasAtMost, IsAtEnd, IsRest};
ghost use Rattle.salt_outside.specs.Causes.{CountsFailures};

use crate::{Outside, Source};
use std::alloc::Global;
use thiserror::Error;

/// Bytes that one read asks for.
const PIECE: usize = 8192;

/// Why `read_all` gave no bytes.
#[derive(Clone, Copy, Debug, Error, PartialEq, Eq)]
pub enum ReadAll {
    /// No memory was found.
    #[error("no memory was found")]
    NoMemory,
    /// The source failed, and has counted that.
    #[error("the source failed")]
    ReadFault,
    /// More than `limit` bytes came.
    #[error("more than {limit} bytes came")]
    TooLong { limit: usize },
}

/// All the bytes that the source has left, where they are at most `limit` bytes. Any limit will do.
///
/// After an error the bytes that were read are gone, and the source has left what comes after them.
#[tactic(auto, using(crate::proofs::Parts::rest_one, crate::proofs::Parts::rest_two))]
pub fn read_all<S: Source>(alloc: Global, source: &mut S, limit: usize) -> Result<Vec<u8>, ReadAll>
    ensures ok { IfOk result (λ v. length v.items ≤ limit) }
    ensures bytes { IfOk result (λ v. S.left source.old ≡ left_before v.items (S.left source.new)) }
    ensures end { OnOk result (IsAtEnd (S.left source.new)) }
    ensures left { IsRest (S.left source.old) (S.left source.new) }

    // Over a source that tells: Ok only where at most `limit` bytes were left, TooLong only where more were. So each
    // comes exactly where it should, but for faults and want of memory.
    ensures fits { OnOk result (HasAtMost limit (S.left source.old)) }
    ensures too_long { IsErrOf result (TooLong limit) → HasMoreThan limit (S.left source.old) }
    ensures limit { (n : ℕ) → IsErrOf result (TooLong n) → n ≡ limit }

    // The answer is ReadFault exactly where the source failed. After want of memory and TooLong its count is as before.
    ensures faults { CountsFailures S.faults ReadAll.ReadFault source.old source.new result }
{
    let mut bytes = Vec::new(alloc);
    let mut piece = [0; PIECE];
    while bytes.len() <= limit {
        let count = match source.read(&mut piece) {
            Ok(count) => count,
            Err(Outside::NoMemory) => return Err(ReadAll::NoMemory),
            Err(Outside::Failed) => return Err(ReadAll::ReadFault),
        };
        if count == 0 {
            return Ok(bytes);
        }
        if bytes.extend_from_slice(&piece[..count]).is_err() {
            return Err(ReadAll::NoMemory);
        }
    }
    Err(ReadAll::TooLong { limit })
}
