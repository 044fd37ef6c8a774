//! One example: a script, and what its run must write.
ghost use Rattle.std.specs.Prelude.{◌≡◌};
ghost use Rattle.salt_commands.specs.Endings.{IsExampleStatus, TellsText, TellsRefusal, TellsTooLong};

use crate::streams::{Input, Output};
use salt_replay::run_replay;
use std::alloc::Global;

/// How an example ended.
#[derive(Clone, Copy, Debug, PartialEq, Eq)]
pub struct Ending {
    /// The status of its run.
    pub code: u8,
    /// Whether the run wrote what was wanted, and no more.
    pub is_as_wanted: bool,
}

/// Runs a script, and compares what it writes with what is wanted. The status is that of `run_replay`: 0 a whole run, 1 want of memory,
/// 3 a text that is no script, and 12 one of over 16,777,216 bytes.
pub fn run_example(alloc: Global, script: &[u8], wanted: &[u8]) -> Ending
    ensures status { IsExampleStatus result.code }
    ensures text { TellsText script.now wanted.now result }
    ensures refused { TellsRefusal script.now wanted.now result }
    ensures too_long { TellsTooLong script.now wanted.now result }
{
    let mut input = Input { rest: script };
    let mut output = Output {
        bytes: Vec::new(alloc),
    };
    let status = run_replay(alloc, &mut input, &mut output);
    Ending {
        code: status.code,
        is_as_wanted: output.bytes.as_slice() == wanted,
    }
}
