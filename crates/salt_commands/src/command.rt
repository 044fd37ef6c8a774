//! The command that the words of the command line are.
ghost use Rattle.std.specs.Prelude.{◌≡◌, Some};
ghost use Rattle.salt_replay.specs.Replay.{command, IsReplayStatus, IsNoCommand, ReadsScript, CountsReads, WritesScript, TellsLine, CountsWrites};
ghost use Rattle.salt_replay.specs.Output.{PrintsScripts};
ghost use Rattle.salt_commands.specs.Words.{words_read, HasNoCommand, IdlesUnread};

use crate::Unread;
use salt_outside::{Sink, Source};
use salt_replay::{Status, salt_main};
use salt_value::Text;
use std::alloc::Global;

/// Runs the command that the words are: the one word `replay`. A word that is no UTF-8 is in no command, so that it gives what no words
/// give, status 2 with its line. Words that were not read for another cause give status 1, and leave the source and the sink as they
/// were. The statuses are this project's own, as those of `salt_main`.
pub fn run_command<S: Source, K: Sink>(
    alloc: Global,
    words: &Result<Vec<Text>, Unread>,
    source: &mut S,
    sink: &mut K,
) -> Status
    ensures status { words_read words.now ≡ Some command → IsReplayStatus result.code }
    ensures left { ReadsScript S.left source.old source.new result.code }
    ensures reads { CountsReads S.faults source.old source.new result.code }
    ensures text { WritesScript S.left source.old K.held sink.old sink.new result.code }
    ensures line { TellsLine S.left source.old K.held K.faults sink.old sink.new result.code }
    ensures writes { CountsWrites K.faults sink.old sink.new result.code }
    ensures no_command { HasNoCommand words.now → IsNoCommand K.held sink.old sink.new result.code }
    ensures source { HasNoCommand words.now → source.new ≡ source.old }
    ensures unread { IdlesUnread words.now source.old source.new sink.old sink.new result.code }
    ensures printed { PrintsScripts S.left source.old K.held sink.old sink.new result.code }
{
    match words {
        Ok(words) => salt_main(alloc, words.as_slice(), source, sink),
        Err(Unread::NotUtf8) => salt_main(alloc, &[], source, sink),
        Err(Unread::NoMemory | Unread::Other) => Status { code: 1 },
    }
}
