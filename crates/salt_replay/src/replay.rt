//! The commands: a script is read, and the text of its run written.
ghost use Rattle.std.specs.Prelude.{◌≡◌, ◌≢◌, ◌↔◌, codes, IsTrue, IfOk, IfErr, OnOk, OnErr};
ghost use Rattle.salt_outside.specs.Causes.{CountsFailures};
ghost use Rattle.salt_outside.specs.Streams.{WritesAll, IsPart};
ghost use Rattle.std.specs.List.{AllByRecursion};
ghost use Rattle.fleet_config.specs.Fleet.{IsFleet};
ghost use Rattle.tree_world.specs.Network.{start};
ghost use Rattle.tree_world.specs.Halts.{NeverTooBig};
ghost use Rattle.tree_world.specs.Text.{text_of};
ghost use Rattle.script_text.specs.Script.{IsScript, MayStand};
ghost use Rattle.salt_replay.specs.Replay.{text_of_script, command, refused_line, IsLineTold, IsReplayStatus, IsNoCommand, ReadsScript, CountsReads, WritesScript, TellsLine, CountsWrites, Plays, StaysSound, MeetNoBigPatternEver};
ghost use Rattle.salt_replay.specs.Output.{IsPrinted, PrintsScripts};
ghost use Rattle.script_text.specs.declared.script.Script.{Script};

use fleet_config::Fleet;
use salt_outside::{Outside, ReadAll, Sink, Source, read_all};
use salt_value::Text;
use script_text::{MOST_SCRIPT_BYTES, Script, ScriptFault, read_script};
use std::alloc::{AllocError, Global};
use tree_laws::whole_runs;
use tree_world::{StepFault, Turn, World, tell};

/// How a command ended: the exit status of the program.
#[derive(Clone, Copy, Debug, PartialEq, Eq)]
pub struct Status {
    pub code: u8,
}

// Runs the turns from the start, and prints the text. No pattern is too big, since the turns publish globs of ids alone.
fn run_turns<K: Sink>(world: &mut World, turns: &[Turn], sink: &mut K) -> Result<(), StepFault>
    requires fleet { IsFleet world.old.fleet }
    requires start { world.old.network ≡ start world.old.fleet }
    requires turns { AllByRecursion (MayStand world.old.fleet) turns.now }
    ensures text { WritesAll K.held sink.old sink.new (text_of world.old.fleet turns.now) result }
    ensures part { IsPart (K.held sink.old) (K.held sink.new) (text_of world.old.fleet turns.now) }
    ensures faults { CountsFailures K.faults StepFault.WriteFault sink.old sink.new result }
    ensures small { IfErr result NeverTooBig }
{
    no_pattern_is_big();
    for turn in turns {
        world.step(turn, sink)?;
    }
    tell(sink, b"end\n")
}

// Runs a script.
fn play<K: Sink>(alloc: Global, script: Script, sink: &mut K) -> Result<(), StepFault>
    requires { IsScript script }
    ensures text { WritesAll K.held sink.old sink.new (text_of_script script) result }
    ensures part { IsPart (K.held sink.old) (K.held sink.new) (text_of_script script) }
    ensures faults { CountsFailures K.faults StepFault.WriteFault sink.old sink.new result }
    ensures small { IfErr result NeverTooBig }
{
    let Script {
        top,
        minions,
        turns,
    } = script;
    let fleet = Fleet::flat(alloc, top, minions)?;
    let mut world = World::of(alloc, &fleet)?;
    run_turns(&mut world, turns.as_slice(), sink)
}

// Writes the one line of a run. A sink that fails holds a front of it.
fn write_line<K: Sink>(sink: &mut K, line: &[u8]) -> Result<(), AllocError>
    ensures ok { OnOk result (IsLineTold line.now K.held K.faults sink.old sink.new) }
    ensures err { OnErr result (K.held sink.new ≡ K.held sink.old) }
    ensures memory { OnErr result (K.faults sink.new ≡ K.faults sink.old) }
{
    match sink.write(line) {
        Ok(()) | Err(Outside::Failed) => Ok(()),
        Err(Outside::NoMemory) => Err(AllocError),
    }
}

// Writes the line that refuses a script.
fn write_refusal<K: Sink>(alloc: Global, line: u32, sink: &mut K) -> Result<(), AllocError>
    ensures ok { OnOk result (IsLineTold (refused_line line) K.held K.faults sink.old sink.new) }
    ensures err { OnErr result (K.held sink.new ≡ K.held sink.old) }
    ensures memory { OnErr result (K.faults sink.new ≡ K.faults sink.old) }
{
    let text = refusal_text(alloc, line)?;
    write_line(sink, &text)
}

fn refusal_text(alloc: Global, line: u32) -> Result<Vec<u8>, AllocError>
    ensures { IfOk result (λ v. v.items ≡ refused_line line) }
{
    let mut text = Vec::new(alloc);
    text.extend_from_slice(b"refused script ")?;
    let number = line.to_string(alloc)?;
    text.extend_from_slice(number.as_bytes())?;
    text.extend_from_slice(b" NotYet\n")?;
    Ok(text)
}

// No turn that a script may have meets a pattern that is too big.
fn no_pattern_is_big()
    ensures { MeetNoBigPatternEver }
{
    whole_runs();
}

// What holds after every turn of every script.
fn scripts_stay_sound()
    ensures { (script : Script) → IsScript script → StaysSound script }
{
    whole_runs();
}

// What each script prints.
fn scripts_print_sound()
    ensures { (script : Script) → IsScript script → IsPrinted script (text_of_script script) }
{
    scripts_stay_sound();
    whole_runs();
}

/// Reads a script and writes the text of its run. Status 0 is a whole run, 1 want of memory, 3 a text that is no script, 4 a source
/// that failed, 5 a sink that failed, and 12 a source of over 16,777,216 bytes. The statuses are this project's own.
pub fn run_replay<S: Source, K: Sink>(alloc: Global, source: &mut S, sink: &mut K) -> Status
    ensures status { IsReplayStatus result.code }
    ensures left { ReadsScript S.left source.old source.new result.code }
    ensures reads { CountsReads S.faults source.old source.new result.code }
    ensures text { WritesScript S.left source.old K.held sink.old sink.new result.code }
    ensures line { TellsLine S.left source.old K.held K.faults sink.old sink.new result.code }
    ensures writes { CountsWrites K.faults sink.old sink.new result.code }
    ensures printed { PrintsScripts S.left source.old K.held sink.old sink.new result.code }
    ensures sound { (script : Script) → IsScript script → StaysSound script }
{
    scripts_stay_sound();
    scripts_print_sound();
    replay_script(alloc, source, sink)
}

// Reads a script and runs it.
fn replay_script<S: Source, K: Sink>(alloc: Global, source: &mut S, sink: &mut K) -> Status
    ensures { Plays S.left S.faults source.old source.new K.held K.faults sink.old sink.new result }
{
    let text = match read_all(alloc, source, MOST_SCRIPT_BYTES) {
        Ok(text) => text,
        Err(ReadAll::NoMemory) => return Status { code: 1 },
        Err(ReadAll::ReadFault) => return Status { code: 4 },
        Err(ReadAll::TooLong { .. }) => {
            return match write_line(sink, b"full source\n") {
                Ok(()) => Status { code: 12 },
                Err(_) => Status { code: 1 },
            };
        }
    };
    let script = match read_script(alloc, &text) {
        Ok(script) => script,
        Err(ScriptFault::NoMemory) => return Status { code: 1 },
        Err(ScriptFault::NotYet { line }) => {
            return match write_refusal(alloc, line, sink) {
                Ok(()) => Status { code: 3 },
                Err(_) => Status { code: 1 },
            };
        }
    };
    match play(alloc, script, sink) {
        Ok(()) => Status { code: 0 },
        Err(StepFault::NoMemory) => Status { code: 1 },
        Err(StepFault::WriteFault) => Status { code: 5 },
        Err(StepFault::TooBig { .. }) => unreachable!(),
    }
}

/// Runs the command that the words are: the one word `replay`. Status 2 says that they are no command, and leaves the source as it was.
pub fn salt_main<S: Source, K: Sink>(
    alloc: Global,
    words: &[Text],
    source: &mut S,
    sink: &mut K,
) -> Status
    ensures status { words.now ≡ command → IsReplayStatus result.code }
    ensures left { ReadsScript S.left source.old source.new result.code }
    ensures reads { CountsReads S.faults source.old source.new result.code }
    ensures text { WritesScript S.left source.old K.held sink.old sink.new result.code }
    ensures line { TellsLine S.left source.old K.held K.faults sink.old sink.new result.code }
    ensures writes { CountsWrites K.faults sink.old sink.new result.code }
    ensures no_command { words.now ≢ command → IsNoCommand K.held sink.old sink.new result.code }
    ensures source { words.now ≢ command → source.new ≡ source.old }
    ensures printed { PrintsScripts S.left source.old K.held sink.old sink.new result.code }
    ensures sound { (script : Script) → IsScript script → StaysSound script }
{
    scripts_stay_sound();
    if is_replay(words) {
        run_replay(alloc, source, sink)
    } else {
        match write_line(sink, b"salt_node: the words are no command\n") {
            Ok(()) => Status { code: 2 },
            Err(_) => Status { code: 1 },
        }
    }
}

// Are the words the one word `replay`?
fn is_replay(words: &[Text]) -> bool
    ensures { IsTrue result ↔ (words.now ≡ command) }
{
    match words {
        [word] => is_word(word),
        _ => false,
    }
}

fn is_word(word: &Text) -> bool
    ensures { IsTrue result ↔ (word.now ≡ codes "replay") }
{
    word.as_str() == "replay"
}
