//! Remote execution over a tree of masters: the program.
//!
//! The command of its words is run over standard input and standard output, and its status is the program's:
//! `run_command(alloc, &words, &mut source, &mut sink).code`.
#![tactic(auto)]

use salt_commands::{read_words, run_command};
use salt_outside::{StdSink, StdSource};
use std::env;
use std::process::ExitCode;

fn main(rt: HostRuntime) -> ExitCode {
    let alloc = rt.alloc();
    let words = read_words(alloc, env::args(&rt));
    let mut source = StdSource::new(rt.stdin());
    let mut sink = StdSink::new(rt.stdout());
    ExitCode::from(run_command(alloc, &words, &mut source, &mut sink).code)
}
