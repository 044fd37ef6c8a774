//! Runs each script of the folder `examples`, and tells whether it writes what stands beside it.
//!
//! `run_example(alloc, &script, &wanted).is_as_wanted` is true where it does.
#![tactic(auto)]

use salt_commands::run_example;
use std::{fs, io};

/// The scripts by their names; `NAME.out` has what `NAME.script` writes.
static NAMES: [&str; 6] = [
    "ping",
    "out_of_order",
    "repeated",
    "lost",
    "two_jobs",
    "unknown_job",
];

fn main(rt: HostRuntime) -> io::Result<()> {
    let alloc = rt.alloc();
    for name in NAMES {
        let script = fs::read(&rt, format!(in alloc; "{name}.script")?.as_str())?;
        let wanted = fs::read(&rt, format!(in alloc; "{name}.out")?.as_str())?;
        let ending = run_example(alloc, &script, &wanted);
        let code = ending.code;
        let is_as_wanted = ending.is_as_wanted;
        println!(rt; "{name}: status {code}, as written beside it: {is_as_wanted}")?;
    }
    Ok(())
}
