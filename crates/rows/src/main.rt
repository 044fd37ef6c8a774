//! Answers calls that go from text to text: each row of the input names a call and its arguments, and is printed with what the
//! call answers. A row that begins with `#` is printed as it is.
#![tactic(auto)]

mod calls;
mod commands;
mod digits;
mod functions;
mod globs;
mod ids;
mod json;
mod messages;
mod replays;
mod scripts;
mod spread;
mod targets;
mod trees;
mod values;
mod yaml;

use std::io;
use target_tree::Groups;

fn main(rt: HostRuntime) -> io::Result<()> {
    let alloc = rt.alloc();
    let mut groups = Groups::new(alloc);
    for row in rt.lines(alloc) {
        let row = row?;
        if row.starts_with("#") {
            println!(rt; "{row}")?;
        } else {
            let text = calls::answer(alloc, &mut groups, row.as_str())?;
            println!(rt; "{row} => {text}")?;
        }
    }
    Ok(())
}
