//! Scripts.
use script_text::{MOST_SCRIPT_BYTES, read_script};
use std::alloc::{AllocError, Global};

/// The lines of a fleet of the minions m1 and m2, and `%schedule`.
const PAIR: &str =
    "%fleet|nodes:|- id: top|  role: top|- id: m1|  role: minion|  parent: top|- id: m2|  role: minion|  parent: top|%schedule|";

/// How many turns and minions a script has whose lines are parted by `|`. After the word `pair` there are the lines alone that
/// follow those of a fleet of two minions.
pub fn script(alloc: Global, rest: &str) -> Result<String, AllocError> {
    let mut text = String::new(alloc);
    match rest.strip_prefix("pair ") {
        Some(turns) => {
            push_lines(&mut text, PAIR)?;
            push_lines(&mut text, turns)?;
        }
        None => push_lines(&mut text, rest)?,
    }
    counts(alloc, text.as_bytes())
}

fn counts(alloc: Global, text: &[u8]) -> Result<String, AllocError> {
    if text.len() > MOST_SCRIPT_BYTES {
        return String::from_str(alloc, "too long");
    }
    match read_script(alloc, text) {
        Ok(script) => format!(in alloc;
            "turns {}, minions {}",
            script.turns.len(),
            script.minions.len()
        ),
        Err(fault) => format!(in alloc; "{fault:?}"),
    }
}

// The text with a line feed for each `|`.
fn push_lines(text: &mut String, lines: &str) -> Result<(), AllocError> {
    let mut parts = lines.split('|');
    if let Some(first) = parts.next() {
        text.push_str(first)?;
    }
    for part in parts {
        text.push_str("\n")?;
        text.push_str(part)?;
    }
    Ok(())
}
