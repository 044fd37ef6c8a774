//! Short forms of long rows.
use std::alloc::{AllocError, Global};

/// The first word of a text, and what follows it.
pub fn cut(text: &str) -> (&str, &str) {
    text.split_once(' ').unwrap_or((text, ""))
}

/// The text that a short form stands for: `<64 not >x` has `not ` 64 times before x.
pub fn spread(alloc: Global, text: &str) -> Result<String, AllocError> {
    let mut out = String::new(alloc);
    for part in text.split('>') {
        let (plain, repeated) = part.split_once('<').unwrap_or((part, ""));
        out.push_str(plain)?;
        let (times, piece) = cut(repeated);
        push_often(&mut out, times.parse::<u32>().unwrap_or(0), piece)?;
    }
    Ok(out)
}

fn push_often(out: &mut String, times: u32, piece: &str) -> Result<(), AllocError> {
    for _ in 0..times {
        out.push_str(piece)?;
    }
    Ok(())
}
