//! The lines of a text.
ghost use Rattle.std.specs.Prelude.{◌≡◌, ◌<◌, ◌+◌, ◌^◌, ◌∷◌, length, IfOk};
ghost use Rattle.yaml_subset.specs.Lines.{KeepsLines, KeepsAllLines};
ghost use Rattle.yaml_subset.specs.Document.{lines_of};

use crate::rows::{Line, is_start};
use std::alloc::{AllocError, Global};
use yaml_words::{Delimiter, begins_with, ends_or, place, unindented, without_first};

/// The first line of a text, and what comes after its line feed.
fn next_line(text: &str) -> (&str, &str)
    requires { 0 < length text.now }
    ensures lines { lines_of text.now ≡ result.0.now ∷ lines_of result.1.now }
    ensures shorter { length result.1.now < length text.now }
{
    let at = place(Delimiter::Feed, text.as_bytes());
    let (line, rest) = text.split_at(at);
    if rest.is_empty() {
        return (line, rest);
    }
    (line, without_first(rest))
}

/// The lines that are not passed over, up to the first one that a tab indents, and the number of that one.
fn read_lines<'a>(
    alloc: Global,
    first: u32,
    text: &'a str,
) -> Result<(Vec<Line<'a>>, Option<u32>), AllocError>
    requires { first + length (lines_of text.now) < 2 ^ 32 }
    ensures { IfOk result (λ x. KeepsLines first text.entry.now x.0.items x.1) }
{
    let mut found = Vec::new(alloc);
    let mut number = first;
    let mut rest = text;
    while !rest.is_empty() {
        let (line, more) = next_line(rest);
        let kept = unindented(line);
        if begins_with(kept.as_bytes(), b'\t') {
            return Ok((found, Some(number)));
        }
        if !ends_or(kept.as_bytes(), b'#') {
            found.push(Line {
                number,
                width: line.len(),
                text: kept,
            })?;
        }
        number += 1;
        rest = more;
    }
    Ok((found, None))
}

/// The same, but a first line `---` is passed over.
pub fn all_lines<'a>(
    alloc: Global,
    first: u32,
    text: &'a str,
) -> Result<(Vec<Line<'a>>, Option<u32>), AllocError>
    requires { first + length (lines_of text.now) < 2 ^ 32 }
    ensures { IfOk result (λ x. KeepsAllLines first text.entry.now x.0.items x.1) }
{
    if text.is_empty() {
        return Ok((Vec::new(alloc), None));
    }
    let (line, rest) = next_line(text);
    if is_start(line) {
        read_lines(alloc, first + 1, rest)
    } else {
        read_lines(alloc, first, text)
    }
}
