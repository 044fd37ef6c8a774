//! Lines, and the entries of a block.
ghost use Rattle.std.specs.Prelude.{◌≡◌, ◌≤◌, ◌<◌, ◌-◌, length, drop, IfSome, IfOk};
ghost use Rattle.yaml_subset.specs.Lines.{CutsEntry, AreEntries, entry_place};
ghost use Rattle.yaml_subset.specs.Rows as spec;
ghost use Rattle.yaml_subset.specs.Rows.{indented_line, column_of};

use std::alloc::{AllocError, Global};
use yaml_words::{after_spaces, ends_or, is_item};

/// A line that is not passed over.
#[derive(Clone, Copy)]
pub struct Line<'a> {
    pub number: u32,
    /// How many bytes it has.
    pub width: usize,
    /// Its last bytes, those from where its reading begins.
    pub text: &'a str,
}

impl Line<'_> {
    /// The column at which its reading begins.
    pub fn column(&self) -> usize
        ensures { result ≡ column_of (indented_line self.now) }
    {
        self.width.saturating_sub(self.text.len())
    }
}

/// A line that begins an entry of a block, and its own lines, which follow it.
#[derive(Clone, Copy)]
pub struct Entry<'s, 'a> {
    pub head: Line<'a>,
    pub own: &'s [Line<'a>],
}

/// Whether a line is `---`, with spaces and a comment or without.
pub fn is_start(line: &str) -> bool
    ensures { result ≡ spec.is_document_start line.now }
{
    match line.strip_prefix("---") {
        None => false,
        Some(rest) => ends_or(rest.as_bytes(), b' ') && after_spaces(rest).is_empty(),
    }
}

/// Whether an entry of a list or a map at this column begins with the line.
fn begins(of_map: bool, column: usize, line: &Line<'_>) -> bool
    ensures { result ≡ spec.begins_entry of_map column (indented_line line.now) }
{
    if line.column() > column {
        return false;
    }
    if !of_map {
        return true;
    }
    if line.column() != column {
        return true;
    }
    !is_item(line.text)
}

/// The place of the first line that begins an entry, if there is one.
fn head_place(rest: &[Line<'_>], of_map: bool, column: usize) -> Option<usize>
    ensures place { result ≡ entry_place of_map column rest.now }
    ensures within { IfSome result (λ at. at < length rest.now) }
{
    rest.iter().position(|line| begins(of_map, column, line))
}

/// The own lines of an entry, and the lines after them.
fn own_lines<'s, 'a>(
    rest: &'s [Line<'a>],
    of_map: bool,
    column: usize,
) -> (&'s [Line<'a>], &'s [Line<'a>])
    ensures first { CutsEntry of_map column rest.now result.0.now result.1.now }
    ensures tail { result.1.now ≡ drop (length rest.now - length result.1.now) rest.now }
    ensures within { length result.1.now ≤ length rest.now }
{
    match head_place(rest, of_map, column) {
        Some(at) => rest.split_at(at),
        None => rest.split_at(rest.len()),
    }
}

/// The entries of a list or a map at this column, which begins with this line.
pub fn entries<'s, 'a>(
    alloc: Global,
    first: Line<'a>,
    rest: &'s [Line<'a>],
    of_map: bool,
    column: usize,
) -> Result<Vec<Entry<'s, 'a>>, AllocError>
    ensures { IfOk result (λ x. AreEntries of_map column first.entry rest.entry.now x.items) }
{
    let mut found = Vec::new(alloc);
    let mut head = first;
    let mut at = 0;
    loop {
        let (own, after) = own_lines(&rest[at..], of_map, column);
        found.push(Entry { head, own })?;
        match after.first() {
            None => return Ok(found),
            Some(next) => {
                head = *next;
                at = rest.len() - after.len() + 1;
            }
        }
    }
}
