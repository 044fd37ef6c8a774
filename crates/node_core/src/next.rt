//! What is tested of a record that a node may add next.
ghost use Rattle.std.specs.Prelude.{◌≡◌, ◌+◌, length, filter};
ghost use Rattle.std.specs.List.{list_all};
ghost use Rattle.node_core.specs.NextRecords as next;

use salt_wire::Entry;

/// Can the job with this number make these entries at its minion?
pub fn is_run(seq: u32, entries: &[Entry]) -> bool
    ensures { result ≡ next.is_run seq entries.now }
{
    are_made_by(seq, entries) && return_count(entries) <= 1
}

// Is each entry one that the job with this number can make?
fn are_made_by(seq: u32, entries: &[Entry]) -> bool
    ensures { result ≡ list_all (next.is_made_by seq) entries.now }
{
    for entry in entries {
        if !is_made_by(seq, entry) {
            return false;
        }
    }
    true
}

// Is the entry one that the job with this number can make at its minion?
fn is_made_by(seq: u32, entry: &Entry) -> bool
    ensures { result ≡ next.is_made_by seq entry.now }
{
    match entry {
        Entry::Return { seq: n, .. } => *n == seq,
        Entry::Fired { .. } => true,
        Entry::Start { .. } => false,
        Entry::Mine { seq: n, .. } => *n == seq,
    }
}

// Is the entry a return?
fn is_return(entry: &Entry) -> bool
    ensures { result ≡ next.is_return entry.now }
{
    match entry {
        Entry::Return { .. } => true,
        Entry::Fired { .. } => false,
        Entry::Start { .. } => false,
        Entry::Mine { .. } => false,
    }
}

// How many of the entries are returns?
fn return_count(entries: &[Entry]) -> u64
    ensures { result ≡ length (filter next.is_return entries.now) }
{
    let mut count = 0;
    for entry in entries {
        if is_return(entry) {
            count += 1;
        }
    }
    count
}
