//! The classes of a pattern.
ghost use Rattle.std.specs.Prelude.{◌≡◌, ◌≤◌, ◌<◌, ◌+◌, ◌==◌, ◌&&◌, ℕ, nat_le, nat_lt, length, drop, IfSome, IsTrue, ◌↔◌};
ghost use Rattle.std.specs.List.{list_any};
ghost use Rattle.salt_glob.specs.Classes as spec;
ghost use Rattle.salt_glob.specs.Classes.{class_after};
ghost use Rattle.salt_glob.specs.Places.{class_found, IsClosed, IsClassFrom, BeginsRange, IsToldFrom};

use crate::folded::Folded;

/// A class by its places in a pattern: its members stand from `first` to `end`, and its `]` at `end`.
#[derive(Clone, Copy)]
pub struct Class {
    pub negated: bool,
    pub first: usize,
    pub end: usize,
}

/// The class whose first member stands at a place, if a `]` closes it.
fn closed_at(pattern: &Folded, negated: bool, first: usize, last: usize) -> Option<Class>
    requires bound { last ≤ length pattern.now }
    requires closes { (k : ℕ) → list_any (λ b. b == 93) (drop k pattern.now) ≡ nat_lt k last }
    ensures value { class_found pattern.now result ≡ class_after negated (drop first pattern.now) }
    ensures places { IfSome result (IsClosed negated first pattern.now) }
{
    if last < 2 {
        return None;
    }
    if first > last - 2 {
        return None;
    }
    match pattern.first_close(first + 1) {
        None => None,
        Some(n) => Some(Class {
            negated,
            first,
            end: first + 1 + n,
        }),
    }
}

/// The class that a `[` opens before a place, if a `]` closes it.
pub fn class_at(pattern: &Folded, from: usize, last: usize) -> Option<Class>
    requires from { from ≤ length pattern.now }
    requires bound { last ≤ length pattern.now }
    requires closes { (k : ℕ) → list_any (λ b. b == 93) (drop k pattern.now) ≡ nat_lt k last }
    ensures value { class_found pattern.now result ≡ spec.class_of (drop from pattern.now) }
    ensures places { IfSome result (IsClassFrom from pattern.now) }
{
    if from < pattern.len() && pattern.at(from) == b'!' {
        closed_at(pattern, true, from + 1, last)
    } else {
        closed_at(pattern, false, from, last)
    }
}

// Whether a range begins at a place of the members.
fn is_range(members: &Folded, at: usize) -> bool
    requires { at < length members.now }
    ensures { IsTrue result ↔ BeginsRange members.now at }
{
    members.len() - at > 2 && members.at(at + 1) == b'-'
}

// Whether the member or range at a place has the byte, and how many bytes it takes.
fn front(members: &Folded, at: usize, byte: u8) -> (bool, usize)
    requires { at < length members.now }
    ensures value { IsToldFrom byte members.now at result }
    ensures some { 0 < result.1 }
    ensures within { at + result.1 ≤ length members.now }
{
    if is_range(members, at) {
        (is_between(members.at(at), members.at(at + 2), byte), 3)
    } else {
        (byte == members.at(at), 1)
    }
}

fn is_between(low: u8, high: u8, byte: u8) -> bool
    ensures { result ≡ (nat_le low byte && nat_le byte high) }
{
    low <= byte && byte <= high
}

/// Whether the byte is one of the members.
pub fn is_member(members: &Folded, byte: u8) -> bool
    ensures { result ≡ spec.is_member byte members.now }
{
    let mut i = 0;
    while i < members.len() {
        let (here, taken) = front(members, i, byte);
        if here {
            return true;
        }
        i += taken;
    }
    false
}
