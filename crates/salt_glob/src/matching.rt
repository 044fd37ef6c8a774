//! Whether a pattern holds for a text.
ghost use Rattle.std.specs.Prelude.{◌≡◌, ◌≤◌, ◌<◌, ◌+◌, ◌==◌, IfSome, IfNone, ◌↔◌, ℕ, nat_lt, [], length, drop, slice_index, IsTrue};
ghost use Rattle.std.specs.List.{list_any, list_all};
ghost use Rattle.salt_glob.specs.Globs as spec;
ghost use Rattle.salt_glob.specs.LowerCase.{lower_case, glob_caseless};
ghost use Rattle.salt_glob.specs.Places.{TakesByte, RefusesByte, StartsFrom, NeverStarts};

use crate::class::{class_at, is_member};
use crate::folded::Folded;

/// How many bytes of the pattern the piece at a place has, if it takes the byte.
#[inline(always)]
fn taken(pattern: &Folded, at: usize, last: usize, byte: u8) -> Option<usize>
    requires at { at < length pattern.now }
    requires bound { last ≤ length pattern.now }
    requires closes { (k : ℕ) → list_any (λ b. b == 93) (drop k pattern.now) ≡ nat_lt k last }
    ensures value { result ≡ spec.bytes_taken (spec.piece_at pattern.now at) byte }
    ensures within { IfSome result (λ n. at + n ≤ length pattern.now) }
{
    let front = pattern.at(at);
    if front == b'*' {
        return None;
    }
    if front == b'?' {
        return Some(1);
    }
    if front == b'[' {
        if let Some(class) = class_at(pattern, at + 1, last) {
            let members = pattern.part(class.first, class.end);
            return if is_member(&members, byte) != class.negated {
                Some(class.end + 1 - at)
            } else {
                None
            };
        }
    }
    if front == byte { Some(1) } else { None }
}

/// The same, and nothing at the end of the pattern.
#[inline(always)]
fn taken_or_end(pattern: &Folded, at: usize, last: usize, byte: u8) -> Option<usize>
    requires bound { last ≤ length pattern.now }
    requires closes { (k : ℕ) → list_any (λ b. b == 93) (drop k pattern.now) ≡ nat_lt k last }
    ensures some { IfSome result (TakesByte pattern.now at byte) }
    ensures none { IfNone result (RefusesByte pattern.now at byte) }
{
    if at < pattern.len() {
        taken(pattern, at, last, byte)
    } else {
        None
    }
}

/// Whether the pattern from a place on holds for the empty text: each of its bytes is a `*`.
fn are_stars(pattern: &Folded, from: usize) -> bool
    requires { from ≤ length pattern.now }
    ensures { IsTrue result ↔ spec.Glob (drop from pattern.now) [] }
{
    pattern.are_stars(from)
}

/// A place of the text from which on what stands after a `*` may hold, and before which it doesn't, from a place on;
/// None where it holds nowhere.
#[inline(always)]
fn next_start(pattern: &Folded, text: &Folded, after: usize, from: usize) -> Option<usize>
    requires after { after < length pattern.now }
    requires from { from ≤ length text.now }
    ensures some { IfSome result (StartsFrom pattern.now text.now after from) }
    ensures none { IfNone result (NeverStarts pattern.now text.now after from) }
{
    let byte = pattern.at(after);
    if byte == b'*' {
        return Some(from);
    }
    if byte == b'?' {
        return Some(from);
    }
    if byte == b'[' {
        return Some(from);
    }
    if from < text.len() && text.at(from) == byte {
        return Some(from);
    }
    text.place_of(byte, from)
}

/// Whether what stands after a `*` holds for the text from a place on, or from a later one on.
/// Only the last `*` is gone back to: what stands between two of them may be held as early as it can be.
/// So it takes at most as many steps as the pattern has bytes for each byte of the text.
#[inline(always)]
fn after_star(pattern: &Folded, text: &Folded, last: usize, after: usize, from: usize) -> bool
    requires after { after ≤ length pattern.now }
    requires from { from ≤ length text.now }
    requires bound { last ≤ length pattern.now }
    requires closes { (k : ℕ) → list_any (λ b. b == 93) (drop k pattern.now) ≡ nat_lt k last }
    ensures { IsTrue result ↔ spec.MatchesLater pattern.now text.now after from }
{
    if after == pattern.len() {
        return true;
    }
    let Some(first) = next_start(pattern, text, after, from) else {
        return false;
    };
    let (mut after_star, mut from_star) = (after, first);
    let (mut p, mut t) = (after, first);
    while t < text.len() {
        if is_star(pattern, p) {
            p += 1;
            if p == pattern.len() {
                return true;
            }
            let Some(start) = next_start(pattern, text, p, t) else {
                return false;
            };
            after_star = p;
            from_star = start;
            t = start;
        } else {
            match taken_or_end(pattern, p, last, text.at(t)) {
                Some(n) => {
                    p += n;
                    t += 1;
                }
                None => {
                    let Some(start) = next_start(pattern, text, after_star, from_star + 1) else {
                        return false;
                    };
                    from_star = start;
                    p = after_star;
                    t = start;
                }
            }
        }
    }
    are_stars(pattern, p)
}

#[inline(always)]
fn is_star(pattern: &Folded, at: usize) -> bool
    ensures { IsTrue result ↔ ((at < length pattern.now) × (slice_index pattern.now at ≡ 42)) }
{
    at < pattern.len() && pattern.at(at) == b'*'
}

// Whether the pattern holds for the whole text: up to the first `*` without a way back.
#[inline(always)]
fn holds(pattern: &Folded, text: &Folded) -> bool
    ensures { IsTrue result ↔ spec.Glob pattern.now text.now }
{
    let last = pattern.after_last_close();
    let (mut p, mut t) = (0, 0);
    while p < pattern.len() {
        if is_star(pattern, p) {
            return after_star(pattern, text, last, p + 1, t);
        }
        if t == text.len() {
            return false;
        }
        match taken(pattern, p, last, text.at(t)) {
            Some(n) => {
                p += n;
                t += 1;
            }
            None => return false,
        }
    }
    t == text.len()
}

/// Whether the pattern holds for the whole text: `*` stands for any bytes, `?` for one byte, `[..]` for one byte of a set,
/// `[!..]` for one byte outside it, and any other byte for itself. A `]` that is first in a class is a member, `x-y` is a
/// range, and a `[` that no `]` closes stands for itself (Salt documentation, Targeting Minions; there is no escape).
/// It takes no memory, and at most as many steps as the pattern's length times the text's.
pub fn glob(pattern: &[u8], text: &[u8]) -> bool
    ensures ok { IsTrue result ↔ spec.Glob pattern.now text.now }
    ensures exact { result ≡ spec.glob pattern.now text.now }
{
    holds(&Folded::exact(pattern), &Folded::exact(text))
}

/// `glob` with `A` to `Z` lowered in the pattern and in the text, also where they bound a range of a class: `[A-z]` has the
/// bytes from `a` to `z`, and `[Z-a]` has none. It takes no memory, and at most as many steps as `glob`.
pub fn glob_caseless(pattern: &[u8], text: &[u8]) -> bool
    ensures ok { IsTrue result ↔ spec.Glob (lower_case pattern.now) (lower_case text.now) }
    ensures exact { result ≡ glob_caseless pattern.now text.now }
{
    holds(&Folded::caseless(pattern), &Folded::caseless(text))
}
