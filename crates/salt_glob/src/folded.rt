//! A pattern or a text as a matcher reads it.
ghost use Rattle.std.specs.Prelude.{◌≡◌, ◌≤◌, ◌<◌, ◌^◌, ◌==◌, ℕ, List, true, false, nat_lt, length, drop, position, slice_index, slice_range, IfSome, IfNone};
ghost use Rattle.std.specs.List.{list_any, list_all};
ghost use Rattle.salt_glob.specs.LowerCase.{lower_case, matcher_bytes};
ghost use Rattle.salt_glob.specs.Places.{PassesFrom, LacksFrom, PassesTo, LacksByte};

use memchr::{memchr, memchr2};
use std::marker::Model;

/// Bytes that are read as they stand, or with `A` to `Z` lowered. Contracts see the bytes as they are read.
#[derive(Drop)]
pub struct Folded<'a> {
    bytes: &'a [u8],
    is_caseless: bool,
}

impl<'a> Model for Folded<'a> {
    ghost Value = { List ℕ };

    ghost view = { λ s. matcher_bytes s.is_caseless s.bytes.now };
}

impl<'a> Folded<'a> {
    #[inline(always)]
    pub fn exact(bytes: &'a [u8]) -> Folded<'a>
        ensures { result ≡ bytes.now }
    {
        Folded {
            bytes,
            is_caseless: false,
        }
    }

    #[inline(always)]
    pub fn caseless(bytes: &'a [u8]) -> Folded<'a>
        ensures { result ≡ lower_case bytes.now }
    {
        Folded {
            bytes,
            is_caseless: true,
        }
    }

    #[inline(always)]
    pub fn len(&self) -> usize
        ensures value { result ≡ length self.now }
        ensures size { length self.now < 2 ^ 63 }
    {
        self.bytes.len()
    }

    #[inline(always)]
    pub fn at(&self, place: usize) -> u8
        requires { place < length self.now }
        ensures value { result ≡ slice_index self.now place }
        ensures size { length self.now < 2 ^ 63 }
    {
        let byte = self.bytes[place];
        if self.is_caseless {
            byte.to_ascii_lowercase()
        } else {
            byte
        }
    }

    /// The bytes from one place up to another.
    #[inline(always)]
    pub fn part(&self, from: usize, to: usize) -> Folded<'a>
        requires ordered { from ≤ to }
        requires within { to ≤ length self.now }
        ensures { result ≡ slice_range self.now from to }
    {
        let bytes = self.bytes;
        Folded {
            bytes: &bytes[from..to],
            is_caseless: self.is_caseless,
        }
    }

    /// How many bytes stand between a place and the first `]` from there on.
    #[inline(always)]
    pub fn first_close(&self, from: usize) -> Option<usize>
        requires { from ≤ length self.now }
        ensures value { result ≡ position (λ b. b == 93) (drop from self.now) }
        ensures size { length self.now < 2 ^ 63 }
    {
        first_close(&self.bytes[from..])
    }

    /// The place after the last `]`, or 0. With it a class that nothing closes is told without a search.
    #[inline(always)]
    pub fn after_last_close(&self) -> usize
        ensures closes { (k : ℕ) → list_any (λ b. b == 93) (drop k self.now) ≡ nat_lt k result }
        ensures bound { result ≤ length self.now }
    {
        after_last_close(self.bytes)
    }

    /// Whether each byte from a place on is a `*`.
    #[inline(always)]
    pub fn are_stars(&self, from: usize) -> bool
        requires { from ≤ length self.now }
        ensures { result ≡ list_all (λ b. b == 42) (drop from self.now) }
    {
        are_stars(&self.bytes[from..])
    }

    /// A place from which on the byte may stand, and before which it doesn't, from a place on; None where it stands nowhere.
    #[inline(always)]
    pub fn place_of(&self, byte: u8, from: usize) -> Option<usize>
        requires { from ≤ length self.now }
        ensures some { IfSome result (PassesFrom byte self.now from) }
        ensures none { IfNone result (LacksFrom byte self.now from) }
    {
        let n = before(&self.bytes[from..], byte, self.is_caseless)?;
        Some(from + n)
    }
}

fn first_close(bytes: &[u8]) -> Option<usize>
    ensures { result ≡ position (λ b. b == 93) bytes.now }
{
    bytes.iter().position(|b| *b == b']')
}

fn after_last_close(bytes: &[u8]) -> usize
    ensures closes { (k : ℕ) → list_any (λ b. b == 93) (drop k bytes.now) ≡ nat_lt k result }
    ensures bound { result ≤ length bytes.now }
{
    let mut last = 0;
    for (i, b) in bytes.iter().enumerate() {
        if *b == b']' {
            last = i + 1;
        }
    }
    last
}

fn are_stars(bytes: &[u8]) -> bool
    ensures { result ≡ list_all (λ b. b == 42) bytes.now }
{
    bytes.iter().all(|b| *b == b'*')
}

// A place before which no byte is read as this one, or None where none is.
#[inline(always)]
fn before(bytes: &[u8], byte: u8, is_caseless: bool) -> Option<usize>
    ensures some { IfSome result (PassesTo is_caseless byte bytes.now) }
    ensures none { IfNone result (LacksByte is_caseless byte bytes.now) }
{
    if is_caseless {
        before_either(bytes, byte)
    } else {
        before_one(bytes, byte)
    }
}

#[inline(always)]
fn before_one(bytes: &[u8], byte: u8) -> Option<usize>
    ensures some { IfSome result (PassesTo false byte bytes.now) }
    ensures none { IfNone result (LacksByte false byte bytes.now) }
{
    memchr(byte, bytes)
}

#[inline(always)]
fn before_either(bytes: &[u8], byte: u8) -> Option<usize>
    ensures some { IfSome result (PassesTo true byte bytes.now) }
    ensures none { IfNone result (LacksByte true byte bytes.now) }
{
    memchr2(byte, byte.to_ascii_uppercase(), bytes)
}
