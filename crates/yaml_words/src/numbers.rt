//! Numbers.
ghost use Rattle.std.specs.Prelude.{◌≡◌, true};
ghost use Rattle.yaml_words.specs.Numbers as spec;

use crate::places::begins_with;

/// What number a plain scalar is.
#[derive(Clone, Copy)]
pub enum Numeral {
    /// A whole number of 64 bits with its sign.
    Whole(i64),
    /// A number that is refused: with a leading zero, a fraction or an exponent, or out of range.
    Refused,
    /// No number.
    Other,
}

fn is_sign(byte: u8) -> bool
    ensures { result ≡ spec.is_sign byte }
{
    byte == b'+' || byte == b'-'
}

/// Without its sign.
fn unsigned(text: &[u8]) -> &[u8]
    ensures { result.now ≡ spec.unsigned text.now }
{
    match text {
        [first, rest @ ..] if is_sign(*first) => rest,
        _ => text,
    }
}

fn begins_with_digit(text: &[u8]) -> bool
    ensures { result ≡ spec.begins_with_digit text.now }
{
    match text {
        [] => false,
        [first, ..] => first.is_ascii_digit(),
    }
}

/// What stands after the digits at the front.
fn after_digits(text: &[u8]) -> &[u8]
    ensures { result.now ≡ spec.after_digits text.now }
{
    for at in 0..text.len() {
        if !begins_with_digit(&text[at..]) {
            return &text[at..];
        }
    }
    &[]
}

/// Whether it is a digit or more, and nothing else.
fn is_digits(text: &[u8]) -> bool
    ensures { result ≡ spec.is_digits text.now }
{
    begins_with_digit(text) && after_digits(text).is_empty()
}

/// What stands after a fraction at the front, `.` and digits or nothing.
fn after_fraction(text: &[u8]) -> &[u8]
    ensures { result.now ≡ spec.after_fraction text.now }
{
    match text {
        [b'.', rest @ ..] => after_digits(rest),
        _ => text,
    }
}

fn is_exponent(byte: u8) -> bool
    ensures { result ≡ spec.is_exponent byte }
{
    byte == b'e' || byte == b'E'
}

/// What stands after an exponent at the front: `e` or `E`, a sign or none, digits.
fn after_exponent(text: &[u8]) -> &[u8]
    ensures { result.now ≡ spec.after_exponent text.now }
{
    let [first, rest @ ..] = text else {
        return text;
    };
    if is_exponent(*first) && begins_with_digit(unsigned(rest)) {
        return after_digits(unsigned(rest));
    }
    text
}

/// Whether it is digits, and then a fraction, an exponent, both or neither.
fn is_decimal(text: &[u8]) -> bool
    ensures { result ≡ spec.is_decimal text.now }
{
    begins_with_digit(text) && after_exponent(after_fraction(after_digits(text))).is_empty()
}

/// A number of 64 bits with its sign.
fn signed_number(text: &str) -> Numeral
    requires { spec.is_digits (spec.unsigned text.now) ≡ true }
    ensures { result ≡ spec.signed_number text.now }
{
    match text.parse::<i64>() {
        Ok(number) => Numeral::Whole(number),
        Err(_) => Numeral::Refused,
    }
}

/// A sign or none and digits.
fn whole_number(text: &str) -> Numeral
    requires { spec.is_digits (spec.unsigned text.now) ≡ true }
    ensures { result ≡ spec.whole_number text.now }
{
    if text == "0" {
        return Numeral::Whole(0);
    }
    let digits = unsigned(text.as_bytes());
    if digits == b"0".as_slice() {
        return Numeral::Other;
    }
    if begins_with(digits, b'0') {
        return Numeral::Refused;
    }
    signed_number(text)
}

/// The number that a plain scalar is.
pub fn read_number(text: &str) -> Numeral
    ensures { result ≡ spec.numeral text.now }
{
    let digits = unsigned(text.as_bytes());
    if is_digits(digits) {
        return whole_number(text);
    }
    if is_decimal(digits) {
        return Numeral::Refused;
    }
    Numeral::Other
}
