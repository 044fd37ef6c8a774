//! Parts of a text.
ghost use Rattle.std.specs.Prelude.{◌≡◌, ◌∷◌, ◌++◌, ◌<◌, ◌^◌, ◌==◌, [], IfSome, IfNone, MatchOption, decimal, length, position};
ghost use Rattle.salt_value.specs.Reading.{Decodes};
ghost use Rattle.script_text.specs.Lines as spec;
ghost use Rattle.script_text.specs.Lines.{lines_of, Lacks, IsCutAt, LacksHead, LacksTail};

use std::str;

/// What stands before the first byte that is this mark, and after it.
#[tactic(auto, using(crate::proofs::Words::front_of, crate::proofs::Words::cut_at, crate::proofs::Words::whole_lacks))]
pub fn cut(text: &[u8], mark: u8) -> Option<(&[u8], &[u8])>
    ensures some { IfSome result (λ r. IsCutAt mark text.now r.0.now r.1.now) }
    ensures none { IfNone result (Lacks mark text.now) }
{
    match place(text, mark) {
        Some(at) => {
            let (front, rest) = text.split_at(at);
            let (_, rest) = rest.split_at(1);
            Some((front, rest))
        }
        None => None,
    }
}

// The place of the first such byte.
fn place(text: &[u8], mark: u8) -> Option<usize>
    ensures place { result ≡ position (λ b. b == mark) text.now }
    ensures within { IfSome result (λ at. at < length text.now) }
{
    text.iter().position(|b| *b == mark)
}

/// The first line, and what comes after its line feed. There is none where the text is empty.
#[tactic(auto, using(crate::proofs::Words::first_line, crate::proofs::Words::only_line))]
pub fn cut_line(text: &[u8]) -> Option<(&[u8], &[u8])>
    ensures some { IfSome result (λ r. lines_of text.now ≡ r.0.now ∷ lines_of r.1.now) }
    ensures none { IfNone result (lines_of text.now ≡ []) }
{
    if text.is_empty() {
        return None;
    }
    match cut(text, b'\n') {
        Some((line, rest)) => Some((line, rest)),
        None => Some(text.split_at(text.len())),
    }
}

/// What stands after a head.
pub fn strip_front<'a>(text: &'a [u8], head: &[u8]) -> Option<&'a [u8]>
    ensures { MatchOption result (LacksHead head.now text.now) (λ x. text.now ≡ head.now ++ x.now) }
{
    text.strip_prefix(head)
}

/// What stands before a tail.
pub fn strip_back<'a>(text: &'a [u8], tail: &[u8]) -> Option<&'a [u8]>
    ensures { MatchOption result (LacksTail tail.now text.now) (λ x. text.now ≡ x.now ++ tail.now) }
{
    text.strip_suffix(tail)
}

/// The number that is written so in decimal.
#[tactic(auto, using(crate::proofs::Numbers::utf8_decimal, crate::proofs::Numbers::begins, crate::proofs::Numbers::parsed))]
pub fn read_number(text: &[u8]) -> Option<u64>
    ensures { Decodes (λ n. n < 2 ^ 64) decimal text.now result }
{
    if !begins_as_decimal(text) {
        return None;
    }
    let Ok(digits) = str::from_utf8(text) else {
        return None;
    };
    digits.parse().ok()
}

// `0` alone, or a digit from 1 to 9 and what stands after it.
fn begins_as_decimal(text: &[u8]) -> bool
    ensures { result ≡ spec.begins_as_decimal text.now }
{
    match text {
        [b'0'] => true,
        [b'1'..=b'9', ..] => true,
        _ => false,
    }
}
