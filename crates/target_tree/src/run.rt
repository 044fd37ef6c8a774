//! The reading of a text and of those that its nodegroups stand for.
ghost use Rattle.std.specs.Prelude.{◌≡◌, ◌+◌, ◌-◌, ◌≤◌, ◌<◌, ◌∷◌, Ok, IfOk, IfErr, OnOk, length};
ghost use Rattle.target_tree.specs.Limits.{most_words, most_texts};
ghost use Rattle.target_tree.specs.Words.{tokens_of, token};
ghost use Rattle.target_tree.specs.Nodegroups.{is_among};
ghost use Rattle.target_tree.specs.Machine.{GivesTree};
ghost use Rattle.target_tree.specs.WaitingTexts.{GivesBy, EntersText, OpensText, IsInner, ReadsWord, ReadsGroup, rest_tree, within, names_of};

use crate::limits::{MOST_TEXT_BYTES, MOST_WORDS};
use crate::reader::{Ended, Reader};
use crate::stack::Stack;
use crate::token::{Token, token_of};
use crate::words::next_word;
use crate::{Groups, Target, TargetFault};
use salt_value::Text;
use std::alloc::Global;

/// A text that waits for the words of a nodegroup.
#[derive(Drop)]
pub struct Outer<'a> {
    pub reader: Reader,
    pub rest: &'a str,
    pub name: Text,
}

/// Tests whether one of these texts waits for that name.
fn is_waiting(outers: &Stack<Outer<'_>>, name: &Text) -> bool
    ensures { result ≡ is_among (names_of outers.now) name.now }
{
    for outer in outers.bottom_up() {
        if outer.name.as_str().as_bytes() == name.as_str().as_bytes() {
            return true;
        }
    }
    false
}

/// A text that has a word and isn't too long.
pub fn checked<'a>(text: &'a str) -> Result<&'a str, TargetFault>
    ensures { GivesBy (λ x. x.now) result (within text.entry.now) }
{
    let Some((_word, _more)) = next_word(text) else {
        return Err(TargetFault::Empty);
    };
    if text.len() > MOST_TEXT_BYTES {
        return Err(TargetFault::TooLong);
    }
    Ok(text)
}

/// The text of a nodegroup, where it may be read.
fn enter<'a>(
    groups: &'a Groups,
    outers: &Stack<Outer<'_>>,
    name: &Text,
    at: u32,
) -> Result<&'a str, TargetFault>
    ensures { EntersText groups.entry.now outers.now name.now at result }
{
    let Some(text) = groups.find(name.as_str()) else {
        return Err(TargetFault::UnknownGroup { at });
    };
    if is_waiting(outers, name) {
        return Err(TargetFault::Circle { at });
    }
    checked(text.as_str())
}

/// The text that a nodegroup's word begins.
fn open_group<'a>(
    groups: &'a Groups,
    outers: &Stack<Outer<'_>>,
    reader: &Reader,
    name: &Text,
) -> Result<&'a str, TargetFault>
    ensures { OpensText groups.entry.now outers.now name.now reader.now result }
{
    let at = reader.at;
    if at >= MOST_WORDS {
        return Err(TargetFault::TooManyWords);
    }
    match &reader.last {
        None => enter(groups, outers, name, at),
        Some(_) => Err(TargetFault::Word { at }),
    }
}

/// Lets a text wait for the words of a nodegroup.
fn begin_group<'a>(
    alloc: Global,
    outers: &mut Stack<Outer<'a>>,
    outer: Outer<'a>,
) -> Result<Reader, TargetFault>
    requires { outer.reader.at < most_words }
    ensures ok { IfOk result (IsInner outer.entry.reader) }
    ensures outers { OnOk result (outers.new ≡ outer.entry ∷ outers.old) }
    ensures memory { IfErr result (λ e. e ≡ TargetFault.NoMemory) }
{
    let inner = Reader::begin(
        alloc,
        outer.reader.part.nest.deep,
        outer.reader.at + 1,
        outer.reader.patterns,
    );
    outers.push(outer)?;
    Ok(inner)
}

/// A nodegroup's word.
fn group_word<'a>(
    alloc: Global,
    groups: &'a Groups,
    outers: &mut Stack<Outer<'a>>,
    outer: Outer<'a>,
) -> Result<(Reader, &'a str), TargetFault>
    requires { (length outers.old ≤ outer.reader.at) × (outer.reader.at ≤ most_words) }
    ensures { ReadsGroup groups.entry.now outers.old outers.new outer.entry result }
{
    let text = open_group(groups, outers, &outer.reader, &outer.name)?;
    let inner = begin_group(alloc, outers, outer)?;
    Ok((inner, text))
}

/// Any word, and what follows it.
pub fn one_word<'a>(
    alloc: Global,
    groups: &'a Groups,
    outers: &mut Stack<Outer<'a>>,
    reader: Reader,
    word: Token,
    more: &'a str,
) -> Result<(Reader, &'a str), TargetFault>
    requires { (length outers.old ≤ reader.at) × (reader.at ≤ most_words) }
    ensures { ReadsWord groups.entry.now outers.old outers.new reader word more.entry.now result }
{
    match word {
        Token::Nodegroup(name) => {
            let outer = Outer {
                reader,
                rest: more,
                name,
            };
            group_word(alloc, groups, outers, outer)
        }
        word => {
            let next = reader.word(alloc, word)?;
            Ok((next, more))
        }
    }
}

/// Reads what is left, over all texts.
pub fn run<'a>(
    alloc: Global,
    groups: &'a Groups,
    outers: Stack<Outer<'a>>,
    reader: Reader,
    rest: &'a str,
) -> Result<Target, TargetFault>
    requires { (length outers ≤ reader.at) × (reader.at ≤ most_words) }
    ensures { GivesTree result (rest_tree groups.entry.now outers.entry rest.entry.now reader) }
{
    let mut outers = outers;
    let mut reader = reader;
    let mut rest = rest;
    loop {
        match next_word(rest) {
            Some((word, more)) => {
                let word = token_of(alloc, word)?;
                let (next, to) = one_word(alloc, groups, &mut outers, reader, word, more)?;
                reader = next;
                rest = to;
            }
            None => {
                let ended = reader.end(alloc)?;
                let Some(outer) = outers.pop() else {
                    return Ok(ended.tree.into_inner());
                };
                reader = outer.reader.resume(alloc, ended)?;
                rest = outer.rest;
            }
        }
    }
}
