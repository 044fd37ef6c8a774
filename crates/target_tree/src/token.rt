//! What a word is.
ghost use Rattle.std.specs.Prelude.{◌≡◌, IfOk};
ghost use Rattle.target_tree.specs.Words.{token, letter_leaf, operand_token, is_paren, is_kind_letter};
ghost use Rattle.std.specs.List.{list_any};
ghost use Rattle.target_tree.specs.WordParts.{PartsWord};

use crate::Target;
use crate::items::id_list_of;
use salt_value::Text;
use sqlite_items::Boxed;
use std::alloc::{AllocError, Global};

/// What a word of a compound is.
#[derive(Drop)]
pub enum Token {
    AndWord,
    OrWord,
    NotWord,
    OpenWord,
    CloseWord,
    Leaf(Boxed<Target>),
    Pattern(Boxed<Target>),
    Nodegroup(Text),
    /// A capital and an `@` that begin no leaf.
    NoLetter,
    NoLeaf,
}

/// The text that owns its bytes.
pub fn to_text(alloc: Global, text: &str) -> Result<Text, AllocError>
    ensures { IfOk result (λ copy. copy ≡ text.now) }
{
    Ok(Text::new(String::from_str(alloc, text)?))
}

/// The word of a leaf without a pattern.
pub fn leaf(alloc: Global, tree: Target) -> Result<Token, AllocError>
    ensures { IfOk result (λ t. t ≡ Token.Leaf tree) }
{
    Ok(Token::Leaf(Boxed::new(alloc, tree)?))
}

/// The word of a leaf with a pattern.
pub fn pattern(alloc: Global, tree: Target) -> Result<Token, AllocError>
    ensures { IfOk result (λ t. t ≡ Token.Pattern tree) }
{
    Ok(Token::Pattern(Boxed::new(alloc, tree)?))
}

/// The leaf of a letter, by the text after its `@`.
#[tactic(auto, unfolding(crate::specs::Words::letter_leaf))]
fn lettered_of(alloc: Global, letter: u8, text: &str) -> Result<Token, AllocError>
    ensures { IfOk result (λ t. t ≡ letter_leaf letter text.now) }
{
    if letter == b'G' {
        leaf(alloc, Target::GrainGlob(to_text(alloc, text)?))
    } else if letter == b'E' {
        pattern(alloc, Target::IdPcre(to_text(alloc, text)?))
    } else if letter == b'P' {
        pattern(alloc, Target::GrainPcre(to_text(alloc, text)?))
    } else if letter == b'L' {
        id_list_of(alloc, text)
    } else if letter == b'I' {
        leaf(alloc, Target::PillarGlob(to_text(alloc, text)?))
    } else if letter == b'J' {
        pattern(alloc, Target::PillarPcre(to_text(alloc, text)?))
    } else if letter == b'N' {
        Ok(Token::Nodegroup(to_text(alloc, text)?))
    } else {
        Ok(Token::NoLetter)
    }
}

fn has_paren(word: &str) -> bool
    ensures { result ≡ list_any is_paren word.now }
{
    word.as_bytes().iter().any(|b| *b == b'(' || *b == b')')
}

/// The capital before an `@` in the second place, and what follows it.
fn parted(word: &str) -> Option<(u8, &str)>
    ensures { PartsWord word.now result }
{
    let Some((front, text)) = word.split_once('@') else {
        return None;
    };
    if front.len() != 1 {
        return None;
    }
    let letter = front.as_bytes()[0];
    if letter < b'A' || letter > b'Z' {
        return None;
    }
    Some((letter, text))
}

fn is_letter_of(letter: u8) -> bool
    ensures { result ≡ is_kind_letter letter }
{
    letter == b'G'
        || letter == b'E'
        || letter == b'P'
        || letter == b'L'
        || letter == b'I'
        || letter == b'J'
        || letter == b'N'
}

/// A word that is an operand.
fn operand_of(alloc: Global, word: &str) -> Result<Token, AllocError>
    ensures { IfOk result (λ t. t ≡ operand_token word.now) }
{
    match parted(word) {
        None => {
            if has_paren(word) {
                return Ok(Token::NoLeaf);
            }
            leaf(alloc, Target::IdGlob(to_text(alloc, word)?))
        }
        Some((letter, text)) => {
            if !text.is_empty() {
                return lettered_of(alloc, letter, text);
            }
            if is_letter_of(letter) {
                return Ok(Token::NoLeaf);
            }
            lettered_of(alloc, letter, text)
        }
    }
}

/// What this word is.
#[tactic(auto, unfolding(crate::specs::Words::token))]
pub fn token_of(alloc: Global, word: &str) -> Result<Token, AllocError>
    ensures { IfOk result (λ t. t ≡ token word.now) }
{
    if word == "and" {
        Ok(Token::AndWord)
    } else if word == "or" {
        Ok(Token::OrWord)
    } else if word == "not" {
        Ok(Token::NotWord)
    } else if word == "(" {
        Ok(Token::OpenWord)
    } else if word == ")" {
        Ok(Token::CloseWord)
    } else {
        operand_of(alloc, word)
    }
}
