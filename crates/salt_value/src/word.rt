//! Words: the tags of events and the names of functions.
ghost use Rattle.std.specs.Prelude.{◌≡◌, not, position, IfOk, IfErr};
ghost use Rattle.salt_value.specs.Word as spec;

use crate::limits::MOST_WORD_BYTES;
use std::alloc::{AllocError, Global};
use std::marker::Model;
use thiserror::Error;

/// The tag of an event or the name of a function: 1 to 256 bytes, each from 0x21 to 0x7E.
/// The limit is this project's own. Contracts see its bytes.
#[derive(Debug, Drop)]
pub struct Word {
    inner: String,
}

impl Model for Word {
    ghost use Rattle.std.specs.Prelude.{ℕ, List, string_bytes};
    ghost use Rattle.std.specs.Coded.{coded_list, coded_ℕ};

    ghost Value = { List ℕ };

    ghost coded = { coded_list coded_ℕ };

    ghost use Rattle.salt_value.specs.Word.{IsWord};

    ghost view = { λ w. string_bytes w.inner };

    ghost invariant = { λ w. IsWord (string_bytes w.inner) };
}

/// Why a text is no word, the first in this order.
#[derive(Clone, Copy, Debug, Error, PartialEq, Eq)]
pub enum WordFault {
    #[error("no memory was found")]
    NoMemory,
    #[error("the word is empty")]
    Empty,
    #[error("the word has {length} bytes, more than 256")]
    TooLong { length: usize },
    #[error("byte {at} is in no word")]
    BadByte { at: usize },
}

fn is_word_byte(b: u8) -> bool
    ensures { result ≡ spec.is_word_byte b }
{
    matches!(b, 0x21..=0x7e)
}

// The place of the first byte that is in no word.
fn first_bad(text: &[u8]) -> Option<usize>
    ensures { result ≡ position (λ b. not (spec.is_word_byte b)) text.now }
{
    text.iter().position(|b| !is_word_byte(*b))
}

// The word of a text that is one.
fn made(alloc: Global, text: &str) -> Result<Word, WordFault>
    requires { spec.IsWord text.now }
    ensures ok { IfOk result (λ word. word ≡ text.now) }
    ensures fault { IfErr result (spec.HasFault text.now) }
    ensures only { IfErr result (λ e. e ≡ WordFault.NoMemory) }
{
    match String::from_str(alloc, text) {
        Ok(inner) => Ok(Word { inner }),
        Err(_) => Err(WordFault::NoMemory),
    }
}

impl Word {
    ghost use Rattle.salt_value.specs.Word.{IsWord, HasFault};
    ghost use Rattle.salt_value.specs.declared.word.WordFault.{WordFault};

    /// The word that has this text.
    #[tactic(auto, using(crate::proofs::Places::all_from_none, crate::proofs::Places::none_from_all))]
    pub fn read(alloc: Global, text: &str) -> Result<Word, WordFault>
        ensures ok { IfOk result (λ word. (word ≡ text.now) × IsWord text.now) }
        ensures fault { IfErr result (HasFault text.now) }
        ensures complete { IsWord text.now → IfErr result (λ e. e ≡ WordFault.NoMemory) }
    {
        if text.is_empty() {
            return Err(WordFault::Empty);
        }
        if text.len() > MOST_WORD_BYTES {
            return Err(WordFault::TooLong { length: text.len() });
        }
        match first_bad(text.as_bytes()) {
            Some(at) => Err(WordFault::BadByte { at }),
            None => made(alloc, text),
        }
    }

    pub fn as_str(&self) -> &str
        ensures value { result.now ≡ self.now }
        ensures valid { IsWord self.now }
    {
        self.inner.as_str()
    }

    pub fn as_bytes(&self) -> &[u8]
        ensures value { result.now ≡ self.now }
        ensures valid { IsWord self.now }
    {
        self.inner.as_bytes()
    }

    /// An equal word in memory of its own.
    pub fn copy(&self) -> Result<Word, AllocError>
        ensures { IfOk result (λ word. word ≡ self.now) }
    {
        Ok(Word {
            inner: self.inner.clone()?,
        })
    }
}
