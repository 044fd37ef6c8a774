//! The words of a command line, or why they were not read.
ghost use Rattle.std.specs.Prelude.{◌≡◌, IfOk, IfErr, IsErrOf};
ghost use Rattle.std.specs.IoError.{error_kind};
ghost use Rattle.salt_commands.specs.declared.words.Unread.TheVariants.{NoMemory};
ghost use Rattle.salt_commands.specs.Words.{words_among, cause_of, AreWordsOf};

use salt_value::Text;
use std::alloc::{AllocError, Global};
use std::env::Args;
use std::io;

/// Why the words of a command line were not read.
#[derive(Clone, Copy, Debug, PartialEq, Eq)]
pub enum Unread {
    /// One of them is no UTF-8.
    NotUtf8,
    /// Want of memory.
    NoMemory,
    /// Another fault of the system that gives them.
    Other,
}

impl From<AllocError> for Unread {
    ghost from_gives = { λ _ cause. cause ≡ NoMemory };

    fn from(_error: AllocError) -> Unread {
        Unread::NoMemory
    }
}

impl From<io::Error> for Unread {
    ghost from_gives = { λ error cause. cause ≡ cause_of (error_kind error) };

    /// The cause, by the kind of the system's error: invalid data says that a word is no UTF-8.
    fn from(error: io::Error) -> Unread {
        match error.kind() {
            io::ErrorKind::InvalidData => Unread::NotUtf8,
            io::ErrorKind::OutOfMemory => Unread::NoMemory,
            _ => Unread::Other,
        }
    }
}

/// The words of a command line, of a program's arguments as the system gave them: all but the first argument, which is the program's own
/// name, in their order. Where the arguments were not given, the kind of the error is the cause.
pub fn read_words(alloc: Global, args: io::Result<Args>) -> Result<Vec<Text>, Unread>
    ensures ok { IfOk result (AreWordsOf args) }
    ensures fault { IfErr args (λ error. IsErrOf result (cause_of (error_kind error))) }
    ensures memory { IfOk args (λ _. IfErr result (λ cause. cause ≡ NoMemory)) }
{
    let words = words_of(alloc, args?)?;
    Ok(words)
}

fn words_of(alloc: Global, args: Args) -> Result<Vec<Text>, AllocError>
    ensures ok { IfOk result (λ words. words.items ≡ words_among args) }
{
    args.skip(1).map(Text::new).collect(alloc)
}
