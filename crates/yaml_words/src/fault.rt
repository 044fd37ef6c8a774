//! Why a text is refused.
ghost use Rattle.std.specs.Prelude.{◌≡◌};

use std::alloc::AllocError;
use thiserror::Error;

/// Why a line is refused (this project's own subset of YAML 1.2).
#[derive(Clone, Copy, Debug, PartialEq, Eq)]
pub enum YamlCause {
    /// The line's indentation belongs to no open block, or a line of another form stands in a block.
    Indent,
    /// A tab stands in the indentation.
    Tab,
    /// A quote isn't closed, an escape is none of those that there are, or text follows the closing quote.
    Quote,
    /// A map has the key already.
    KeyTwice,
    /// A number has a leading zero, a fraction or an exponent, or doesn't fit in 64 bits with its sign.
    Number,
    /// A plain scalar has a `{{` that no `}}` follows, or a key has a `{{`.
    BadMark,
    /// A value would be at level 33.
    TooDeep,
    /// A scalar has over 65,536 bytes.
    TooLarge,
    /// The line has what the subset leaves out.
    Unsupported,
}

/// Why a text is no tree.
#[derive(Clone, Copy, Debug, Error, PartialEq, Eq)]
pub enum YamlFault {
    #[error("no memory was found")]
    NoMemory,
    /// The number of the first line that has a fault, and the first one that it has.
    #[error("line {line} is refused")]
    Line { line: u32, cause: YamlCause },
}

impl From<AllocError> for YamlFault {
    ghost use Rattle.yaml_words.specs.declared.fault.YamlFault.TheVariants.{NoMemory};

    ghost from_gives = { λ _ e. e ≡ NoMemory };

    fn from(_: AllocError) -> YamlFault {
        YamlFault::NoMemory
    }
}

/// A fault of the line with this number.
pub fn refused(line: u32, cause: YamlCause) -> YamlFault
    ensures { result ≡ YamlFault.Line line cause }
{
    YamlFault::Line { line, cause }
}
