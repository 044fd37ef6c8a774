//! Patterns: which can be read, and whether a text begins with one.
ghost use Rattle.std.specs.Prelude.{◌≡◌, ◌∷◌, [], IfOk, IfErr, Some};
ghost use Rattle.regex.specs.Strings.{regex_source, regex_pattern, matcher_pattern};
ghost use Rattle.target_match.specs.Patterns.{IsReadable, IsCompiled, starts};
ghost use Rattle.target_match.specs.Building.{IsRefusalOf};

use crate::BuildFault;
use regex::{Error, Matcher, Regex};
use std::alloc::Global;

/// Compiles the pattern of a leaf.
pub fn compile(alloc: Global, pattern: &str, leaf: u32) -> Result<Regex, BuildFault>
    ensures ok { IfOk result (λ r. regex_source r ≡ pattern.now) }
    ensures compiled { IfOk result IsCompiled }
    ensures readable { IfOk result (λ _. IsReadable pattern.now) }
    ensures fault { IfErr result (IsRefusalOf pattern.now leaf) }
{
    match Regex::new(alloc, pattern) {
        Ok(regex) => Ok(regex),
        Err(Error::Syntax(_)) => Err(BuildFault::BadPattern { leaf }),
        Err(Error::CompiledTooBig) => Err(BuildFault::TooBig { leaf }),
        Err(Error::OutOfMemory) => Err(BuildFault::NoMemory),
        Err(Error::Internal) => unreachable!(),
    }
}

/// Whether the first match of the pattern in the text begins at its start, by a matcher of that pattern.
pub fn starts(matcher: &mut Matcher<'_>, _pattern: &Regex, text: &str) -> bool
    requires compiled { IsCompiled _pattern.now }
    requires same { matcher_pattern matcher.old ≡ regex_pattern _pattern.now }
    ensures value { result ≡ starts (regex_source _pattern.now) text.now }
    ensures kept { matcher_pattern matcher.new ≡ matcher_pattern matcher.old }
{
    match matcher.find(text) {
        Some(found) => found.start() == 0,
        None => false,
    }
}
