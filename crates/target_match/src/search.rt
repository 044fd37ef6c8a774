//! Searches for patterns, made once for any number of minions.
ghost use Rattle.std.specs.Prelude.{◌≡◌, ◌<◌, [], length, position, bytes_eq, IfOk};
ghost use Rattle.regex.specs.Strings.{regex_source};
ghost use Rattle.target_match.specs.Patterns.{IsCompiled, starts};
ghost use Rattle.target_match.specs.Data.{fields_reach};
ghost use Rattle.target_match.specs.Searches.{KeepsFor, IsPlaceOf};

use crate::pattern::starts;
use crate::reach::pairs_reached;
use regex::{Matcher, Regex};
use salt_value::{Text, Value};
use std::alloc::{AllocError, Global};
use std::marker::Model;

/// What searches for one pattern. Contracts see the text of the pattern.
#[derive(Drop)]
pub struct Search<'m> {
    regex: &'m Regex,
    matcher: Matcher<'m>,
}

impl<'m> Model for Search<'m> {
    ghost use Rattle.std.specs.Prelude.{◌≡◌, ℕ, List};
    ghost use Rattle.std.specs.Coded.{coded_ℕ, coded_list};
    ghost use Rattle.regex.specs.Strings.{regex_source, regex_pattern, matcher_pattern};
    ghost use Rattle.target_match.specs.Patterns.{IsCompiled};

    ghost Value = { List ℕ };

    ghost coded = { coded_list coded_ℕ };

    ghost view = { λ s. regex_source s.regex.now };

    ghost invariant = { λ s. IsCompiled s.regex.now × (matcher_pattern s.matcher ≡ regex_pattern s.regex.now) };
}

impl<'m> Search<'m> {
    fn new(alloc: Global, regex: &'m Regex) -> Result<Search<'m>, AllocError>
        requires { IsCompiled regex.now }
        ensures { IfOk result (λ s. s ≡ regex_source regex.now) }
    {
        let matcher = regex.matcher(alloc)?;
        Ok(Search { regex, matcher })
    }

    fn source(&self) -> &str
        ensures { result.now ≡ self.now }
    {
        self.regex.as_str()
    }

    /// Whether a text begins with the pattern.
    pub fn starts(&mut self, text: &str) -> bool
        ensures value { result ≡ starts self.old text.now }
        ensures kept { self.new ≡ self.old }
    {
        starts(&mut self.matcher, self.regex, text)
    }

    /// Whether what stands at the end of a path begins with the pattern.
    pub fn reaches(
        &mut self,
        alloc: Global,
        fields: &[(Text, Value)],
        path: &[Text],
    ) -> Result<bool, AllocError>
        ensures ok { IfOk result (λ b. b ≡ fields_reach (starts self.old) fields.now path.now) }
        ensures kept { self.new ≡ self.old }
    {
        pairs_reached(alloc, &mut self.matcher, self.regex, fields, path)
    }
}

/// The place of the search for this pattern, if there is one.
fn place_of(searches: &[Search<'_>], source: &str) -> Option<usize>
    ensures { result ≡ position (bytes_eq source.now) searches.now }
{
    searches.iter().position(|search| source == search.source())
}

/// The place of the search for this pattern, which is made where there is none yet.
pub fn made<'m>(
    alloc: Global,
    searches: &mut Vec<Search<'m>>,
    regex: &'m Regex,
) -> Result<usize, AllocError>
    requires { IsCompiled regex.now }
    ensures within { IfOk result (λ place. place < length searches.new.items) }
    ensures same { IfOk result (IsPlaceOf (regex_source regex.now) searches.new.items) }
    ensures searches { KeepsFor (regex_source regex.now) searches.old.items searches.new.items }
{
    match place_of(searches.as_slice(), regex.as_str()) {
        Some(place) => Ok(place),
        None => {
            let place = searches.len();
            searches.push(Search::new(alloc, regex)?)?;
            Ok(place)
        }
    }
}

/// The searches that were made for the patterns of one matcher. Handed to each decision, they are made but once for
/// all minions. Contracts see the texts of their patterns, in the order in which they were made.
#[derive(Drop)]
pub struct Searches<'m> {
    pub(crate) made: Vec<Search<'m>>,
}

impl<'m> Model for Searches<'m> {
    ghost use Rattle.std.specs.Prelude.{ℕ, List};

    ghost Value = { List (List ℕ) };

    ghost view = { λ s. s.made.items };
}

impl<'m> Searches<'m> {
    pub(crate) fn new(alloc: Global) -> Searches<'m>
        ensures { result ≡ [] }
    {
        Searches {
            made: Vec::new(alloc),
        }
    }
}
