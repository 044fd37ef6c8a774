//! Patterns of leaves with what is made of them once. Contracts see the text of the leaf.
ghost use Rattle.std.specs.Prelude.{◌≡◌, IfOk, IfErr, OnOk};
ghost use Rattle.target_match.specs.Paths.{pattern_in};
ghost use Rattle.target_match.specs.Patterns.{IsReadable, starts};
ghost use Rattle.target_match.specs.Holds.{pattern_holds};
ghost use Rattle.target_match.specs.Searches.{KeepsFor, HasSearch};
ghost use Rattle.target_match.specs.Building.{IsRefusalOf};

use crate::BuildFault;
use crate::parts::path_and_pattern;
use crate::pattern::compile;
use crate::search::{Search, made};
use regex::Regex;
use salt_value::{Text, Value};
use std::alloc::{AllocError, Global};
use std::marker::Model;

/// A pattern of the id.
#[derive(Drop)]
pub struct IdPattern {
    regex: Regex,
}

impl Model for IdPattern {
    ghost use Rattle.std.specs.Prelude.{ℕ, List};
    ghost use Rattle.std.specs.Coded.{coded_ℕ, coded_list};
    ghost use Rattle.regex.specs.Strings.{regex_source};
    ghost use Rattle.target_match.specs.Patterns.{IsCompiled};

    ghost Value = { List ℕ };

    ghost coded = { coded_list coded_ℕ };

    ghost view = { λ p. regex_source p.regex };

    ghost invariant = { λ p. IsCompiled p.regex };
}

impl IdPattern {
    pub fn new(alloc: Global, text: &Text, leaf: u32) -> Result<IdPattern, BuildFault>
        ensures ok { IfOk result (λ p. p ≡ text.now) }
        ensures readable { IfOk result (λ _. IsReadable text.now) }
        ensures fault { IfErr result (IsRefusalOf text.now leaf) }
    {
        let regex = compile(alloc, text.as_str(), leaf)?;
        Ok(IdPattern { regex })
    }

    /// Whether the id begins with the pattern.
    pub fn holds<'m>(
        &'m self,
        alloc: Global,
        searches: &mut Vec<Search<'m>>,
        id: &str,
    ) -> Result<bool, AllocError>
        ensures ok { IfOk result (λ b. b ≡ starts self.now id.now) }
        ensures searches { KeepsFor self.now searches.old.items searches.new.items }
        ensures asked { OnOk result (HasSearch self.now searches.new.items) }
    {
        let place = made(alloc, searches, &self.regex)?;
        let search = &mut searches[place];
        Ok(search.starts(id))
    }
}

/// A path into grains or pillar and a pattern of what stands at its end.
#[derive(Drop)]
pub struct DataPattern {
    text: Text,
    path: Vec<Text>,
    regex: Regex,
}

impl Model for DataPattern {
    ghost use Rattle.std.specs.Prelude.{ℕ, List};
    ghost use Rattle.std.specs.Coded.{coded_ℕ, coded_list};
    ghost use Rattle.target_match.specs.Leaves.{IsDataPattern};

    ghost Value = { List ℕ };

    ghost coded = { coded_list coded_ℕ };

    ghost view = { λ p. p.text };

    ghost invariant = { λ p. IsDataPattern p.text p.path.items p.regex };
}

impl DataPattern {
    pub fn new(alloc: Global, text: &Text, leaf: u32) -> Result<DataPattern, BuildFault>
        ensures ok { IfOk result (λ p. p ≡ text.now) }
        ensures readable { IfOk result (λ _. IsReadable (pattern_in text.now)) }
        ensures fault { IfErr result (IsRefusalOf (pattern_in text.now) leaf) }
    {
        let text = text.copy()?;
        let split = path_and_pattern(alloc, text.as_str())?;
        let regex = compile(alloc, split.1, leaf)?;
        let path = split.0;
        Ok(DataPattern { text, path, regex })
    }

    /// Whether what stands at the end of the path begins with the pattern.
    pub fn holds<'m>(
        &'m self,
        alloc: Global,
        searches: &mut Vec<Search<'m>>,
        fields: &[(Text, Value)],
    ) -> Result<bool, AllocError>
        ensures ok { IfOk result (λ b. b ≡ pattern_holds self.now fields.now) }
        ensures searches { KeepsFor (pattern_in self.now) searches.old.items searches.new.items }
        ensures asked { OnOk result (HasSearch (pattern_in self.now) searches.new.items) }
    {
        let place = made(alloc, searches, &self.regex)?;
        let search = &mut searches[place];
        search.reaches(alloc, fields, self.path.as_slice())
    }
}
