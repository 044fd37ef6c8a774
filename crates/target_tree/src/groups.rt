//! Nodegroups.
ghost use Rattle.std.specs.Prelude.{◌≡◌, [], ◌∷◌, ◌++◌, ◌↔◌, IsTrue, None, Err, IfErr, OnOk, OnErr};
ghost use Rattle.target_tree.specs.Nodegroups.{FindsGroup, text_named, is_named, HaveIds};
ghost use Rattle.salt_value.specs.Id.{IsId};

use indexmap::IndexMap;
use salt_value::{MinionId, Text};
use std::alloc::Global;
use std::marker::Model;
use thiserror::Error;

/// Why a nodegroup was not added.
#[derive(Clone, Copy, Debug, Error, PartialEq, Eq)]
pub enum GroupFault {
    /// There is no memory for one more.
    #[error("no memory for the nodegroup")]
    NoMemory,
    /// A nodegroup has the name already.
    #[error("a nodegroup has this name already")]
    Twice,
}

/// The nodegroups: names, and the compounds that they stand for, in the order in which they were added.
#[derive(Drop)]
pub struct Groups {
    texts: IndexMap<MinionId, Text>,
}

impl Model for Groups {
    ghost use Rattle.std.specs.Prelude.{List};
    ghost use Rattle.target_tree.specs.Nodegroups.{Group, HaveIds};

    ghost Value = { List Group };

    ghost view = { λ g. g.texts.entries };

    ghost invariant = { λ g. HaveIds g.texts.entries };
}

// A name that isn't there, and its text, after the others.
fn put_last(
    texts: &mut IndexMap<MinionId, Text>,
    name: MinionId,
    text: Text,
) -> Result<(), GroupFault>
    requires absent { text_named texts.old.entries name ≡ None }
    requires id { IsId name }
    requires ids { HaveIds texts.old.entries }
    ensures ok { OnOk result (texts.new.entries ≡ texts.old.entries ++ (name, text) ∷ []) }
    ensures err { OnErr result (texts.new.entries ≡ texts.old.entries) }
    ensures ids { HaveIds texts.new.entries }
    ensures memory { IfErr result (λ fault. fault ≡ GroupFault.NoMemory) }
{
    match texts.insert(name, text) {
        Ok(_) => Ok(()),
        Err(_) => Err(GroupFault::NoMemory),
    }
}

impl Groups {
    /// No nodegroup. It takes no memory.
    pub fn new(alloc: Global) -> Groups
        ensures { result ≡ [] }
    {
        Groups {
            texts: IndexMap::new(alloc),
        }
    }

    /// Adds a nodegroup after the others. Its text is read only where a target names it. `Twice` comes exactly where the name is there.
    /// After an error nothing has changed.
    pub fn add(&mut self, name: MinionId, text: Text) -> Result<(), GroupFault>
        ensures ok { OnOk result (self.new ≡ self.old ++ (name, text) ∷ []) }
        ensures err { OnErr result (self.new ≡ self.old) }
        ensures twice { (result ≡ Err GroupFault.Twice) ↔ IsTrue (is_named self.old name) }
    {
        if self.find(name.as_str()).is_some() {
            return Err(GroupFault::Twice);
        }
        put_last(&mut self.texts, name, text)
    }

    /// The text of a name, if a nodegroup has it.
    pub fn find(&self, name: &str) -> Option<&Text>
        ensures { FindsGroup self.now name.now result }
    {
        match MinionId::read(name) {
            Ok(id) => self.texts.get(&id),
            Err(_) => None,
        }
    }
}
