//! A target that is ready for matching.
ghost use Rattle.std.specs.Prelude.{◌≡◌, None, [], IfOk, IfErr, IsOk, IsTrue};
ghost use Rattle.target_match.specs.Holds.{Data, holds, is_by_id, decision_by_id, patterns, AreReadable};
ghost use Rattle.target_match.specs.Readability.{unread_leaf, IsBuildFault};
ghost use Rattle.target_match.specs.Searches.{Keeps, AddsAsked};

use crate::BuildFault;
use crate::building::ready;
use crate::holding::holds;
use crate::ids::by_id;
use crate::ready::Ready;
use crate::search::Searches;
use salt_value::{Fields, MinionId};
use std::alloc::{AllocError, Global};
use std::marker::Model;
use target_tree::Target;

/// A target with what can be made of it once for all minions. Contracts see the target.
#[derive(Drop)]
pub struct Matcher {
    alloc: Global,
    ready: Ready,
}

impl Model for Matcher {
    ghost use Rattle.target_tree.specs.declared.target.Target.{Target};
    ghost use Rattle.target_tree.specs.contracts.target.Target as target;
    ghost use Rattle.std.specs.Coded.{codes};
    ghost use Rattle.target_match.specs.Ready.{target_of};

    ghost Value = { Target };

    ghost coded = { Prim.hlevel (codes, target.the_row.coded) };

    ghost view = { λ m. target_of m.ready };
}

impl Matcher {
    /// Makes a copy of the target ready. `BadPattern` and `TooBig` name the first leaf whose pattern isn't compiled.
    pub fn build(alloc: Global, target: &Target) -> Result<Matcher, BuildFault>
        ensures ok { IfOk result (λ m. m ≡ target.now) }
        ensures readable { IfOk result (λ _. unread_leaf target.now ≡ None) }
        ensures readable_leaves { IfOk result (λ _. AreReadable (patterns target.now)) }
        ensures fault { IfErr result (IsBuildFault target.now) }
    {
        let mut leaves = 0;
        let ready = ready(alloc, target, &mut leaves)?;
        Ok(Matcher { alloc, ready })
    }

    /// What the id alone decides: Some exactly where every leaf is a glob of the id or a list of ids, and then what `holds`
    /// answers. It takes no memory.
    pub fn holds_id(&self, id: &MinionId) -> Option<bool>
        ensures { (grains pillar : Data) → result ≡ decision_by_id self.now id.now grains pillar }
    {
        by_id(&self.ready, id.as_bytes())
    }

    /// Whether the target holds for a minion with this id, these grains and this pillar (Salt documentation, Targeting Minions).
    /// It takes memory for the digits of numbers and for the searches of patterns alone, and so none where each leaf is a glob
    /// of the id or a list of ids.
    pub fn holds(&self, id: &MinionId, grains: &Fields, pillar: &Fields) -> Result<bool, AllocError>
        ensures value { IfOk result (λ b. b ≡ holds self.now id.now grains.now pillar.now) }
        ensures memory { IsTrue (is_by_id self.now) → IsOk result }
    {
        let mut searches = self.searches();
        self.holds_with(&mut searches, id, grains, pillar)
    }

    /// Room for the searches of this matcher's patterns. None is made yet.
    pub fn searches(&self) -> Searches<'_>
        ensures { result ≡ [] }
    {
        Searches::new(self.alloc)
    }

    /// What `holds` answers. The searches that are there stay for the next minion, also after want of memory, and none is made
    /// for a pattern that has one. After an answer each pattern that was asked has its search, and no other search was made.
    pub fn holds_with<'m>(
        &'m self,
        kept: &mut Searches<'m>,
        id: &MinionId,
        grains: &Fields,
        pillar: &Fields,
    ) -> Result<bool, AllocError>
        ensures value { IfOk result (λ b. b ≡ holds self.now id.now grains.now pillar.now) }
        ensures searches { Keeps (patterns self.now) kept.old kept.new }
        ensures asked { AddsAsked result id.now grains.now pillar.now self.now kept.old kept.new }
        ensures memory { IsTrue (is_by_id self.now) → IsOk result }
    {
        holds(
            self.alloc,
            &self.ready,
            kept,
            id,
            grains.as_slice(),
            pillar.as_slice(),
        )
    }
}
