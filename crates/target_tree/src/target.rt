//! Trees of targets.
ghost use Rattle.std.specs.Prelude.{◌≡◌, IfOk};

use crate::copy;
use salt_value::{Ids, Text};
use sqlite_items::Boxed;
use std::alloc::{AllocError, Global};

/// Which minions are meant: the tree that a target's text stands for.
#[derive(Drop)]
pub enum Target {
    /// Those whose id a glob holds for.
    IdGlob(Text),
    /// Those whose whole id a pattern matches.
    IdPcre(Text),
    /// Those with one of these ids.
    IdList(Ids),
    /// A path into the grains and a glob of the value there, joined by colons.
    GrainGlob(Text),
    /// A path into the grains and a pattern of the value there, joined by colons.
    GrainPcre(Text),
    /// The same of the pillar as of the grains.
    PillarGlob(Text),
    PillarPcre(Text),
    /// Those that are not meant by this one.
    Not(Boxed<Target>),
    /// Those that both mean.
    And(Boxed<Target>, Boxed<Target>),
    /// Those that one of them means.
    Or(Boxed<Target>, Boxed<Target>),
}

impl Target {
    /// An equal tree in memory of its own. It goes as deep as the tree, which is at most 256 deep where `read_target` made it.
    pub fn copy(&self, alloc: Global) -> Result<Target, AllocError>
        ensures { IfOk result (λ copy. copy ≡ self.now) }
    {
        copy::copy(alloc, self)
    }
}
