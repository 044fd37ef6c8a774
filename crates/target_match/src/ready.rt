//! Trees that are ready for matching.
use crate::leaf::{DataPattern, IdPattern};
use salt_value::{MinionId, Text};
use sqlite_items::{Boxed, Items};

/// The tree of a target whose patterns are compiled and whose paths are split.
#[derive(Drop)]
pub enum Ready {
    IdGlob(Text),
    IdPcre(IdPattern),
    IdList(Items<MinionId>),
    GrainGlob(Text),
    GrainPcre(DataPattern),
    PillarGlob(Text),
    PillarPcre(DataPattern),
    Not(Boxed<Ready>),
    And(Boxed<Ready>, Boxed<Ready>),
    Or(Boxed<Ready>, Boxed<Ready>),
}
