//! A node that is added to a fleet, and why it may be refused.
use crate::Role;
use exec_functions::Holdings;
use salt_value::{MinionId, NodeId};
use std::alloc::AllocError;
use thiserror::Error;

/// A node to add to a fleet. A top has no parent, every other node one.
#[derive(Drop)]
pub struct FleetNode {
    pub id: MinionId,
    pub role: Role,
    pub parent: Option<NodeId>,
    /// Where a master listens; 0 where it says nothing of it.
    pub port: u16,
    /// What a minion holds at first. Each part is a map within the limits of a value.
    pub held: Holdings,
}

/// Why a node is not added. The causes after `NoMemory` stand in the order in which they are looked for.
#[derive(Clone, Copy, Debug, Error, PartialEq, Eq)]
pub enum NodeFault {
    #[error("no memory was found")]
    NoMemory,
    /// The first node is not a top.
    #[error("the first node is no top")]
    NoTop,
    /// A later node is a top.
    #[error("there is a top already")]
    TwoTops,
    /// A node with this id is there.
    #[error("the id is there already")]
    TwiceId,
    /// A top has a parent, or another node's parent is none or no master that is there.
    #[error("the parent is no master of this fleet")]
    NoParent,
    /// There are 4,096 minions, or 256 syndics, already.
    #[error("there are as many nodes of this role as a fleet may have")]
    TooMany,
    /// The parent is on the eighth level.
    #[error("the node lies too deep")]
    TooDeep,
    /// A part of what the node holds is over the limits of a value: 32 levels, and 65,536 bytes.
    #[error("the node holds too much")]
    TooLarge,
}

impl From<AllocError> for NodeFault {
    ghost use Rattle.std.specs.Prelude.{◌≡◌};
    ghost use Rattle.fleet_config.specs.declared.node.NodeFault.TheVariants.{NoMemory};

    ghost from_gives = { λ _ e. e ≡ NoMemory };

    fn from(_: AllocError) -> NodeFault {
        NodeFault::NoMemory
    }
}
