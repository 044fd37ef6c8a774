//! Why a call on a node over its log is refused.
ghost use Rattle.std.specs.Prelude.{◌≡◌};
ghost use Rattle.journalled_node.specs.Calls as call;
ghost use Rattle.journalled_node.specs.Orders as order;
ghost use Rattle.journalled_node.specs.Starts as start;

use gate_journal::AppendFault;
use node_core::{PublishRefusal, Stray};
use salt_disk::Part;
use thiserror::Error;

/// Why a message was not taken. The causes stand in the order in which they are looked for; memory may be wanted at any time.
#[derive(Clone, Copy, Debug, Error, PartialEq, Eq)]
pub enum TakeFault {
    /// An earlier call answered `Disk`, or found no memory once its record was in the log: the node has to be loaded again.
    #[error("the node is down")]
    Down,
    #[error("the message is stray: {cause}")]
    Stray { cause: Stray },
    /// A minion would run the job, but the tables of the pattern of this leaf would pass 10 MiB, the limit of `regex`.
    #[error("the pattern of leaf {leaf} is too big")]
    TooBig { leaf: u32 },
    #[error("no memory was found")]
    NoMemory,
    /// With the record of the message the journal would have this length in bytes.
    #[error("the journal's length would be {length}, over its limit of {limit}")]
    Full { length: u64, limit: u64 },
    /// The disk's count of faults rose in this call. The node is down from now on.
    #[error("the disk failed")]
    Disk,
}

/// Why nothing was published. The causes stand in the order in which they are looked for; memory may be wanted at any time.
#[derive(Clone, Copy, Debug, Error, PartialEq, Eq)]
pub enum PublishFault {
    /// An earlier call answered `Disk`, or found no memory once its record was in the log: the node has to be loaded again.
    #[error("the node is down")]
    Down,
    #[error("the order is refused: {cause}")]
    Refused { cause: PublishRefusal },
    /// The tables of the pattern of this leaf would pass 10 MiB, the limit of `regex`.
    #[error("the pattern of leaf {leaf} is too big")]
    TooBig { leaf: u32 },
    #[error("no memory was found")]
    NoMemory,
    /// With the record of the job the journal would have this length in bytes.
    #[error("the journal's length would be {length}, over its limit of {limit}")]
    Full { length: u64, limit: u64 },
    /// The disk's count of faults rose in this call. The node is down from now on.
    #[error("the disk failed")]
    Disk,
}

/// Why a node was not loaded. A failure of the disk's syncs and reads comes before what the bytes have, and one of the start's append last;
/// memory may be wanted at any time.
#[derive(Clone, Copy, Debug, Error, PartialEq, Eq)]
pub enum LoadFault {
    #[error("no memory was found")]
    NoMemory,
    /// `Root` or `Even` is no journal.
    #[error("the disk has no journal")]
    NotAJournal,
    /// The gate at this place, in bytes from the beginning of the part, is damaged, or what stands behind it is no record that the node may
    /// have there.
    #[error("the log is damaged at place {at} of part {part:?}")]
    Damaged { part: Part, at: u64 },
    /// With the start of a minion the journal would have this length in bytes.
    #[error("the journal's length would be {length}, over its limit of {limit}")]
    Full { length: u64, limit: u64 },
    /// The disk's count of faults rose in this call.
    #[error("the disk failed")]
    Disk,
}

/// The fault of a load whose log was not loaded.
pub fn unread(fault: gate_journal::LoadFault) -> LoadFault
    ensures { result ≡ start.unread fault }
{
    match fault {
        gate_journal::LoadFault::NoMemory => LoadFault::NoMemory,
        gate_journal::LoadFault::Disk => LoadFault::Disk,
        gate_journal::LoadFault::NotAJournal => LoadFault::NotAJournal,
        gate_journal::LoadFault::Damaged { part, at } => LoadFault::Damaged { part, at },
    }
}

/// The fault of a load whose start was not kept. A log that was just loaded is up, so `Down` does not come.
pub fn unstarted(fault: AppendFault) -> LoadFault
    ensures { result ≡ start.unstarted fault }
{
    match fault {
        AppendFault::NoMemory => LoadFault::NoMemory,
        AppendFault::Full { length, limit } => LoadFault::Full { length, limit },
        AppendFault::Down => LoadFault::Disk,
        AppendFault::Disk => LoadFault::Disk,
    }
}

/// The fault of a message whose record was not kept.
pub fn kept_fault(fault: AppendFault) -> TakeFault
    ensures { result ≡ call.kept_fault fault }
{
    match fault {
        AppendFault::NoMemory => TakeFault::NoMemory,
        AppendFault::Down => TakeFault::Down,
        AppendFault::Full { length, limit } => TakeFault::Full { length, limit },
        AppendFault::Disk => TakeFault::Disk,
    }
}

/// The fault of a message that the node in memory doesn't take.
pub fn node_fault(fault: node_core::TakeFault) -> TakeFault
    ensures { result ≡ call.node_fault fault }
{
    match fault {
        node_core::TakeFault::Stray { cause } => TakeFault::Stray { cause },
        node_core::TakeFault::TooBig { leaf } => TakeFault::TooBig { leaf },
        node_core::TakeFault::NoMemory => TakeFault::NoMemory,
    }
}

/// The fault of an order whose job's record was not kept.
pub fn unpublished(fault: AppendFault) -> PublishFault
    ensures { result ≡ order.unpublished fault }
{
    match fault {
        AppendFault::NoMemory => PublishFault::NoMemory,
        AppendFault::Down => PublishFault::Down,
        AppendFault::Full { length, limit } => PublishFault::Full { length, limit },
        AppendFault::Disk => PublishFault::Disk,
    }
}

/// The fault of an order of which the node in memory makes no job.
pub fn unmade(fault: node_core::PublishFault) -> PublishFault
    ensures { result ≡ order.unmade fault }
{
    match fault {
        node_core::PublishFault::Refused { cause } => PublishFault::Refused { cause },
        node_core::PublishFault::TooBig { leaf } => PublishFault::TooBig { leaf },
        node_core::PublishFault::NoMemory => PublishFault::NoMemory,
    }
}
