//! What a node has in memory of its records: the core of a minion or that of a master.
ghost use Rattle.std.specs.Prelude.{◌≡◌, ◌<◌, ◌^◌, length, All, if◌then◌else◌, Some, None};
ghost use Rattle.std.specs.Option.{option_copied};
ghost use Rattle.minion_core.specs.Flat as flat;
ghost use Rattle.salt_wire.specs.Limits.{EntryFits};
ghost use Rattle.node_core.specs.Index as index;

use exec_functions::Holdings;
use job_store::JobStore;
use master_core::MasterCore;
use minion_core::MinionCore;
use salt_value::{MinionId, Outcome};
use salt_wire::Entry;

/// The core of a minion or that of a master.
#[derive(Drop)]
pub enum Core {
    Minion(MinionCore),
    Master(MasterCore),
}

impl Core {
    /// Is it that of a minion?
    pub fn is_minion(&self) -> bool
        ensures value { result ≡ index.is_minion_core self.now }
    {
        match self {
            Core::Minion(_) => true,
            Core::Master(_) => false,
        }
    }

    /// What a minion holds. A master holds nothing.
    pub fn holdings(&self) -> Option<&Holdings>
        ensures value { option_copied result ≡ index.holdings_in self.now }
    {
        match self {
            Core::Minion(core) => Some(core.held()),
            Core::Master(_) => None,
        }
    }

    /// What a master keeps of its jobs. A minion keeps none.
    pub fn store(&self) -> Option<&JobStore>
        ensures value { option_copied result ≡ index.store_in self.now }
    {
        match self {
            Core::Minion(_) => None,
            Core::Master(core) => Some(core.jobs()),
        }
    }

    /// How many jobs the node holds.
    pub fn jobs_held(&self) -> u32
        ensures value { result ≡ index.job_count_in self.now }
    {
        match self {
            Core::Minion(core) => core.jobs(),
            Core::Master(core) => core.jobs().count(),
        }
    }

    /// The log that the node has of a minion, each entry within the limits of messages.
    pub fn log(&self, id: &MinionId) -> &[Entry]
        ensures value { result.now ≡ index.entries_in_core self.now id.now }
        ensures fits { All EntryFits result.now }
    {
        match self {
            Core::Minion(core) => core.log(),
            Core::Master(core) => core.log(id),
        }
    }

    /// What a minion returned of a job, as the node has it.
    pub fn outcome(&self, id: &MinionId, seq: u32) -> Option<&Outcome>
        ensures value { option_copied result ≡ index.outcome_in_core self.now seq id.now }
    {
        match self {
            Core::Minion(core) => return_of(seq, core.log()),
            Core::Master(core) => core.jobs().outcome(seq, id),
        }
    }
}

// The outcome of the first return of a job.
fn return_of(seq: u32, entries: &[Entry]) -> Option<&Outcome>
    ensures { option_copied result ≡ flat.return_of seq entries.now }
{
    for entry in entries {
        if let Entry::Return { seq: n, outcome } = entry
            && *n == seq
        {
            return Some(outcome);
        }
    }
    None
}
