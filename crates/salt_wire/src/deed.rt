//! What a node did, as it is recorded.
use crate::message::{Entry, Job};
use salt_value::{Event, Fields, MinionId};
use sqlite_items::Items;

/// A list of entries, which contracts see as that list.
pub type Entries = Items<Entry>;

/// A list of what reactions gave, which contracts see as that list.
pub type ReactDeeds = Items<ReactDeed>;

/// What one reaction gave.
#[derive(Drop)]
pub enum ReactDeed {
    /// A job to be published.
    Job(Job),
    /// The reaction of this name was refused, for this cause.
    Refused { sls: MinionId, cause: u8 },
}

/// What a minion holds after a job changed it.
#[derive(Drop)]
pub struct Changed {
    pub grains: Fields,
    pub store: Fields,
    pub mine: Fields,
}

/// What a node did, as it is recorded.
#[derive(Drop)]
pub enum Deed {
    /// The top published a job.
    Publish {
        job: Job,
    },
    /// A master took an entry of a minion.
    Up {
        minion: MinionId,
        entry: Entry,
    },
    /// An event was fired at the top.
    Fire {
        event: Event,
    },
    /// The top reacted to an event.
    React {
        items: ReactDeeds,
    },
    /// A syndic took a job in.
    Intake {
        job: Job,
    },
    /// A minion started.
    Boot,
    /// A minion ran the job of this number.
    Done {
        seq: u32,
        changed: Option<Changed>,
        entries: Entries,
    },
}
