//! Jobs, entries and messages.
use salt_value::{Event, Fields, Items, Jid, MinionId, Outcome, Text, Word};
use sqlite_items::Boxed;
use target_tree::{Kind, Target};

/// A job: what is to be run, and on which minions. Its limits are this project's own: `tgt` has at
/// most 4,096 bytes, `target` at most 256 nodes, 16 pattern leaves and 65,536 bytes, and `args` are
/// within the limits of a value.
#[derive(Drop)]
pub struct Job {
    pub jid: Jid,
    pub kind: Kind,
    /// The target's text.
    pub tgt: Text,
    /// The tree that the text stands for.
    pub target: Boxed<Target>,
    /// The function's name.
    pub fun: Word,
    pub args: Items,
}

/// What a minion sends up. `seq` is the number of a job on its master.
#[derive(Drop)]
pub enum Entry {
    /// A job's outcome.
    Return {
        seq: u32,
        outcome: Outcome,
    },
    /// An event that was fired.
    Fired {
        event: Event,
    },
    /// The minion started for the so many-th time.
    Start {
        boot: u32,
    },
    /// A job changed the mine; the mine, the grains and the pillar from then on.
    Mine {
        seq: u32,
        mine: Fields,
        grains: Fields,
        pillar: Fields,
    },
}

/// What one node or client tells another.
#[derive(Drop)]
pub enum Message {
    /// Down the tree: a job, by its number.
    Pub {
        seq: u32,
        job: Job,
    },
    /// Up the tree: so many jobs are held.
    Have {
        jobs: u32,
    },
    /// Up the tree: the entry number `n` of a minion.
    Up {
        minion: MinionId,
        n: u32,
        entry: Entry,
    },
    /// Down the tree: so many entries of a minion are held.
    UpHave {
        minion: MinionId,
        n: u32,
    },
    /// Who speaks.
    Hello {
        id: MinionId,
    },
    /// Nothing more comes for now.
    End,
    /// A client asks for a publication.
    AskPublish {
        kind: Kind,
        tgt: Text,
        fun: Word,
        args: Items,
    },
    /// A client asks for a job's report.
    AskReport {
        jid: Jid,
    },
    /// A client asks for the list of jobs.
    AskJobs,
    /// A client asks for what minions put into the mine.
    AskMine {
        kind: Kind,
        tgt: Text,
        fun: Word,
    },
    /// The answer to a client: the status, 0, 1, 10, 11 or 12, and the lines of the report, at most
    /// 1,000,000 bytes.
    Answer {
        status: u8,
        text: Text,
    },
}
