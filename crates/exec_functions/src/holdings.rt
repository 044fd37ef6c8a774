//! What a minion holds, and what a function makes of it.
use salt_value::{Event, Fields, Outcome};
use sqlite_items::Items;
use std::alloc::{AllocError, Global};

/// What a minion holds: its grains, its pillar, the store that the functions `data.` use (in Salt the minion's
/// data store), and what it put into the mine, each a map.
#[derive(Drop)]
pub struct Holdings {
    pub grains: Fields,
    pub pillar: Fields,
    pub store: Fields,
    pub mine: Fields,
}

/// What a function changed: nothing, or one part, which is another one from then on. No function changes the pillar.
#[derive(Drop)]
pub enum Change {
    Nothing,
    Grains(Fields),
    Store(Fields),
    Mine(Fields),
}

/// What a function tells the masters beside its answer.
#[derive(Drop)]
pub enum Note {
    /// An event was fired.
    Fired { event: Event },
    /// The mine was written, be it with what stood there before.
    Mine,
}

/// A list of notes, which contracts see as that list. A function makes one at most.
pub type Notes = Items<Note>;

/// What a function made: its outcome, what it changed, and its notes.
#[derive(Drop)]
pub struct Ran {
    pub outcome: Outcome,
    pub change: Change,
    pub notes: Notes,
}

/// The outcome of a function, what its minion holds from then on, and the notes.
#[derive(Drop)]
pub struct Done {
    pub outcome: Outcome,
    pub held: Holdings,
    pub notes: Notes,
}

impl Holdings {
    ghost use Rattle.std.specs.Prelude.{◌≡◌, ◌↔◌, IsTrue, IfOk};
    ghost use Rattle.exec_functions.specs.Exec.{with_change};
    ghost use Rattle.exec_functions.specs.Limits.{AreWithin, are_within, no_holdings};

    /// What a minion holds that was told nothing. It takes no memory.
    pub fn none(alloc: Global) -> Holdings
        ensures value { result ≡ no_holdings }
        ensures fits { AreWithin result }
    {
        Holdings {
            grains: Fields::new(alloc),
            pillar: Fields::new(alloc),
            store: Fields::new(alloc),
            mine: Fields::new(alloc),
        }
    }

    /// Whether each part is within the limits of a value, which are this project's own. It takes no memory.
    pub fn fits(&self) -> bool
        ensures ok { IsTrue result ↔ AreWithin self.now }
        ensures exact { result ≡ are_within self.now }
    {
        self.grains.fits() && (self.pillar.fits() && (self.store.fits() && self.mine.fits()))
    }

    /// Equal holdings in memory of their own.
    pub fn copy(&self, alloc: Global) -> Result<Holdings, AllocError>
        ensures { IfOk result (λ copy. copy ≡ self.now) }
    {
        Ok(Holdings {
            grains: self.grains.copy(alloc)?,
            pillar: self.pillar.copy(alloc)?,
            store: self.store.copy(alloc)?,
            mine: self.mine.copy(alloc)?,
        })
    }

    /// Puts the part that a function changed in place of the one from before.
    pub fn apply(&mut self, change: Change)
        ensures { self.new ≡ with_change change self.old }
    {
        match change {
            Change::Nothing => {}
            Change::Grains(fields) => self.grains = fields,
            Change::Store(fields) => self.store = fields,
            Change::Mine(fields) => self.mine = fields,
        }
    }
}

impl Change {
    ghost use Rattle.std.specs.Prelude.{◌≡◌};
    ghost use Rattle.exec_functions.specs.Exec.{change_fits};

    /// Whether the part that is another one from then on is within the limits of a value, which are this project's own.
    pub fn fits(&self) -> bool
        ensures { result ≡ change_fits self.now }
    {
        match self {
            Change::Nothing => true,
            Change::Grains(fields) => fields.fits(),
            Change::Store(fields) => fields.fits(),
            Change::Mine(fields) => fields.fits(),
        }
    }
}
