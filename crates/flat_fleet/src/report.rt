//! Minions of the flat fleet, and what a job gave on them.
use exec_functions::Holdings;
use salt_value::{Jid, MinionId, Rows, Word};

/// A minion of the flat fleet, and what it holds.
#[derive(Drop)]
pub struct FlatMinion {
    pub id: MinionId,
    pub held: Holdings,
}

/// What a job gave on the minions that its target held for, in the order of the fleet.
#[derive(Drop)]
pub struct FlatReport {
    pub jid: Jid,
    /// The function's name.
    pub fun: Word,
    pub rows: Rows,
}
