//! What is found in a master's logs after a call on it.
ghost use Rattle.master_core.specs.Laws.{FindsEntry};

/// A law: an entry of a minion below is found at the end of that minion's log, and every other log is as before.
pub fn logs_by_steps()
    ensures up { FindsEntry }
{}
