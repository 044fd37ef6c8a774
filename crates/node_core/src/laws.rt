//! Laws of nodes, as functions with empty bodies.
ghost use Rattle.node_core.specs.NextRecords.{RecordsByMessages};

/// The law of what a message adds: a node that takes it has the records from before, and then the one that the message adds, if any.
pub fn records_by_calls()
    ensures messages { RecordsByMessages }
{}
