//! What holds of each log and its images.
ghost use Rattle.checkpoint_log.specs.Laws.{StopsGoByTheGate, RestsStay, LogsAtRestAreLeft, LogsAreOne, LengthsFollow};

/// Where a disk lets so many changing calls pass, and an append fails, a crash leaves its payload exactly where it was in
/// its third or fourth call and the byte of an open gate is picked for unsure places.
pub fn stops_go_by_the_gate()
    ensures { StopsGoByTheGate }
{}

/// A crash leaves a part that is at rest as it reads, whatever is picked.
pub fn rests_stay()
    ensures { RestsStay }
{}

/// Whatever a crash leaves of a disk on which a log stands is that log.
pub fn logs_at_rest_are_left()
    ensures { LogsAtRestAreLeft }
{}

/// What a crash leaves is a log of one limit and one content.
pub fn logs_are_one()
    ensures { LogsAreOne }
{}

/// A log has the length of its content: 17 bytes without a payload, and for each payload 5 more than its own.
pub fn lengths_follow()
    ensures { LengthsFollow }
{}
