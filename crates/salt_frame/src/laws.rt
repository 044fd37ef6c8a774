//! What holds of every stream of frames.
ghost use Rattle.salt_frame.specs.Laws.{ArePrefixFree, IsOneReading};
ghost use Rattle.salt_frame.specs.Runs.{AnyCutting};

/// However a stream is cut into feeds, the bodies taken are the first of its frames, and the buffer holds its other
/// frames and its rest, of which nothing is kept after a length over the limit.
pub fn any_cutting()
    ensures { AnyCutting }
{}

/// A stream has no other frames than those of one reading, and no two ends.
pub fn one_reading()
    ensures { IsOneReading }
{}

/// What is written as a frame is read again, whatever follows it.
pub fn frames_are_prefix_free()
    ensures { ArePrefixFree }
{}
