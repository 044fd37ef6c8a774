//! What a source and a sink are, as standard input and standard output are.
ghost use Rattle.std.specs.Prelude.{◌≡◌, ◌<◌, ◌≤◌, ℕ, List, Option, length, IfOk, OnErr, IsErrOf};
ghost use Rattle.salt_outside.specs.Streams.{ReadsFront, WritesAll, IsPart, IsAtEnd};

use crate::Outside;

/// Where bytes come from, as standard input.
pub trait Source {
    ghost use Rattle.salt_outside.specs.Causes.{CountsFailures};

    /// The bytes that it has left. None where it doesn't tell.
    ghost left: { Self → Option (List ℕ) };

    /// How often it has failed. The count never falls, and stands still at the last value of its type.
    ghost faults: { Self → ℕ };

    /// Reads 1 to `into.len()` bytes into the front of `into`, or 0 at the end. `into` must not be empty.
    ///
    /// After an error nothing was read: the source has left what it had.
    fn read(&mut self, into: &mut [u8]) -> Result<usize, Outside>
        requires { 0 < length into.old }
        ensures ok { IfOk result (λ count. count ≤ length into.new) }
        ensures left { ReadsFront left self.old self.new into.new result }
        ensures end { IfOk result (λ count. count ≡ 0 → IsAtEnd (left self.old)) }
        ensures err { OnErr result (left self.new ≡ left self.old) }
        ensures faults { CountsFailures faults Outside.Failed self.old self.new result };
}

/// Where bytes go, as standard output.
pub trait Sink {
    ghost use Rattle.salt_outside.specs.Causes.{CountsFailures};

    /// The bytes that it holds. None where it doesn't tell.
    ghost held: { Self → Option (List ℕ) };

    /// How often it has failed. The count never falls, and stands still at the last value of its type.
    ghost faults: { Self → ℕ };

    /// Writes all the bytes.
    ///
    /// After `Failed` a front of them was written, which may be none or all. After `NoMemory` none was.
    fn write(&mut self, bytes: &[u8]) -> Result<(), Outside>
        ensures ok { WritesAll held self.old self.new bytes.now result }
        ensures part { IsPart (held self.old) (held self.new) bytes.now }
        ensures faults { CountsFailures faults Outside.Failed self.old self.new result }
        ensures memory { IsErrOf result Outside.NoMemory → held self.new ≡ held self.old };
}
