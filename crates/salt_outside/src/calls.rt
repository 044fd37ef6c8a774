//! Which calls on an object in memory fail.
ghost use Rattle.std.specs.Prelude.{◌≡◌, ◌≤◌, ◌↔◌, IsTrue, Contains};
ghost use Rattle.std.specs.Bool.{OnTrue, OnFalse};
ghost use Rattle.salt_outside.specs.Causes.{next_count};

/// The calls on one object in memory: how many were made, which of them fail, and how many did.
#[derive(Drop)]
pub struct Calls {
    fails: Vec<u64>,
    made: u64,
    faults: u64,
}

impl Calls {
    /// No call was made yet. The calls whose numbers are listed will fail. They count from 1.
    pub fn new(fails: Vec<u64>) -> Calls
        ensures fails { result.fails.items ≡ fails.items }
        ensures made { result.made ≡ 0 }
        ensures faults { result.faults ≡ 0 }
    {
        Calls {
            fails,
            made: 0,
            faults: 0,
        }
    }

    /// Whether the next call fails. It counts that call, and that fault.
    pub fn next_fails(&mut self) -> bool
        ensures value { IsTrue result ↔ Contains self.old.fails.items (next_count self.old.made) }
        ensures fails { self.new.fails.items ≡ self.old.fails.items }
        ensures made { self.new.made ≡ next_count self.old.made }
        ensures faults { OnTrue result (self.new.faults ≡ next_count self.old.faults) }
        ensures later { self.old.faults ≤ self.new.faults }
        ensures kept { OnFalse result (self.new.faults ≡ self.old.faults) }
    {
        self.made = self.made.saturating_add(1);
        let is_failing = self.fails.contains(&self.made);
        if is_failing {
            self.faults = self.faults.saturating_add(1);
        }
        is_failing
    }
}
