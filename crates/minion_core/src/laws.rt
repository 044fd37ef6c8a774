//! Laws of the flat minion, as the clauses of a function that does nothing.
ghost use Rattle.std.specs.Prelude.{ℕ, List};
ghost use Rattle.exec_functions.specs.declared.holdings.Holdings.{Holdings};
ghost use Rattle.minion_core.specs.Flat.{GoesByStep};

/// A law: the return of a job is that of one step on what the jobs before it left, whatever comes later.
pub fn flat_by_steps()
    ensures { (id : List ℕ) (held : Holdings) → GoesByStep id held }
{}
