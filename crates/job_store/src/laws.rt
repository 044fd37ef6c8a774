//! What is found in a store after a call on it.
ghost use Rattle.job_store.specs.Laws.{KeepsOutcomes, FindsReturn, KeepsOtherMinions, KeepsOtherJobs, KeepsJobs};

/// Laws: a job more leaves every outcome as it was. A return that is put is found, and the outcomes of every other minion and of every
/// other job are as they were, as are the jobs.
pub fn outcomes_by_steps()
    ensures jobs { KeepsOutcomes }
    ensures value { FindsReturn }
    ensures other_minions { KeepsOtherMinions }
    ensures other_jobs { KeepsOtherJobs }
    ensures listed { KeepsJobs }
{}
