//! A law of the flat reports, as the clause of a function that does nothing.
ghost use Rattle.std.specs.Prelude.{List};
ghost use Rattle.salt_wire.specs.declared.message.Job.{Job as Task};
ghost use Rattle.flat_fleet.specs.declared.report.FlatMinion.{FlatMinion as Runner};
ghost use Rattle.flat_fleet.specs.Reports.{RestOnFirstJobs};

/// A law: what the report of a job has depends on the jobs up to that one alone.
pub fn first_jobs_decide()
    ensures { (fleet : List Runner) (jobs : List Task) → RestOnFirstJobs fleet jobs }
{}
