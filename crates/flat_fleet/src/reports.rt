//! Every job in order on every minion.
ghost use Rattle.std.specs.Prelude.{◌≡◌, ◌++◌, [], map, length, IfOk, OnOk};
ghost use Rattle.std.specs.List.{cons_option};
ghost use Rattle.flat_fleet.specs.Reports as spec;

use crate::{FlatMinion, FlatReport};
use exec_functions::run;
use minion_core::does_hold_with;
use salt_value::{MinionId, Outcome, Row, Rows};
use salt_wire::Job;
use std::alloc::{AllocError, Global};
use target_match::Matcher;

// One job on one minion.
fn step(
    alloc: Global,
    job: &Job,
    matcher: &Matcher,
    minion: &mut FlatMinion,
) -> Result<Option<Outcome>, AllocError>
    requires { matcher.now ≡ job.now.target }
    ensures outcome { IfOk result (λ outcome. outcome ≡ spec.outcome_of job.now minion.old) }
    ensures minion_after { OnOk result (minion.new ≡ spec.minion_after job.now minion.old) }
{
    if !does_hold_with(matcher, job, &minion.id, &minion.held)? {
        return Ok(None);
    }
    let ran = run(alloc, &job.fun, job.args.as_slice(), &minion.held)?;
    minion.held.apply(ran.change);
    Ok(Some(ran.outcome))
}

// The row of an outcome last, if there is one.
fn push_row(rows: &mut Rows, id: MinionId, outcome: Option<Outcome>) -> Result<(), AllocError>
    ensures { OnOk result (rows.new ≡ rows.old ++ cons_option (spec.row_of id outcome) []) }
{
    if let Some(outcome) = outcome {
        rows.push(Row { id, outcome })?;
    }
    Ok(())
}

// One job on each minion.
fn one_job(
    alloc: Global,
    job: &Job,
    matcher: &Matcher,
    minions: &mut [FlatMinion],
) -> Result<Rows, AllocError>
    requires { matcher.now ≡ job.now.target }
    ensures rows { IfOk result (λ rows. rows ≡ spec.rows_after job.now minions.old) }
    ensures minion_after { OnOk result (minions.new ≡ map (spec.minion_after job.now) minions.old) }
{
    let mut rows = Rows::new(alloc);
    for i in 0..minions.len() {
        let minion = &mut minions[i];
        let id = minion.id;
        let outcome = step(alloc, job, matcher, minion)?;
        push_row(&mut rows, id, outcome)?;
    }
    Ok(rows)
}

fn copy_minion(alloc: Global, minion: &FlatMinion) -> Result<FlatMinion, AllocError>
    ensures { IfOk result (λ copy. copy ≡ minion.now) }
{
    Ok(FlatMinion {
        id: minion.id,
        held: minion.held.copy(alloc)?,
    })
}

fn copy_fleet(alloc: Global, fleet: &[FlatMinion]) -> Result<Vec<FlatMinion>, AllocError>
    ensures { IfOk result (λ copies. copies.items ≡ fleet.now) }
{
    let mut copies = Vec::new(alloc);
    for minion in fleet {
        copies.push(copy_minion(alloc, minion)?)?;
    }
    Ok(copies)
}

// All jobs in order on these minions.
#[tactic(auto, using(crate::proofs::Present::at_first))]
fn all_jobs(
    alloc: Global,
    jobs: &[Job],
    matchers: &[Matcher],
    minions: &mut [FlatMinion],
) -> Result<Vec<FlatReport>, AllocError>
    requires { spec.AreBuiltOf jobs.now matchers.now }
    ensures { IfOk result (λ reports. reports.items ≡ spec.flat_reports minions.old jobs.now) }
{
    let mut reports = Vec::new(alloc);
    for k in 0..jobs.len() {
        let job = &jobs[k];
        let rows = one_job(alloc, job, &matchers[k], minions)?;
        let fun = job.fun.copy()?;
        reports.push(FlatReport {
            jid: job.jid,
            fun,
            rows,
        })?;
    }
    Ok(reports)
}

/// The report of each job, in order: job by job, each minion that the target holds for runs it on what it holds then. Each matcher is
/// that of the job in its place. There is no tree, no message and no disk here: every report of the program is measured by this one.
pub fn flat_reports(
    alloc: Global,
    fleet: &[FlatMinion],
    jobs: &[Job],
    matchers: &[Matcher],
) -> Result<Vec<FlatReport>, AllocError>
    requires { spec.AreBuiltOf jobs.now matchers.now }
    ensures { IfOk result (λ reports. reports.items ≡ spec.flat_reports fleet.now jobs.now) }
{
    let mut minions = copy_fleet(alloc, fleet)?;
    all_jobs(alloc, jobs, matchers, minions.as_mut_slice())
}
