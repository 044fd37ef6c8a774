//! Whether the target of a job holds for a minion.
ghost use Rattle.std.specs.Prelude.{◌≡◌, IfOk, IfSome};
ghost use Rattle.minion_core.specs.Flat as spec;
ghost use Rattle.minion_core.specs.Faults.{IsRunFault};
ghost use Rattle.minion_core.specs.Globs.{IsAnswerById};

use crate::RunFault;
use exec_functions::Holdings;
use salt_glob::glob;
use salt_value::MinionId;
use salt_wire::Job;
use std::alloc::{AllocError, Global};
use target_match::{BuildFault, Matcher};
use target_tree::Target;

// A target that is ready for matching, or why it is not.
fn matcher_of(alloc: Global, target: &Target) -> Result<Matcher, RunFault>
    ensures ok { IfOk result (λ matcher. matcher ≡ target.now) }
    ensures fault { IsRunFault result target.now }
{
    match Matcher::build(alloc, target) {
        Ok(matcher) => Ok(matcher),
        Err(BuildFault::NoMemory) => Err(RunFault::NoMemory),
        Err(BuildFault::BadPattern { leaf }) => Err(RunFault::BadPattern { leaf }),
        Err(BuildFault::TooBig { leaf }) => Err(RunFault::TooBig { leaf }),
    }
}

// What a target that is one glob of ids answers: there is nothing to make ready.
fn holds_by_glob(job: &Job, id: &MinionId) -> Option<bool>
    ensures { IfSome result (IsAnswerById job.now id.now) }
{
    match job.target.get() {
        Target::IdGlob(text) => Some(glob(text.as_bytes(), id.as_bytes())),
        _ => None,
    }
}

/// Whether the target of a job holds for a minion, by its id and by what it holds (Salt documentation, Targeting Minions).
pub fn does_hold(alloc: Global, job: &Job, id: &MinionId, held: &Holdings) -> Result<bool, RunFault>
    ensures ok { IfOk result (λ b. b ≡ spec.does_hold job.now id.now held.now) }
    ensures fault { IsRunFault result job.now.target }
{
    if let Some(holds) = holds_by_glob(job, id) {
        return Ok(holds);
    }
    let matcher = matcher_of(alloc, job.target.get())?;
    Ok(does_hold_with(&matcher, job, id, held)?)
}

/// The same by a matcher that was built of the target of the job.
#[tactic(auto, unfolding(crate::specs::Flat::does_hold))]
pub fn does_hold_with(
    matcher: &Matcher,
    _job: &Job,
    id: &MinionId,
    held: &Holdings,
) -> Result<bool, AllocError>
    requires { matcher.now ≡ _job.now.target }
    ensures ok { IfOk result (λ b. b ≡ spec.does_hold _job.now id.now held.now) }
{
    matcher.holds(id, &held.grains, &held.pillar)
}
