//! Targets that the id alone decides.
ghost use Rattle.std.specs.Prelude.{◌≡◌, bytes_eq};
ghost use Rattle.std.specs.List.{list_any};
ghost use Rattle.target_match.specs.ById as spec;
ghost use Rattle.target_match.specs.Ready.{target_of};

use crate::ready::Ready;
use salt_glob::glob;
use salt_value::MinionId;

/// Whether an id is one of these.
pub fn contains(ids: &[MinionId], id: &[u8]) -> bool
    ensures { result ≡ list_any (λ other. bytes_eq other id.now) ids.now }
{
    ids.iter().any(|other| other.as_bytes() == id)
}

fn both(left: Option<bool>, right: Option<bool>) -> Option<bool>
    ensures { result ≡ spec.both left right }
{
    let left = left?;
    let right = right?;
    Some(left && right)
}

fn either(left: Option<bool>, right: Option<bool>) -> Option<bool>
    ensures { result ≡ spec.either left right }
{
    let left = left?;
    let right = right?;
    Some(left || right)
}

fn not(one: Option<bool>) -> Option<bool>
    ensures { result ≡ spec.negation one }
{
    Some(!one?)
}

/// What the id alone decides of a target; None where a leaf is neither a glob of the id nor a list of ids.
pub fn by_id(tree: &Ready, id: &[u8]) -> Option<bool>
    ensures { spec.IsDecisionById result (target_of tree.now) id.now }
{
    match tree {
        Ready::IdGlob(text) => Some(glob(text.as_bytes(), id)),
        Ready::IdList(ids) => Some(contains(ids.as_slice(), id)),
        Ready::Not(one) => not(by_id(one.get(), id)),
        Ready::And(left, right) => both(by_id(left.get(), id), by_id(right.get(), id)),
        Ready::Or(left, right) => either(by_id(left.get(), id), by_id(right.get(), id)),
        Ready::IdPcre(_)
        | Ready::GrainGlob(_)
        | Ready::GrainPcre(_)
        | Ready::PillarGlob(_)
        | Ready::PillarPcre(_) => None,
    }
}
