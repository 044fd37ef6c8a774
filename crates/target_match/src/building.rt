//! From a target to its ready tree.
ghost use Rattle.std.specs.Prelude.{◌≡◌, ◌+◌, ◌++◌, IfOk, IfErr};
ghost use Rattle.target_match.specs.Holds.{patterns, leaf_count};
ghost use Rattle.target_match.specs.Building.{IsMadeOf, AreMadeOf, IsFaultOf};

use crate::BuildFault;
use crate::leaf::{DataPattern, IdPattern};
use crate::ready::Ready;
use salt_value::Text;
use sqlite_items::{Boxed, Items};
use std::alloc::Global;
use target_tree::Target;

/// Counts one more leaf, and answers how many came before it. The count stands still at its type's end.
fn count(leaves: &mut u32) -> u32
    ensures value { result ≡ leaf_count leaves.old }
    ensures count { leaves.new ≡ leaf_count (leaves.old + 1) }
{
    let leaf = *leaves;
    *leaves = leaf.saturating_add(1);
    leaf
}

/// Makes a tree ready, whose first leaf is the one that is next in the count.
#[cycle(ready)]
pub fn ready(alloc: Global, tree: &Target, leaves: &mut u32) -> Result<Ready, BuildFault>
    ensures ok { IfOk result (IsMadeOf tree.now leaves.old leaves.new) }
    ensures fault { IfErr result (IsFaultOf (patterns tree.now) leaves.old) }
{
    match tree {
        Target::IdPcre(text) => {
            let leaf = count(leaves);
            Ok(Ready::IdPcre(IdPattern::new(alloc, text, leaf)?))
        }
        Target::GrainPcre(text) => {
            let leaf = count(leaves);
            Ok(Ready::GrainPcre(DataPattern::new(alloc, text, leaf)?))
        }
        Target::PillarPcre(text) => {
            let leaf = count(leaves);
            Ok(Ready::PillarPcre(DataPattern::new(alloc, text, leaf)?))
        }
        Target::IdGlob(text) => {
            count(leaves);
            Ok(Ready::IdGlob(text.copy()?))
        }
        Target::GrainGlob(text) => {
            count(leaves);
            Ok(Ready::GrainGlob(text.copy()?))
        }
        Target::PillarGlob(text) => {
            count(leaves);
            Ok(Ready::PillarGlob(text.copy()?))
        }
        Target::IdList(ids) => {
            count(leaves);
            Ok(Ready::IdList(Items::from_slice(alloc, ids.as_slice())?))
        }
        Target::Not(one) => {
            let one = Boxed::new(alloc, ready(alloc, one.get(), leaves)?)?;
            Ok(Ready::Not(one))
        }
        Target::And(left, right) => {
            let (left, right) = both(alloc, left.get(), right.get(), leaves)?;
            Ok(Ready::And(left, right))
        }
        Target::Or(left, right) => {
            let (left, right) = both(alloc, left.get(), right.get(), leaves)?;
            Ok(Ready::Or(left, right))
        }
    }
}

/// Makes two trees ready, the left one first.
#[cycle(ready)]
fn both(
    alloc: Global,
    left: &Target,
    right: &Target,
    leaves: &mut u32,
) -> Result<(Boxed<Ready>, Boxed<Ready>), BuildFault>
    ensures ok { IfOk result (λ r. AreMadeOf left.now right.now leaves.old leaves.new r.0 r.1) }
    ensures fault { IfErr result (IsFaultOf (patterns left.now ++ patterns right.now) leaves.old) }
{
    let left = Boxed::new(alloc, ready(alloc, left, leaves)?)?;
    let right = Boxed::new(alloc, ready(alloc, right, leaves)?)?;
    Ok((left, right))
}
