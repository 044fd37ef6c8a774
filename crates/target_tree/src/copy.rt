//! Copies of trees.
ghost use Rattle.std.specs.Prelude.{◌≡◌, IfOk};

use crate::Target;
use sqlite_items::{Boxed, Items};
use std::alloc::{AllocError, Global};

#[cycle(copy)]
pub fn copy(alloc: Global, tree: &Target) -> Result<Target, AllocError>
    ensures { IfOk result (λ copy. copy ≡ tree.now) }
{
    match tree {
        Target::IdGlob(text) => Ok(Target::IdGlob(text.copy()?)),
        Target::IdPcre(text) => Ok(Target::IdPcre(text.copy()?)),
        Target::IdList(ids) => Ok(Target::IdList(Items::from_slice(alloc, ids.as_slice())?)),
        Target::GrainGlob(text) => Ok(Target::GrainGlob(text.copy()?)),
        Target::GrainPcre(text) => Ok(Target::GrainPcre(text.copy()?)),
        Target::PillarGlob(text) => Ok(Target::PillarGlob(text.copy()?)),
        Target::PillarPcre(text) => Ok(Target::PillarPcre(text.copy()?)),
        Target::Not(tree) => Ok(Target::Not(boxed(alloc, tree.get())?)),
        Target::And(left, right) => {
            let left = boxed(alloc, left.get())?;
            Ok(Target::And(left, boxed(alloc, right.get())?))
        }
        Target::Or(left, right) => {
            let left = boxed(alloc, left.get())?;
            Ok(Target::Or(left, boxed(alloc, right.get())?))
        }
    }
}

#[cycle(copy)]
fn boxed(alloc: Global, tree: &Target) -> Result<Boxed<Target>, AllocError>
    ensures { IfOk result (λ copy. copy ≡ tree.now) }
{
    Boxed::new(alloc, copy(alloc, tree)?)
}
