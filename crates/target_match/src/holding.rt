//! Whether a ready tree holds for a minion.
ghost use Rattle.std.specs.Prelude.{◌≡◌, IfOk, IsOk, IsTrue};
ghost use Rattle.target_match.specs.Holds.{holds, is_by_id};
ghost use Rattle.target_match.specs.Searches.{Keeps, AddsOfReady};
ghost use Rattle.target_match.specs.Ready.{target_of, ready_patterns};

use crate::data::pairs_meet;
use crate::ids::contains;
use crate::ready::Ready;
use crate::search::Searches;
use salt_glob::glob;
use salt_value::{MinionId, Text, Value};
use std::alloc::{AllocError, Global};

#[cycle(holds)]
pub fn holds<'m>(
    alloc: Global,
    ready: &'m Ready,
    kept: &mut Searches<'m>,
    id: &MinionId,
    grains: &[(Text, Value)],
    pillar: &[(Text, Value)],
) -> Result<bool, AllocError>
    ensures ok { IfOk result (λ b. b ≡ holds (target_of ready.now) id.now grains.now pillar.now) }
    ensures searches { Keeps (ready_patterns ready.now) kept.old kept.new }
    ensures asked { AddsOfReady result id.now grains.now pillar.now ready.now kept.old kept.new }
    ensures memory { IsTrue (is_by_id (target_of ready.now)) → IsOk result }
{
    match ready {
        Ready::IdGlob(text) => Ok(glob(text.as_bytes(), id.as_bytes())),
        Ready::IdPcre(pattern) => pattern.holds(alloc, &mut kept.made, id.as_str()),
        Ready::IdList(ids) => Ok(contains(ids.as_slice(), id.as_bytes())),
        Ready::GrainGlob(text) => pairs_meet(alloc, grains, text.as_str()),
        Ready::GrainPcre(pattern) => pattern.holds(alloc, &mut kept.made, grains),
        Ready::PillarGlob(text) => pairs_meet(alloc, pillar, text.as_str()),
        Ready::PillarPcre(pattern) => pattern.holds(alloc, &mut kept.made, pillar),
        Ready::Not(one) => {
            let holds = holds(alloc, one.get(), kept, id, grains, pillar)?;
            Ok(!holds)
        }
        Ready::And(left, right) => {
            if !holds(alloc, left.get(), kept, id, grains, pillar)? {
                return Ok(false);
            }
            holds(alloc, right.get(), kept, id, grains, pillar)
        }
        Ready::Or(left, right) => {
            if holds(alloc, left.get(), kept, id, grains, pillar)? {
                return Ok(true);
            }
            holds(alloc, right.get(), kept, id, grains, pillar)
        }
    }
}
