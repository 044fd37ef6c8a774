//! A record more, with what is kept beside the records.
ghost use Rattle.std.specs.Prelude.{◌≡◌, ◌++◌, ◌∷◌, [], OnOk, OnErr};
ghost use Rattle.minion_core.specs.Core.{core_after};
ghost use Rattle.minion_core.specs.Limits.{DeedFits, HasRoom};
ghost use Rattle.master_core.specs.Master.{IsRightFor, master_after};

use crate::history::History;
use master_core::MasterCore;
use minion_core::MinionCore;
use salt_wire::Deed;
use std::alloc::AllocError;

/// A record more, which the core of a master takes in. After an error all is as before.
pub fn push_deed(records: &mut History, core: &mut MasterCore, deed: Deed) -> Result<(), AllocError>
    requires right { IsRightFor deed core.old }
    ensures records { OnOk result (records.new ≡ records.old ++ deed ∷ []) }
    ensures core { OnOk result (core.new ≡ master_after deed core.old) }
    ensures kept_records { OnErr result (records.new ≡ records.old) }
    ensures kept_core { OnErr result (core.new ≡ core.old) }
{
    let next = records.and(&deed);
    core.apply(deed)?;
    *records = next;
    Ok(())
}

/// A record more, which the core of a minion takes in. After an error all is as before.
pub fn push_done(
    records: &mut History,
    core: &mut MinionCore,
    deed: &Deed,
) -> Result<(), AllocError>
    requires fits { DeedFits deed.now }
    requires room { HasRoom deed.now core.old }
    ensures records { OnOk result (records.new ≡ records.old ++ deed.now ∷ []) }
    ensures core { OnOk result (core.new ≡ core_after deed.now core.old) }
    ensures kept_records { OnErr result (records.new ≡ records.old) }
    ensures kept_core { OnErr result (core.new ≡ core.old) }
{
    let next = records.and(deed);
    core.apply(deed)?;
    *records = next;
    Ok(())
}
