//! The job of an order.
ghost use Rattle.std.specs.Prelude.{◌≡◌, ◌≤◌, ◌<◌, None, Ok, true, length, IfOk, IfErr, OnOk};
ghost use Rattle.minion_core.specs.Flat.{last_jid, is_after, is_later};
ghost use Rattle.fleet_config.specs.Limits.{most_jobs};
ghost use Rattle.target_tree.specs.Machine.{machine_tree};
ghost use Rattle.target_match.specs.Readability.{unread_leaf};
ghost use Rattle.salt_value.specs.WellFormed.{ValueFits};
ghost use Rattle.salt_value.specs.declared.value.Value.TheVariants as v;
ghost use Rattle.salt_wire.specs.Limits.{JobFits, TreeFits, most_target_bytes};
ghost use Rattle.node_core.specs.Publications.{order, tree_of_text};
ghost use Rattle.node_core.specs.Steps as step;
ghost use Rattle.node_core.specs.Steps.{IsOrderRefusal, IsPatternFault, IsJidFault, HasJobRoom, IsOrderJid, IsJobOf, MakesJob, Denies};

use crate::strays::last_jid;
use crate::{PublishFault, PublishRefusal};
use fleet_config::Fleet;
use salt_value::{Jid, Text, Value, Word, copy_items, list_fits};
use salt_wire::{Job, tree_fits};
use sqlite_items::Boxed;
use std::alloc::{AllocError, Global};
use target_match::{BuildFault, Matcher};
use target_tree::{Groups, Kind, Target, TargetFault, read_target};

// The fault of a publication whose target's text has this fault.
fn order_fault(fault: TargetFault) -> PublishFault
    ensures value { result ≡ step.order_fault fault }
{
    match fault {
        TargetFault::NoMemory => PublishFault::NoMemory,
        fault => PublishFault::Refused {
            cause: PublishRefusal::Target { fault },
        },
    }
}

// The tree of a target's text.
fn order_tree(
    alloc: Global,
    groups: &Groups,
    kind: Kind,
    tgt: &str,
) -> Result<Boxed<Target>, PublishFault>
    ensures ok { IfOk result (λ tree. machine_tree kind groups.now tgt.now ≡ Ok tree) }
    ensures short { OnOk result (length tgt.now ≤ most_target_bytes) }
    ensures fault { IfErr result (IsOrderRefusal (tree_of_text kind groups.now tgt.now)) }
{
    match read_target(alloc, kind, tgt, groups) {
        Ok(tree) => Ok(Boxed::new(alloc, tree)?),
        Err(fault) => Err(order_fault(fault)),
    }
}

// Can each pattern of the target be read and matched with?
fn read_patterns(alloc: Global, tree: &Target) -> Result<(), PublishFault>
    ensures ok { OnOk result (unread_leaf tree.now ≡ None) }
    ensures fault { IfErr result (IsPatternFault tree.now) }
{
    match Matcher::build(alloc, tree) {
        Ok(_) => Ok(()),
        Err(BuildFault::NoMemory) => Err(PublishFault::NoMemory),
        Err(BuildFault::BadPattern { leaf }) => Err(PublishFault::Refused {
            cause: PublishRefusal::BadPattern { leaf },
        }),
        Err(BuildFault::TooBig { leaf }) => Err(PublishFault::TooBig { leaf }),
    }
}

// The jid of an order with these arguments and this target.
#[tactic(auto, using(crate::proofs::Later::next_later))]
fn order_jid(
    alloc: Global,
    fleet: &Fleet,
    moment: u64,
    args: &[Value],
    tree: &Target,
    jobs: &[Job],
) -> Result<Jid, PublishFault>
    ensures ok { IfOk result (IsOrderJid fleet.now moment args.now tree.now jobs.now) }
    ensures room { OnOk result (HasJobRoom args.now tree.now jobs.now) }
    ensures later { IfOk result (λ jid. is_after (last_jid jobs.now) jid ≡ true) }
    ensures fault { IfErr result (IsJidFault fleet.now moment args.now tree.now jobs.now) }
{
    read_patterns(alloc, tree)?;
    if !(list_fits(args) && tree_fits(tree)) {
        return Err(PublishFault::Refused {
            cause: PublishRefusal::TooLarge,
        });
    }
    let max = fleet.max_jobs();
    if jobs.len() >= max as usize {
        return Err(PublishFault::Refused {
            cause: PublishRefusal::JobsFull { max },
        });
    }
    match Jid::next(last_jid(jobs), moment) {
        Ok(jid) => Ok(jid),
        Err(_) => Err(PublishFault::Refused {
            cause: PublishRefusal::JidEnd,
        }),
    }
}

// The job of an order, whose target is this tree.
fn make_job(
    alloc: Global,
    jid: Jid,
    kind: Kind,
    tgt: &str,
    tree: Boxed<Target>,
    fun: &Word,
    args: &[Value],
) -> Result<Job, AllocError>
    requires short { length tgt.now ≤ most_target_bytes }
    requires args { ValueFits (v.List args.now) }
    requires tree { TreeFits tree }
    ensures ok { IfOk result (IsJobOf (order kind tgt.now fun.now args.now) tree jid) }
    ensures fits { IfOk result JobFits }
{
    let tgt = Text::new(String::from_str(alloc, tgt)?);
    let _text = tgt.as_str();
    let _micros = jid.micros();
    let _word = fun.as_bytes();
    Ok(Job {
        jid,
        kind,
        tgt,
        target: tree,
        fun: fun.copy()?,
        args: copy_items(alloc, args)?,
    })
}

/// The job that an order makes at a moment where the top has these jobs. It is within the limits of messages, and there is room for it.
pub fn order_job(
    alloc: Global,
    fleet: &Fleet,
    moment: u64,
    kind: Kind,
    tgt: &str,
    fun: &Word,
    args: &[Value],
    jobs: &[Job],
) -> Result<Job, PublishFault>
    ensures ok { IfOk result (MakesJob fleet.now moment kind tgt.now fun.now args.now jobs.now) }
    ensures fits { IfOk result JobFits }
    ensures few { OnOk result (length jobs.now < most_jobs) }
    ensures later { IfOk result (λ job. is_later jobs.now job ≡ true) }
    ensures fault { IfErr result (Denies fleet.now moment kind tgt.now fun.now args.now jobs.now) }
{
    let tree = order_tree(alloc, fleet.groups(), kind, tgt)?;
    let jid = order_jid(alloc, fleet, moment, args, tree.get(), jobs)?;
    Ok(make_job(alloc, jid, kind, tgt, tree, fun, args)?)
}
