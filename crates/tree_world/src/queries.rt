//! The lines of what is asked of nodes.
ghost use Rattle.std.specs.Prelude.{codes, ◌≡◌, ◌++◌, ◌<◌, decimal, length, flat_map, IfOk, OnOk};
ghost use Rattle.value_json.specs.Texts.{json_text};
ghost use Rattle.salt_value.specs.declared.value.Value.TheVariants as v;
ghost use Rattle.tree_world.specs.Steps.{AddsText, AreNodes};
ghost use Rattle.tree_world.specs.Text as text;

use exec_functions::Holdings;
use fleet_config::Fleet;
use node_core::Node;
use salt_value::{Fields, Jid, MinionId, NodeId, Row, Value};
use salt_wire::Job;
use std::alloc::{AllocError, Global};
use value_json::to_text;

/// The line of a settle.
pub fn settled_text(alloc: Global) -> Result<Vec<u8>, AllocError>
    ensures { IfOk result (λ v. v.items ≡ text.line (codes "settled")) }
{
    let mut line = Vec::new(alloc);
    line.extend_from_slice(b"settled\n")?;
    Ok(line)
}

/// The lines of the rows of a report, each with whether its retcode is 0.
pub fn exit_text(alloc: Global, jid: Jid, rows: &[Row]) -> Result<Vec<u8>, AllocError>
    ensures { IfOk result (λ v. v.items ≡ text.exit_text jid rows.now) }
{
    let mut out = Vec::new(alloc);
    out.extend_from_slice(b"exit ")?;
    out.extend_from_slice(&jid.text())?;
    out.push(b' ')?;
    out.extend_from_slice(rows.len().to_string(alloc)?.as_bytes())?;
    out.push(b'\n')?;
    for row in rows {
        push_exit_row(&mut out, row)?;
    }
    Ok(out)
}

// A minion's id, and whether its retcode is 0.
fn push_exit_row(out: &mut Vec<u8>, row: &Row) -> Result<(), AllocError>
    ensures { OnOk result (out.new.items ≡ out.old.items ++ text.exit_row_text row.now) }
{
    out.extend_from_slice(row.id.as_bytes())?;
    out.push(b' ')?;
    out.extend_from_slice(exit_word(row.outcome.retcode == 0))?;
    out.push(b'\n')?;
    Ok(())
}

// Whether a retcode is 0, as a word.
fn exit_word(is_zero: bool) -> &'static [u8]
    ensures { result.now ≡ text.exit_word is_zero }
{
    if is_zero { b"true" } else { b"false" }
}

/// The lines of a list of jobs.
pub fn jobs_text(alloc: Global, jobs: &[Job]) -> Result<Vec<u8>, AllocError>
    ensures { IfOk result (λ v. v.items ≡ text.jobs_text jobs.now) }
{
    let mut out = Vec::new(alloc);
    out.extend_from_slice(b"jobs ")?;
    out.extend_from_slice(jobs.len().to_string(alloc)?.as_bytes())?;
    out.push(b'\n')?;
    for job in jobs {
        push_job(alloc, &mut out, job)?;
    }
    Ok(out)
}

// A job's jid, its function, and its target's kind and text as JSON.
fn push_job(alloc: Global, out: &mut Vec<u8>, job: &Job) -> Result<(), AllocError>
    ensures { OnOk result (out.new.items ≡ out.old.items ++ text.job_text job.now) }
{
    out.extend_from_slice(&job.jid.text())?;
    out.push(b' ')?;
    out.extend_from_slice(job.fun.as_bytes())?;
    out.push(b' ')?;
    out.extend_from_slice(job.kind.name().as_bytes())?;
    out.push(b' ')?;
    push_json(alloc, out, &Value::Str(job.tgt.copy()?))?;
    out.push(b'\n')?;
    Ok(())
}

// A value as JSON.
fn push_json(alloc: Global, out: &mut Vec<u8>, value: &Value) -> Result<(), AllocError>
    ensures { OnOk result (out.new.items ≡ out.old.items ++ json_text value.now) }
{
    let text = to_text(alloc, value)?;
    out.extend_from_slice(text.as_bytes())
}

/// The line of how many jobs there are, and how many rows their reports have.
pub fn summary_text(alloc: Global, jobs: usize, rows: u64) -> Result<Vec<u8>, AllocError>
    ensures { IfOk result (λ v. v.items ≡ text.line (codes "summary jobs " ++ decimal jobs
        ++ codes " rows " ++ decimal rows)) }
{
    let mut line = Vec::new(alloc);
    line.extend_from_slice(b"summary jobs ")?;
    line.extend_from_slice(jobs.to_string(alloc)?.as_bytes())?;
    line.extend_from_slice(b" rows ")?;
    line.extend_from_slice(rows.to_string(alloc)?.as_bytes())?;
    line.push(b'\n')?;
    Ok(line)
}

/// The line of what the node with this id holds.
pub fn data_text(alloc: Global, id: &MinionId, held: &Holdings) -> Result<Vec<u8>, AllocError>
    ensures { IfOk result (λ v. v.items ≡ text.data_text id.now held.now) }
{
    let mut line = Vec::new(alloc);
    line.extend_from_slice(b"data ")?;
    line.extend_from_slice(id.as_bytes())?;
    push_fields(alloc, &mut line, &held.grains)?;
    push_fields(alloc, &mut line, &held.store)?;
    push_fields(alloc, &mut line, &held.mine)?;
    line.push(b'\n')?;
    Ok(line)
}

// A space, and fields as JSON.
fn push_fields(alloc: Global, out: &mut Vec<u8>, fields: &Fields) -> Result<(), AllocError>
    ensures { OnOk result (AddsText (codes " " ++ json_text (v.Map fields.now))
        out.old.items out.new.items) }
{
    out.push(b' ')?;
    push_json(alloc, out, &Value::Map(fields.copy(alloc)?))
}

/// The line of how many jobs a node holds, and how many entries it has of each minion at or below it.
pub fn counts_text(
    alloc: Global,
    fleet: &Fleet,
    place: NodeId,
    node: &Node,
) -> Result<Vec<u8>, AllocError>
    requires { place < length fleet.now.tree }
    ensures { IfOk result (λ v. v.items
        ≡ text.counts_text fleet.now.tree place node.now.state.records) }
{
    let mut line = Vec::new(alloc);
    line.extend_from_slice(b"counts ")?;
    line.extend_from_slice(fleet.id_bytes(place))?;
    line.extend_from_slice(b" jobs ")?;
    line.extend_from_slice(node.jobs_held().to_string(alloc)?.as_bytes())?;
    let minions = fleet.minions(alloc, place)?;
    push_counts(alloc, &mut line, fleet, node, &minions)?;
    line.push(b'\n')?;
    Ok(line)
}

// How many entries a node has of each of these minions.
fn push_counts(
    alloc: Global,
    out: &mut Vec<u8>,
    fleet: &Fleet,
    node: &Node,
    minions: &[NodeId],
) -> Result<(), AllocError>
    requires { AreNodes fleet.now.tree minions.now }
    ensures { OnOk result (AddsText
        (flat_map (text.entries_text fleet.now.tree node.now.state.records) minions.now)
        out.old.items out.new.items) }
{
    for minion in minions {
        push_count(alloc, out, &fleet.id(*minion), node)?;
    }
    Ok(())
}

// A minion's id, and how many entries of it a node has.
fn push_count(
    alloc: Global,
    out: &mut Vec<u8>,
    id: &MinionId,
    node: &Node,
) -> Result<(), AllocError>
    ensures { OnOk result (AddsText (text.entry_count_text node.now.state.records id.now)
        out.old.items out.new.items) }
{
    out.push(b' ')?;
    out.extend_from_slice(id.as_bytes())?;
    out.push(b':')?;
    out.extend_from_slice(node.log(id).len().to_string(alloc)?.as_bytes())
}
