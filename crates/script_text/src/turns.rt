//! The lines of turns.
ghost use Rattle.std.specs.Prelude.{◌≡◌, ◌++◌, ◌↔◌, codes, IsTrue, IfOk, IfSome, IfNone};
ghost use Rattle.std.specs.List.{list_all};
ghost use Rattle.salt_value.specs.Reading.{Decodes};
ghost use Rattle.script_text.specs.Script as spec;
ghost use Rattle.script_text.specs.Script.{IsPattern};
ghost use Rattle.script_text.specs.Fleet.{fleet_by, tree_by, AreFleetIds};
ghost use Rattle.script_text.specs.Turns as spec_turns;
ghost use Rattle.script_text.specs.Turns.{ReadsTurn, ReadsInEachFleet, target_text, IsPublication, publication_text, ReadsNode, HasNode, HasNoNode, ReadsSending};

use crate::lines::{cut, read_number, strip_back, strip_front};
use exec_functions::{Function, Query};
use fleet_turns::Turn;
use indexmap::IndexSet;
use salt_value::{Items, Jid, MinionId, NodeId, Text};
use std::alloc::{AllocError, Global};
use std::str;
use target_tree::Kind;

/// The greatest number of bytes of a pattern.
const MOST_PATTERN_BYTES: usize = 256;

/// The turn of a line, in a fleet of a top with the first of these ids and minions with the others.
pub fn read_turn(
    alloc: Global,
    ids: &IndexSet<MinionId>,
    line: &[u8],
) -> Result<Option<Turn>, AllocError>
    requires { AreFleetIds ids.now.keys }
    ensures { IfOk result (ReadsTurn (fleet_by ids.now.keys) line.now) }
{
    if let Some(rest) = strip_front(line, b"publish ") {
        read_publish(alloc, rest)
    } else if let Some(rest) = strip_front(line, b"send ") {
        Ok(read_send(ids, rest))
    } else if let Some(rest) = strip_front(line, b"deliver ") {
        Ok(read_deliver(rest))
    } else if let Some(rest) = strip_front(line, b"report ") {
        Ok(read_report(rest))
    } else {
        Ok(None)
    }
}

// The turn of a line of which this stands after `publish `.
fn read_publish(alloc: Global, rest: &[u8]) -> Result<Option<Turn>, AllocError>
    ensures { IfOk result (ReadsInEachFleet (codes "publish " ++ rest.now)) }
{
    match read_publication(alloc, rest)? {
        Some((moment, tgt)) => Ok(Some(ping(alloc, moment, tgt)?)),
        None => Ok(None),
    }
}

// A publication of `test.ping` without arguments.
fn ping(alloc: Global, moment: u64, tgt: Text) -> Result<Turn, AllocError>
    ensures { IfOk result (λ turn. turn ≡ spec_turns.ping moment tgt) }
{
    Ok(Turn::Publish {
        moment,
        kind: Kind::Glob,
        tgt,
        fun: Function::Asks(Query::TestPing).word(alloc)?,
        args: Items::new(alloc),
    })
}

// `MOMENT glob test.ping ["PATTERN"]`.
fn read_publication(alloc: Global, text: &[u8]) -> Result<Option<(u64, Text)>, AllocError>
    ensures { IfOk result (Decodes IsPublication publication_text text.now) }
{
    let Some((digits, rest)) = cut(text, b' ') else {
        return Ok(None);
    };
    let Some(moment) = read_number(digits) else {
        return Ok(None);
    };
    match read_target(alloc, rest)? {
        Some(tgt) => Ok(Some((moment, tgt))),
        None => Ok(None),
    }
}

// The pattern of `glob test.ping ["PATTERN"]`.
fn read_target(alloc: Global, text: &[u8]) -> Result<Option<Text>, AllocError>
    ensures { IfOk result (Decodes IsPattern target_text text.now) }
{
    let Some(rest) = strip_front(text, b"glob test.ping [\"") else {
        return Ok(None);
    };
    match strip_back(rest, b"\"]") {
        Some(pattern) => read_pattern(alloc, pattern),
        None => Ok(None),
    }
}

fn is_pattern_byte(b: u8) -> bool
    ensures { result ≡ spec.is_pattern_byte b }
{
    0x21 <= b && b <= 0x7e && b != b'"' && b != b'\\'
}

fn are_pattern_bytes(text: &[u8]) -> bool
    ensures { result ≡ list_all spec.is_pattern_byte text.now }
{
    text.iter().all(|b| is_pattern_byte(*b))
}

fn is_pattern(text: &[u8]) -> bool
    ensures { IsTrue result ↔ IsPattern text.now }
{
    0 < text.len() && text.len() <= MOST_PATTERN_BYTES && are_pattern_bytes(text)
}

// The pattern that this text is.
fn read_pattern(alloc: Global, text: &[u8]) -> Result<Option<Text>, AllocError>
    ensures { IfOk result (Decodes IsPattern (λ tgt. tgt) text.now) }
{
    if !is_pattern(text) {
        return Ok(None);
    }
    match str::from_utf8(text) {
        Ok(pattern) => Ok(Some(Text::new(String::from_str(alloc, pattern)?))),
        Err(_) => Ok(None),
    }
}

// The number of the node with this id.
fn node_of(ids: &IndexSet<MinionId>, word: &[u8]) -> Option<NodeId>
    requires { AreFleetIds ids.now.keys }
    ensures { ReadsNode (tree_by ids.now.keys) word.now result }
{
    let Ok(id) = MinionId::from_bytes(word) else {
        return None;
    };
    match ids.get_index_of(&id) {
        Some(place) => Some(NodeId::new(place as u32)),
        None => None,
    }
}

// The node whose id stands before the first space, and what stands after it.
fn read_node<'a>(ids: &IndexSet<MinionId>, text: &'a [u8]) -> Option<(NodeId, &'a [u8])>
    requires { AreFleetIds ids.now.keys }
    ensures some { IfSome result (λ r. HasNode (tree_by ids.now.keys) text.now r.0 r.1.now) }
    ensures none { IfNone result (HasNoNode (tree_by ids.now.keys) text.now) }
{
    let Some((word, rest)) = cut(text, b' ') else {
        return None;
    };
    match node_of(ids, word) {
        Some(node) => Some((node, rest)),
        None => None,
    }
}

// `FROM TO N`.
fn read_sending(ids: &IndexSet<MinionId>, text: &[u8]) -> Option<(NodeId, (NodeId, u64))>
    requires { AreFleetIds ids.now.keys }
    ensures { ReadsSending (tree_by ids.now.keys) text.now result }
{
    let Some(from) = read_node(ids, text) else {
        return None;
    };
    let Some(to) = read_node(ids, from.1) else {
        return None;
    };
    match read_number(to.1) {
        Some(count) => Some((from.0, (to.0, count))),
        None => None,
    }
}

// Whether one node is the top and the other a minion.
fn are_neighbours(a: NodeId, b: NodeId) -> bool
    ensures { result ≡ spec_turns.are_neighbours a b }
{
    (a.place() == 0 && 0 < b.place()) || (b.place() == 0 && 0 < a.place())
}

// The turn of a line of which this stands after `send `.
fn read_send(ids: &IndexSet<MinionId>, rest: &[u8]) -> Option<Turn>
    requires { AreFleetIds ids.now.keys }
    ensures { ReadsTurn (fleet_by ids.now.keys) (codes "send " ++ rest.now) result }
{
    let Some(sending) = read_sending(ids, rest) else {
        return None;
    };
    let (from, (to, count)) = sending;
    if are_neighbours(from, to) {
        Some(Turn::Send { from, to, count })
    } else {
        None
    }
}

// The turn of a line of which this stands after `deliver `.
fn read_deliver(rest: &[u8]) -> Option<Turn>
    ensures { ReadsInEachFleet (codes "deliver " ++ rest.now) result }
{
    match read_number(rest) {
        Some(packet) => Some(Turn::Deliver { packet }),
        None => None,
    }
}

// The turn of a line of which this stands after `report `.
fn read_report(rest: &[u8]) -> Option<Turn>
    ensures { ReadsInEachFleet (codes "report " ++ rest.now) result }
{
    match Jid::read(rest) {
        Some(jid) => Some(Turn::Report { jid }),
        None => None,
    }
}
