//! Fleets: how they grow, and what they tell of their nodes.
use crate::made::{
    FAILED, Given, HOLDERS, Sown, TREE, group, grown, id, pair, peopled, plant, sow, value,
};
use exec_functions::Holdings;
use fleet_config::{Fleet, FleetNode, MOST_JOBS, MOST_JOURNAL_LIMIT, NodeFault, Role};
use salt_value::{Fields, MinionId, NodeId, Value};
use sqlite_items::Items;
use std::alloc::{AllocError, Global};
use std::process::Abort;
use target_tree::GroupFault;

// Nodes that are added in order to a fleet, and what it answers: the place, or why it stays as it was.
static GROWTH: [(Sown, Result<u32, NodeFault>); 22] = [
    (("m1", Role::Minion, None), Err(NodeFault::NoTop)),
    (("m1", Role::Syndic, Some(0)), Err(NodeFault::NoTop)),
    (("top", Role::Top, Some(0)), Err(NodeFault::NoParent)),
    (("top", Role::Top, None), Ok(0)),
    (("top", Role::Top, None), Err(NodeFault::TwoTops)),
    (("top", Role::Minion, None), Err(NodeFault::TwiceId)),
    (("m1", Role::Minion, None), Err(NodeFault::NoParent)),
    (("m1", Role::Minion, Some(1)), Err(NodeFault::NoParent)),
    (("m1", Role::Minion, Some(0)), Ok(1)),
    (("m2", Role::Minion, Some(1)), Err(NodeFault::NoParent)),
    (("m1", Role::Syndic, Some(1)), Err(NodeFault::TwiceId)),
    (("s2", Role::Syndic, Some(0)), Ok(2)),
    (("s3", Role::Syndic, Some(2)), Ok(3)),
    (("s4", Role::Syndic, Some(3)), Ok(4)),
    (("s5", Role::Syndic, Some(4)), Ok(5)),
    (("s6", Role::Syndic, Some(5)), Ok(6)),
    (("s7", Role::Syndic, Some(6)), Ok(7)),
    (("s8", Role::Syndic, Some(7)), Ok(8)),
    (("m9", Role::Minion, Some(8)), Err(NodeFault::TooDeep)),
    (("s9", Role::Syndic, Some(8)), Err(NodeFault::TooDeep)),
    (("m8", Role::Minion, Some(7)), Ok(9)),
    (("m9", Role::Minion, Some(0)), Ok(10)),
];

// Each answer, and one node more exactly after Ok.
fn grows(
    rt: &impl Abort,
    alloc: Global,
    fleet: &mut Fleet,
    rows: &[(Sown, Result<u32, NodeFault>)],
) {
    for ((text, role, parent), answer) in rows {
        let before = fleet.count();
        let node = id(rt, text);
        let added = sow(alloc, fleet, node, *role, *parent);
        let count = if answer.is_ok() { 1 } else { 0 };
        assert_eq!(rt;
            (added, fleet.count().saturating_sub(before)),
            (*answer, count),
            "{text}"
        );
    }
}

#[test]
fn a_fleet_grows_node_by_node(rt: HostRuntime) {
    let mut fleet = Fleet::new(rt.alloc());
    grows(&rt, rt.alloc(), &mut fleet, &GROWTH);
}

// Adds nodes of this role under the top until one is refused: how many were added, and why no more.
fn fill(
    rt: &impl Abort,
    alloc: Global,
    fleet: &mut Fleet,
    role: Role,
    most: u32,
) -> (u32, Result<u32, NodeFault>) {
    for n in 0..most {
        let text = format!(in alloc; "n{n}").expect(rt, FAILED);
        let added = sow(alloc, fleet, id(rt, text.as_str()), role, Some(0));
        if added.is_err() {
            return (n, added);
        }
    }
    (most, Ok(0))
}

// How many nodes of a role a fleet takes.
static MOST: [(Role, u32); 2] = [(Role::Syndic, 256), (Role::Minion, 4096)];

fn fills(rt: &impl Abort, alloc: Global, fleet: &mut Fleet, role: Role, most: u32) {
    let filled = fill(rt, alloc, fleet, role, 5000);
    assert_eq!(rt; filled, (most, Err(NodeFault::TooMany)));
}

#[test]
fn a_fleet_has_256_syndics_and_4096_minions_at_most(rt: HostRuntime) {
    for (role, most) in &MOST {
        let mut fleet = grown(&rt, rt.alloc(), &TREE[..1]);
        fills(&rt, rt.alloc(), &mut fleet, *role, *most);
    }
}

fn has_limits(rt: &impl Abort, fleet: &Fleet, max_jobs: u32, journal_limit: u64) {
    assert_eq!(rt;
        (fleet.max_jobs(), fleet.journal_limit()),
        (max_jobs, journal_limit)
    );
}

#[test]
fn a_fleet_says_how_many_jobs_and_bytes_there_may_be(rt: HostRuntime) {
    let mut fleet = Fleet::new(rt.alloc());
    has_limits(&rt, &fleet, MOST_JOBS, MOST_JOURNAL_LIMIT);
    fleet.limits(1, 64);
    has_limits(&rt, &fleet, 1, 64);
    fleet.limits(65_535, 1_073_741_824);
    has_limits(&rt, &fleet, 65_535, 1_073_741_824);
}

// Nodegroups that are added in order, and what the fleet answers.
static GROUPS: [(&str, &str, Option<GroupFault>); 3] = [
    ("web", "w*", None),
    ("db", "N@web", None),
    ("web", "x*", Some(GroupFault::Twice)),
];

static FOUND: [(&str, Option<&str>); 3] = [("web", Some("w*")), ("db", Some("N@web")), ("w", None)];

fn has_groups(rt: &impl Abort, fleet: &Fleet, rows: &[(&str, Option<&str>)]) {
    for (name, wanted) in rows {
        let found = match fleet.groups().find(name) {
            Some(text) => Some(text.as_str()),
            None => None,
        };
        assert_eq!(rt; found, *wanted, "{name}");
    }
}

#[test]
fn a_fleet_has_nodegroups(rt: HostRuntime) {
    let mut fleet = Fleet::new(rt.alloc());
    for (name, text, fault) in &GROUPS {
        assert_eq!(rt; group(&rt, rt.alloc(), &mut fleet, name, text), *fault);
    }
    has_groups(&rt, &fleet, &FOUND);
}

// A part of what a minion holds.
#[derive(Clone, Copy, Debug)]
enum Part {
    Grains,
    Pillar,
    Store,
    Mine,
}

// One part is a map of a value under a key of one byte, and the others are empty.
fn holding(rt: &impl Abort, alloc: Global, part: Part, given: Given) -> Holdings {
    let fields = Fields::new(alloc)
        .with(alloc, "k", value(rt, alloc, given))
        .expect(rt, FAILED);
    let mut held = Holdings::none(alloc);
    match part {
        Part::Grains => held.grains = fields,
        Part::Pillar => held.pillar = fields,
        Part::Store => held.store = fields,
        Part::Mine => held.mine = fields,
    }
    held
}

// Minions that hold this, under the node at this place of the flat tree, and what the fleet answers.
type Heavy = (&'static str, u32, Part, Given, Result<u32, NodeFault>);

static HEAVY: [Heavy; 9] = [
    (
        "m3",
        0,
        Part::Grains,
        Given::Levels(32),
        Err(NodeFault::TooLarge),
    ),
    (
        "m3",
        0,
        Part::Grains,
        Given::Bytes(65_522),
        Err(NodeFault::TooLarge),
    ),
    (
        "m3",
        0,
        Part::Pillar,
        Given::Levels(32),
        Err(NodeFault::TooLarge),
    ),
    (
        "m3",
        0,
        Part::Store,
        Given::Bytes(65_522),
        Err(NodeFault::TooLarge),
    ),
    (
        "m3",
        0,
        Part::Mine,
        Given::Levels(32),
        Err(NodeFault::TooLarge),
    ),
    // every other cause comes first
    (
        "m3",
        1,
        Part::Grains,
        Given::Levels(32),
        Err(NodeFault::NoParent),
    ),
    (
        "m1",
        0,
        Part::Grains,
        Given::Levels(32),
        Err(NodeFault::TwiceId),
    ),
    ("m3", 0, Part::Grains, Given::Levels(31), Ok(3)),
    ("m4", 0, Part::Mine, Given::Bytes(65_521), Ok(4)),
];

fn add_heavy(
    rt: &impl Abort,
    alloc: Global,
    fleet: &mut Fleet,
    row: &Heavy,
) -> Result<u32, NodeFault> {
    let node = FleetNode {
        id: id(rt, row.0),
        role: Role::Minion,
        parent: Some(NodeId::new(row.1)),
        port: 0,
        held: holding(rt, alloc, row.2, row.3),
    };
    plant(fleet, node)
}

// Each answer, and one node more exactly after Ok.
fn holds_at_most(rt: &impl Abort, alloc: Global, fleet: &mut Fleet, rows: &[Heavy]) {
    for (i, row) in rows.iter().enumerate() {
        let before = fleet.count();
        let added = add_heavy(rt, alloc, fleet, row);
        let count = if row.4.is_ok() { 1 } else { 0 };
        let more = fleet.count().saturating_sub(before);
        assert_eq!(rt; (added, more), (row.4, count), "row {i}");
    }
}

#[test]
fn a_minion_holds_32_levels_and_65536_bytes_at_most(rt: HostRuntime) {
    let mut fleet = pair(&rt, rt.alloc());
    holds_at_most(&rt, rt.alloc(), &mut fleet, &HEAVY);
}

// What a node holds under a key of its grains and of its pillar.
fn held(fleet: &Fleet, place: u32) -> (Option<&str>, Option<&str>) {
    if place >= fleet.count() {
        return (None, None);
    }
    let held = fleet.held(NodeId::new(place));
    (
        text_in(held.grains.get(b"os")),
        text_in(held.pillar.get(b"role")),
    )
}

fn text_in(value: Option<&Value>) -> Option<&str> {
    match value {
        Some(Value::Str(text)) => Some(text.as_str()),
        _ => None,
    }
}

static HELD: [(u32, (Option<&str>, Option<&str>)); 3] = [
    (0, (None, None)),
    (1, (Some("Arch"), Some("web"))),
    (2, (Some("Debian"), Some("db"))),
];

#[test]
fn a_fleet_says_what_its_minions_hold_at_first(rt: HostRuntime) {
    let fleet = peopled(&rt, rt.alloc(), &HOLDERS);
    for (place, wanted) in &HELD {
        assert_eq!(rt; held(&fleet, *place), *wanted, "at {place}");
    }
}

// A top that listens at this port, and a minion that says nothing of one.
fn listening(rt: &impl Abort, alloc: Global, port: u16) -> Fleet {
    let mut fleet = Fleet::new(alloc);
    let top = FleetNode {
        id: id(rt, "top"),
        role: Role::Top,
        parent: None,
        port,
        held: Holdings::none(alloc),
    };
    plant(&mut fleet, top).expect(rt, FAILED);
    sow(alloc, &mut fleet, id(rt, "m1"), Role::Minion, Some(0)).expect(rt, FAILED);
    fleet
}

fn has_port(rt: &impl Abort, fleet: &Fleet, place: u32, port: u16) {
    if place >= fleet.count() {
        panic!(rt; "{FAILED}");
    }
    assert_eq!(rt; fleet.port(NodeId::new(place)), port, "at {place}");
}

#[test]
fn a_fleet_says_where_its_masters_listen(rt: HostRuntime) {
    for port in [0, 1, 4505, 65_535] {
        let fleet = listening(&rt, rt.alloc(), port);
        has_port(&rt, &fleet, 0, port);
        has_port(&rt, &fleet, 1, 0);
    }
}

// The place of the node with this id, and 99 where there is none.
fn place(fleet: &Fleet, id: &MinionId) -> u32 {
    match fleet.find(id) {
        Some(node) => node.place(),
        None => 99,
    }
}

fn finds(rt: &impl Abort, fleet: &Fleet, rows: &[(&str, u32)]) {
    for (text, at) in rows {
        assert_eq!(rt; place(fleet, &id(rt, text)), *at, "{text}");
    }
}

static PAIR_PLACES: [(&str, u32); 5] = [("top", 0), ("m2", 1), ("m1", 2), ("m3", 99), ("m", 99)];

static TREE_PLACES: [(&str, u32); 7] = [
    ("top", 0),
    ("sa", 1),
    ("m1", 2),
    ("sb", 3),
    ("m2", 4),
    ("m3", 5),
    ("s", 99),
];

#[test]
fn nodes_are_found_by_their_ids(rt: HostRuntime) {
    finds(&rt, &pair(&rt, rt.alloc()), &PAIR_PLACES);
    finds(&rt, &grown(&rt, rt.alloc(), &TREE), &TREE_PLACES);
}

// Is this the node's id, role and parent?
fn is_node(fleet: &Fleet, place: u32, id: &str, role: Role, parent: u32) -> bool {
    if place >= fleet.count() {
        return false;
    }
    let node = NodeId::new(place);
    let is_id = fleet.id(node).as_str() == id && fleet.id_bytes(node) == id.as_bytes();
    let is_role = fleet.role(node) == role && fleet.is_minion(node) == (role == Role::Minion);
    is_id && is_role && fleet.parent(node).place() == parent
}

fn has_nodes(rt: &impl Abort, fleet: &Fleet, rows: &[(u32, &str, Role, u32)]) {
    assert_eq!(rt; fleet.count() as usize, rows.len());
    for (place, id, role, parent) in rows {
        assert!(rt; is_node(fleet, *place, id, *role, *parent), "{id}");
    }
}

static PAIR_NODES: [(u32, &str, Role, u32); 3] = [
    (0, "top", Role::Top, 0),
    (1, "m2", Role::Minion, 0),
    (2, "m1", Role::Minion, 0),
];

static TREE_NODES: [(u32, &str, Role, u32); 6] = [
    (0, "top", Role::Top, 0),
    (1, "sa", Role::Syndic, 0),
    (2, "m1", Role::Minion, 1),
    (3, "sb", Role::Syndic, 1),
    (4, "m2", Role::Minion, 3),
    (5, "m3", Role::Minion, 0),
];

// The same flat tree as PAIR, made at once.
fn flat(alloc: Global) -> Result<Fleet, AllocError> {
    let Ok(top) = MinionId::read("top") else {
        return Err(AllocError);
    };
    let Ok(m2) = MinionId::read("m2") else {
        return Err(AllocError);
    };
    let Ok(m1) = MinionId::read("m1") else {
        return Err(AllocError);
    };
    let mut minions = Items::new(alloc);
    minions.push(m2)?;
    minions.push(m1)?;
    Fleet::flat(alloc, top, minions)
}

#[test]
fn a_flat_fleet_is_made_at_once(rt: HostRuntime) {
    let fleet = flat(rt.alloc()).expect(&rt, FAILED);
    has_nodes(&rt, &fleet, &PAIR_NODES);
    finds(&rt, &fleet, &PAIR_PLACES);
}

#[test]
fn nodes_are_told_by_their_places(rt: HostRuntime) {
    has_nodes(&rt, &pair(&rt, rt.alloc()), &PAIR_NODES);
    has_nodes(&rt, &grown(&rt, rt.alloc(), &TREE), &TREE_NODES);
}

fn ends_before(rt: &impl Abort, fleet: &Fleet, place: u32) {
    let node = NodeId::new(place);
    assert_eq!(rt;
        (fleet.id_bytes(node).len(), fleet.is_minion(node)),
        (0, false)
    );
}

#[test]
fn past_the_end_there_is_no_node(rt: HostRuntime) {
    ends_before(&rt, &Fleet::new(rt.alloc()), 0);
    ends_before(&rt, &pair(&rt, rt.alloc()), 3);
    ends_before(&rt, &grown(&rt, rt.alloc(), &TREE), 6);
}

// Whether a node is the parent of another one, its branch towards that one, and whether that one lies within it.
fn way(fleet: &Fleet, node: u32, other: u32) -> (bool, u32, bool) {
    if other >= fleet.count() {
        return (false, 99, false);
    }
    let (node, other) = (NodeId::new(node), NodeId::new(other));
    let is_parent = fleet.is_parent(node, other);
    let branch = fleet.branch(node, other).place();
    (is_parent, branch, fleet.is_within(node, other))
}

fn leads(rt: &impl Abort, fleet: &Fleet, rows: &[(u32, u32, (bool, u32, bool))]) {
    for (node, other, wanted) in rows {
        assert_eq!(rt; way(fleet, *node, *other), *wanted, "{node} to {other}");
    }
}

static PAIR_WAYS: [(u32, u32, (bool, u32, bool)); 7] = [
    (0, 0, (false, 0, true)),
    (0, 1, (true, 1, true)),
    (0, 2, (true, 2, true)),
    (1, 0, (false, 0, false)),
    (1, 1, (false, 0, true)),
    (1, 2, (false, 0, false)),
    (2, 1, (false, 0, false)),
];

static TREE_WAYS: [(u32, u32, (bool, u32, bool)); 12] = [
    (0, 1, (true, 1, true)),
    (0, 2, (false, 1, true)),
    (0, 4, (false, 1, true)),
    (0, 5, (true, 5, true)),
    (1, 2, (true, 2, true)),
    (1, 4, (false, 3, true)),
    (1, 5, (false, 0, false)),
    (1, 0, (false, 0, false)),
    (3, 4, (true, 4, true)),
    (3, 2, (false, 0, false)),
    (3, 3, (false, 0, true)),
    (4, 3, (false, 0, false)),
];

#[test]
fn nodes_lie_below_their_masters(rt: HostRuntime) {
    leads(&rt, &pair(&rt, rt.alloc()), &PAIR_WAYS);
    leads(&rt, &grown(&rt, rt.alloc(), &TREE), &TREE_WAYS);
}

fn are(rt: &impl Abort, found: &[NodeId], places: &[u32]) {
    assert_eq!(rt; found.len(), places.len());
    for (node, place) in found.iter().zip(places.iter()) {
        assert_eq!(rt; node.place(), *place);
    }
}

fn has_minions(rt: &impl Abort, alloc: Global, fleet: &Fleet, rows: &[(u32, &[u32])]) {
    for (place, minions) in rows {
        let found = fleet.minions(alloc, NodeId::new(*place)).expect(rt, FAILED);
        are(rt, found.as_slice(), minions);
    }
}

static PAIR_MINIONS: [(u32, &[u32]); 4] = [(0, &[1, 2]), (1, &[1]), (2, &[2]), (3, &[])];

static TREE_MINIONS: [(u32, &[u32]); 7] = [
    (0, &[2, 4, 5]),
    (1, &[2, 4]),
    (2, &[2]),
    (3, &[4]),
    (4, &[4]),
    (5, &[5]),
    (6, &[]),
];

#[test]
fn minions_at_or_below_a_node(rt: HostRuntime) {
    has_minions(&rt, rt.alloc(), &pair(&rt, rt.alloc()), &PAIR_MINIONS);
    has_minions(
        &rt,
        rt.alloc(),
        &grown(&rt, rt.alloc(), &TREE),
        &TREE_MINIONS,
    );
}

fn are_ids(rt: &impl Abort, found: &[MinionId], wanted: &[&str]) {
    assert_eq!(rt; found.len(), wanted.len());
    for (id, text) in found.iter().zip(wanted.iter()) {
        assert_eq!(rt; id.as_str(), *text);
    }
}

fn has_ids(rt: &impl Abort, alloc: Global, fleet: &Fleet, rows: &[(u32, &[&str])]) {
    for (place, wanted) in rows {
        let ids = fleet
            .ids_below(alloc, NodeId::new(*place))
            .expect(rt, FAILED);
        are_ids(rt, ids.as_slice(), wanted);
    }
}

static TREE_IDS: [(u32, &[&str]); 4] = [
    (0, &["m1", "m2", "m3"]),
    (1, &["m1", "m2"]),
    (4, &["m2"]),
    (6, &[]),
];

#[test]
fn ids_of_the_minions_at_or_below_a_node(rt: HostRuntime) {
    has_ids(&rt, rt.alloc(), &grown(&rt, rt.alloc(), &TREE), &TREE_IDS);
}
