//! A fleet, and the calls on it.
ghost use Rattle.std.specs.Prelude.{◌≡◌, ◌∷◌, [], ◌++◌, ◌<◌, ◌≤◌, ◌^◌, cond, All, Some, None, length, map, position, IfOk, IfErr, IfSome, OnOk, OnErr, Err, ◌↔◌, IsTrue, if◌then◌else◌};
ghost use Rattle.fleet_config.specs.Places.{HasPlaces, HasOneMore, FindAlike};
ghost use Rattle.std.specs.List.{IsDistinct};
ghost use Rattle.std.specs.Str.{bytes_eq};
ghost use Rattle.fleet_config.specs.Limits.{most_minions, most_nodes};
ghost use Rattle.exec_functions.specs.Limits.{AreWithin};
ghost use Rattle.target_tree.specs.Nodegroups.{is_named};
ghost use Rattle.target_tree.specs.declared.groups.GroupFault.TheVariants as GroupFault;
ghost use Rattle.fleet_config.specs.Tree as tree;
ghost use Rattle.fleet_config.specs.Growth as growth;
ghost use Rattle.fleet_config.specs.Causes as causes;
ghost use Rattle.indexmap.specs.IndexMap.{get};

use crate::{FleetNode, NodeFault};
use exec_functions::Holdings;
use indexmap::IndexMap;
use salt_value::{Ids, MinionId, NodeId, Text};
use std::alloc::{AllocError, Global};
use std::marker::Model;
use target_tree::{GroupFault, Groups};

/// The greatest number of minions of a fleet. The limits are this project's own.
pub const MOST_MINIONS: u32 = 4096;

/// The greatest number of syndics of a fleet.
pub const MOST_SYNDICS: u32 = 256;

/// The greatest number of levels of a fleet, of which the top is the first.
pub const MOST_LEVELS: u32 = 8;

/// The greatest number of jobs that a fleet may say that its top holds.
pub const MOST_JOBS: u32 = 65_535;

/// What a node of a fleet is.
#[derive(Clone, Copy, Debug, PartialEq, Eq)]
pub enum Role {
    /// The first node of the list, and no other.
    Top,
    /// A master between two masters, or between a master and its minions.
    Syndic,
    /// A node that runs jobs.
    Minion,
}

/// The bytes of the shortest part of a journal that a fleet may set as its limit.
pub const LEAST_JOURNAL_LIMIT: u64 = 64;

/// The bytes of the longest one.
pub const MOST_JOURNAL_LIMIT: u64 = 1_073_741_824;

/// One node of a fleet. The parent of the top is the top itself.
#[derive(Drop)]
pub struct Member {
    pub id: MinionId,
    pub role: Role,
    pub parent: NodeId,
    /// Where a master listens; 0 where nothing is said of it.
    pub port: u16,
    /// What a minion holds at first.
    pub held: Holdings,
}

/// A fleet: a top, and syndics and minions with distinct ids, each under a master that stands before it in the list; at first no node
/// at all. Beside them the nodegroups, the greatest number of jobs that the top holds, and the bytes of the longest part of a journal.
#[derive(Drop)]
pub struct Fleet {
    members: Vec<Member>,
    places: IndexMap<MinionId, NodeId>,
    minions: u32,
    syndics: u32,
    groups: Groups,
    max_jobs: u32,
    journal_limit: u64,
}

impl Model for Fleet {
    ghost use Rattle.fleet_config.specs.Fleet.{FleetConfig};

    ghost Value = { FleetConfig };

    ghost use Rattle.fleet_config.specs.Places.{IsIndexed};
    ghost use Rattle.fleet_config.specs.Fleet.{AreLimits};
    ghost use Rattle.salt_value.specs.contracts.value.Value as value;
    ghost use Rattle.std.specs.Coded.{codes};

    ghost coded = { Prim.hlevel (codes, value.the_row.coded) };

    ghost view = { λ f. record { tree = f.members.items; groups = f.groups; max_jobs = f.max_jobs; journal_limit = f.journal_limit } };

    ghost invariant = { λ f. IsIndexed f.members.items f.places f.minions f.syndics × AreLimits f.max_jobs f.journal_limit };
}

impl Fleet {
    ghost use Rattle.std.specs.Prelude.{◌==◌};
    ghost use Rattle.fleet_config.specs.Tree.{member};
    ghost use Rattle.fleet_config.specs.Fleet.{IsFleet, AreLimits, with_limits, with_group, fleet_with, flat_fleet};
    ghost use Rattle.fleet_config.specs.Growth.{with_node, node_fault, IsNodeFault};

    /// A fleet without a node or a nodegroup, whose top may hold 65,535 jobs and whose journals' parts may have 1,073,741,824 bytes.
    pub fn new(alloc: Global) -> Fleet
        ensures value { result ≡ fleet_with [] }
    {
        Fleet {
            members: Vec::new(alloc),
            places: IndexMap::new(alloc),
            minions: 0,
            syndics: 0,
            groups: Groups::new(alloc),
            max_jobs: MOST_JOBS,
            journal_limit: MOST_JOURNAL_LIMIT,
        }
    }

    /// A top with these minions under it, which hold nothing at first. At most 4,096 minions, and no id twice.
    pub fn flat(alloc: Global, top: MinionId, minions: Ids) -> Result<Fleet, AllocError>
        requires distinct { IsDistinct bytes_eq (top ∷ minions) }
        requires few { length minions ≤ most_minions }
        ensures ok { IfOk result (λ fleet. fleet ≡ flat_fleet top minions) }
    {
        let members = flat_members(alloc, top, minions.as_slice())?;
        let places = index(alloc, members.as_slice())?;
        Ok(Fleet {
            members,
            places,
            minions: minions.len() as u32,
            syndics: 0,
            groups: Groups::new(alloc),
            max_jobs: MOST_JOBS,
            journal_limit: MOST_JOURNAL_LIMIT,
        })
    }

    /// Adds a node, and answers its place, the last one. The first node is the top, and each other one stands under a master that is
    /// there: a fleet has at most 4,096 minions and 256 syndics, on at most 8 levels, and what a node holds is within the limits of a
    /// value. After an error the fleet is as before.
    pub fn add(&mut self, node: FleetNode) -> Result<NodeId, NodeFault>
        ensures ok { IfOk result (λ place. place ≡ length self.old.tree) }
        ensures fleet { OnOk result (self.new ≡ with_node node self.old) }
        ensures err { OnErr result (self.new ≡ self.old) }
        ensures fault { IfErr result (IsNodeFault self.old.tree node) }
        ensures complete { OnOk result (node_fault self.old.tree node ≡ None) }
    {
        if let Some(fault) = self.fault_of(&node) {
            return Err(fault);
        }
        let place = NodeId::new(self.count());
        let role = node.role;
        push_node(&mut self.members, &mut self.places, member_of(node), place)?;
        self.minions += one_where(runs_jobs(role));
        self.syndics += one_where(is_syndic(role));
        Ok(place)
    }

    /// Sets how many jobs the top holds at most, 1 to 65,535, and how many bytes a part of a journal has at most, 64 to 1,073,741,824.
    pub fn limits(&mut self, max_jobs: u32, journal_limit: u64)
        requires { AreLimits max_jobs journal_limit }
        ensures value { self.new ≡ with_limits max_jobs journal_limit self.old }
    {
        self.max_jobs = max_jobs;
        self.journal_limit = journal_limit;
    }

    /// Adds a nodegroup after the others, whose text is read where a target names it. `Twice` comes exactly where the name is there.
    /// After an error the fleet is as before.
    pub fn add_group(&mut self, name: MinionId, text: Text) -> Result<(), GroupFault>
        ensures groups { OnOk result (self.new ≡ with_group name text self.old) }
        ensures err { OnErr result (self.new ≡ self.old) }
        ensures twice { (result ≡ Err GroupFault.Twice) ↔ IsTrue (is_named self.old.groups name) }
    {
        self.groups.add(name, text)
    }

    /// The nodegroups.
    pub fn groups(&self) -> &Groups
        ensures value { result.now ≡ self.now.groups }
    {
        &self.groups
    }

    /// The greatest number of jobs that the top holds.
    pub fn max_jobs(&self) -> u32
        ensures value { result ≡ self.now.max_jobs }
        ensures limits { AreLimits self.now.max_jobs self.now.journal_limit }
    {
        self.max_jobs
    }

    /// How many bytes a part of a journal has at most.
    pub fn journal_limit(&self) -> u64
        ensures value { result ≡ self.now.journal_limit }
        ensures limits { AreLimits self.now.max_jobs self.now.journal_limit }
    {
        self.journal_limit
    }

    /// The number of nodes. A fleet with a node is a tree.
    #[tactic(auto, using(crate::proofs::Trees::few_nodes))]
    pub fn count(&self) -> u32
        ensures value { result ≡ length self.now.tree }
        ensures few { length self.now.tree ≤ most_nodes }
        ensures fleet { 0 < length self.now.tree → IsFleet self.now }
    {
        self.members.len() as u32
    }

    /// The node with this id.
    pub fn find(&self, id: &MinionId) -> Option<NodeId>
        ensures value { result ≡ position (λ m. bytes_eq m.id id.now) self.now.tree }
        ensures within { IfSome result (λ n. n < length self.now.tree) }
    {
        match self.places.get(id) {
            Some(place) => Some(*place),
            None => None,
        }
    }

    /// The id of a node of this fleet.
    pub fn id(&self, node: NodeId) -> MinionId
        requires within { node < length self.now.tree }
        ensures value { result ≡ tree.id_of self.now.tree node }
    {
        self.members[node.index()].id
    }

    /// What a node of this fleet is.
    pub fn role(&self, node: NodeId) -> Role
        requires within { node < length self.now.tree }
        ensures value { result ≡ (member self.now.tree node).role }
    {
        self.members[node.index()].role
    }

    /// Where a node of this fleet listens, 0 where nothing was said of it.
    pub fn port(&self, node: NodeId) -> u16
        requires within { node < length self.now.tree }
        ensures value { result ≡ (member self.now.tree node).port }
    {
        self.members[node.index()].port
    }

    /// What a node of this fleet holds at first, each part within the limits of a value.
    pub fn held(&self, node: NodeId) -> &Holdings
        requires within { node < length self.now.tree }
        ensures value { result.now ≡ tree.held_of self.now.tree node }
        ensures fits { AreWithin result.now }
    {
        &self.members[node.index()].held
    }

    /// The bytes of a node's id, none past the end.
    pub fn id_bytes(&self, node: NodeId) -> &[u8]
        ensures value { result.now ≡ tree.id_of self.now.tree node }
    {
        if node.index() < self.members.len() {
            self.members[node.index()].id.as_bytes()
        } else {
            &[]
        }
    }

    /// The parent of a node of this fleet. That of the top is the top.
    #[tactic(auto, using(crate::proofs::Trees::parent_within))]
    pub fn parent(&self, node: NodeId) -> NodeId
        requires within { node < length self.now.tree }
        ensures value { result ≡ tree.parent_of self.now.tree node }
        ensures within { result < length self.now.tree }
    {
        self.members[node.index()].parent
    }

    /// Is the node a minion? No node past the end is one.
    pub fn is_minion(&self, node: NodeId) -> bool
        ensures value { result ≡ tree.is_minion self.now.tree node }
    {
        if node.index() < self.members.len() {
            runs_jobs(self.members[node.index()].role)
        } else {
            false
        }
    }

    /// Is one node the parent of the other?
    pub fn is_parent(&self, node: NodeId, child: NodeId) -> bool
        ensures value { result ≡ tree.is_parent self.now.tree node child }
    {
        0 < child.place()
            && child.place() < self.count()
            && self.parent(child).place() == node.place()
    }

    /// The child of a node through which another node lies, or the top where that one doesn't lie below it.
    #[tactic(auto, using(crate::proofs::Walk::walk_on, crate::proofs::Walk::walk_here, crate::proofs::Walk::walk_top, crate::proofs::Walk::walk_end))]
    pub fn branch(&self, node: NodeId, other: NodeId) -> NodeId
        requires within { other < length self.now.tree }
        ensures value { result ≡ tree.branch self.now.tree node other }
    {
        let mut at = other;
        for step in 0..other.place() {
            if at.place() == 0 {
                return NodeId::TOP;
            }
            let parent = self.parent(at);
            if parent.place() == node.place() {
                return at;
            }
            at = parent;
        }
        NodeId::TOP
    }

    /// Is the other node this one, or below it?
    pub fn is_within(&self, node: NodeId, other: NodeId) -> bool
        requires within { other < length self.now.tree }
        ensures value { result ≡ tree.is_within self.now.tree node other }
    {
        node.place() == other.place() || 0 < self.branch(node, other).place()
    }

    /// The minions at or below a node, in list order.
    #[tactic(auto, using(crate::proofs::Owns::own_minions, crate::proofs::Owns::minion_within, crate::proofs::Owns::filter_more))]
    pub fn minions(&self, alloc: Global, node: NodeId) -> Result<Vec<NodeId>, AllocError>
        ensures ok { IfOk result (λ found. found.items ≡ tree.minions self.now.tree node) }
        ensures within { IfOk result (λ found. All (λ m. m < length self.now.tree) found.items) }
    {
        let _ = &self.members;
        let mut found = Vec::new(alloc);
        if self.is_minion(node) {
            found.push(node)?;
            return Ok(found);
        }
        for other in 0..self.count() {
            let other = NodeId::new(other);
            let is_here = self.is_minion(other) && self.is_within(node, other);
            push_where(is_here, other, &mut found)?;
        }
        Ok(found)
    }

    /// The ids of the minions at or below a node, in list order. No id comes twice, and there are fewer than 4,294,967,296.
    #[tactic(auto, using(crate::proofs::Ids::distinct_ids, crate::proofs::Ids::few_ids))]
    pub fn ids_below(&self, alloc: Global, node: NodeId) -> Result<Ids, AllocError>
        ensures ok { IfOk result (λ ids. ids ≡ tree.ids_below self.now.tree node) }
        ensures distinct { IsDistinct bytes_eq (tree.ids_below self.now.tree node) }
        ensures few { length (tree.ids_below self.now.tree node) < 2 ^ 32 }
    {
        let _ = &self.members;
        let minions = self.minions(alloc, node)?;
        let mut ids = Ids::new(alloc);
        for minion in &minions {
            ids.push(self.id(*minion))?;
        }
        Ok(ids)
    }

    // Why a node is not added, if it is not.
    fn fault_of(&self, node: &FleetNode) -> Option<NodeFault>
        ensures value { result ≡ node_fault self.now.tree node.now }
    {
        let is_some = 0 < self.count();
        first_cause(&[
            (is_top(node.role) || is_some, NodeFault::NoTop),
            (!(is_top(node.role) && is_some), NodeFault::TwoTops),
            (self.find(&node.id).is_none(), NodeFault::TwiceId),
            (self.is_placed(node.role, node.parent), NodeFault::NoParent),
            (self.has_room(node.role), NodeFault::TooMany),
            (self.has_level(node.parent), NodeFault::TooDeep),
            (node.held.fits(), NodeFault::TooLarge),
        ])
    }

    // A top has no parent, and every other node has a master that is there.
    fn is_placed(&self, role: Role, parent: Option<NodeId>) -> bool
        ensures value { result ≡ growth.is_placed self.now.tree role parent }
    {
        if is_top(role) {
            parent.is_none()
        } else {
            self.is_master_there(parent)
        }
    }

    // Is it a master that is there?
    fn is_master_there(&self, parent: Option<NodeId>) -> bool
        ensures value { result ≡ growth.is_master_there self.now.tree parent }
    {
        match parent {
            Some(node) => node.place() < self.count() && !self.is_minion(node),
            None => false,
        }
    }

    // Is there room for one more of this role?
    fn has_room(&self, role: Role) -> bool
        ensures value { result ≡ growth.has_room self.now.tree role }
    {
        match role {
            Role::Top => true,
            Role::Syndic => self.syndics < MOST_SYNDICS,
            Role::Minion => self.minions < MOST_MINIONS,
        }
    }

    // Is there a level for a node with this parent?
    fn has_level(&self, parent: Option<NodeId>) -> bool
        ensures value { result ≡ growth.has_level self.now.tree parent }
    {
        match parent {
            Some(node) => self.level(node) < MOST_LEVELS as u64,
            None => true,
        }
    }

    // The level of a node, 1 of the top.
    fn level(&self, node: NodeId) -> u64
        ensures value { result ≡ tree.level self.now.tree node }
    {
        let mut at = node;
        let mut level: u64 = 1;
        for step in 0..node.place() {
            if at.place() == 0 {
                return level;
            }
            at = self.parent_or_top(at);
            level += 1;
        }
        level
    }

    // The parent of a node, the top past the end.
    fn parent_or_top(&self, node: NodeId) -> NodeId
        ensures value { result ≡ tree.parent_of self.now.tree node }
    {
        if node.index() < self.members.len() {
            self.members[node.index()].parent
        } else {
            NodeId::TOP
        }
    }
}

// The cause of the first test that does not hold.
fn first_cause(tests: &[(bool, NodeFault)]) -> Option<NodeFault>
    ensures value { result ≡ causes.first_cause tests.now }
{
    for (holds, cause) in tests {
        if !*holds {
            return Some(*cause);
        }
    }
    None
}

fn is_top(role: Role) -> bool
    ensures value { result ≡ tree.is_top role }
{
    matches!(role, Role::Top)
}

fn is_syndic(role: Role) -> bool
    ensures value { result ≡ tree.is_syndic role }
{
    matches!(role, Role::Syndic)
}

// The node as a fleet has it: the parent of the top is the top.
fn member_of(node: FleetNode) -> Member
    ensures value { result ≡ growth.member_of node }
{
    Member {
        id: node.id,
        role: node.role,
        parent: node.parent.unwrap_or(NodeId::TOP),
        port: node.port,
        held: node.held,
    }
}

// A node right under the top, or the top itself, without a port, which holds nothing.
fn plain_member(alloc: Global, role: Role, id: MinionId) -> Member
    ensures value { result ≡ tree.plain_member role id }
    ensures fits { AreWithin result.held }
{
    Member {
        id,
        role,
        parent: NodeId::TOP,
        port: 0,
        held: Holdings::none(alloc),
    }
}

fn one_where(holds: bool) -> u32
    ensures value { result ≡ (if holds then 1 else 0) }
{
    if holds { 1 } else { 0 }
}

// A node and its place more, or neither.
fn push_node(
    members: &mut Vec<Member>,
    places: &mut IndexMap<MinionId, NodeId>,
    member: Member,
    place: NodeId,
) -> Result<(), AllocError>
    ensures members { OnOk result (members.new.items ≡ members.old.items ++ member ∷ []) }
    ensures places { OnOk result (HasOneMore places.old places.new member.id place) }
    ensures err_members { OnErr result (members.new.items ≡ members.old.items) }
    ensures err_places { OnErr result (FindAlike places.old places.new) }
{
    let count = members.len();
    let id = member.id;
    members.push(member)?;
    match places.insert(id, place) {
        Ok(_) => Ok(()),
        Err(_) => {
            members.truncate(count);
            Err(AllocError)
        }
    }
}

// A minion runs jobs, and every other node is a master.
fn runs_jobs(role: Role) -> bool
    ensures value { result ≡ tree.runs_jobs role }
{
    match role {
        Role::Minion => true,
        Role::Top | Role::Syndic => false,
    }
}

// A node more, where this holds.
fn push_where(holds: bool, node: NodeId, nodes: &mut Vec<NodeId>) -> Result<(), AllocError>
    ensures ok { OnOk result (nodes.new.items ≡ nodes.old.items ++ cond holds (node ∷ []) []) }
{
    if holds {
        nodes.push(node)?;
    }
    Ok(())
}

fn flat_members(
    alloc: Global,
    top: MinionId,
    minions: &[MinionId],
) -> Result<Vec<Member>, AllocError>
    ensures ok { IfOk result (λ members. members.items ≡ tree.flat_tree top minions.now) }
{
    let mut members = Vec::new(alloc);
    members.push(plain_member(alloc, Role::Top, top))?;
    for id in minions {
        members.push(plain_member(alloc, Role::Minion, *id))?;
    }
    Ok(members)
}

// The place of each id.
fn index(alloc: Global, members: &[Member]) -> Result<IndexMap<MinionId, NodeId>, AllocError>
    requires few { length members.now ≤ most_nodes }
    requires distinct { IsDistinct bytes_eq (map (λ m. m.id) members.now) }
    ensures ok { IfOk result (λ places. HasPlaces members.now places) }
{
    let mut places = IndexMap::new(alloc);
    for (i, member) in members.iter().enumerate() {
        match places.insert(member.id, NodeId::new(i as u32)) {
            Ok(_) => {}
            Err(_) => return Err(AllocError),
        }
    }
    Ok(places)
}
