//! Places and ids of nodes.
ghost use Rattle.std.specs.Prelude.{◌≡◌, ◌≤◌, ◌-◌, ◌++◌, length, not, position, replicate, refl, nat_eq, Some, IsOk, IfOk, IfErr};
ghost use Rattle.std.proofs.Common.{rules};
ghost use Rattle.std.specs.Str.{bytes_eq};
ghost use Rattle.std.specs.Ordering.{nat_cmp};
ghost use Rattle.std.specs.Cmp.{partial_equiv_from_equiv};
ghost use Rattle.std.specs.Cmp.Rules.{hashing};
ghost use Rattle.std.specs.Cmp.Lexicographic.{slice_cmp, nat_list_eq_equiv, nat_list_cmp_total, texts_ties, texts_po};
ghost use Rattle.std.specs.Hash as fed;
ghost use Rattle.salt_value.specs.Id as spec;
ghost use Rattle.salt_value.specs.Limits.{most_id_bytes};

use crate::limits::MOST_ID_BYTES;
use std::cmp::Ordering;
use std::fmt;
use std::hash::{Hash, Hasher};
use std::marker::Model;
use thiserror::Error;

/// A node's place in the list of its fleet, from 0, which is the top's. Contracts see the number.
#[derive(Clone, Copy, Debug, PartialEq, Eq, Hash, PartialOrd, Ord)]
pub struct NodeId {
    place: u32,
}

impl Model for NodeId {
    ghost use Rattle.std.specs.Prelude.{ℕ};
    ghost use Rattle.std.specs.Coded.{coded_ℕ};

    ghost Value = { ℕ };

    ghost coded = { coded_ℕ };

    ghost view = { λ n. n.place };

    ghost inverse = { λ n. record { place = n } };
}

impl NodeId {
    /// The top of every fleet.
    pub const TOP: NodeId = NodeId { place: 0 };

    /// The node at this place.
    pub fn new(place: u32) -> NodeId
        ensures { result ≡ place }
    {
        NodeId { place }
    }

    /// The place, from 0.
    pub fn place(self) -> u32
        ensures { result ≡ self }
    {
        self.place
    }

    /// The place as an index of a list with an item for each node.
    pub fn index(self) -> usize
        ensures { result ≡ self }
    {
        self.place as usize
    }
}

/// The id of a node: 1 to 64 bytes, each a letter, a digit, `.`, `_` or `-`. The limit is this project's own.
/// Its bytes stand inline, so that it takes no memory. Contracts see its bytes.
#[derive(Clone, Copy)]
pub struct MinionId {
    bytes: [u8; MOST_ID_BYTES],
    len: u8,
}

impl Model for MinionId {
    ghost use Rattle.std.specs.Prelude.{ℕ, List};
    ghost use Rattle.std.specs.Coded.{coded_list, coded_ℕ};

    ghost Value = { List ℕ };

    ghost coded = { coded_list coded_ℕ };

    ghost use Rattle.salt_value.specs.IdFields.{bytes_of, IsKept, fields_of};
    ghost use Rattle.salt_value.specs.IdLaws.{back};

    ghost view = { bytes_of };

    ghost invariant = { IsKept };

    ghost inverse = { fields_of };

    ghost inverse_ok = { back };
}

/// A list of ids, which contracts see as that list.
pub type Ids = sqlite_items::Items<MinionId>;

/// Why a text is no id, the first in this order.
#[derive(Clone, Copy, Debug, Error, PartialEq, Eq)]
pub enum IdFault {
    #[error("the id is empty")]
    Empty,
    #[error("the id has {length} bytes, more than 64")]
    TooLong { length: usize },
    #[error("byte {at} is in no id")]
    BadByte { at: usize },
}

fn is_id_byte(b: u8) -> bool
    ensures { result ≡ spec.is_id_byte b }
{
    b.is_ascii_uppercase()
        || b.is_ascii_lowercase()
        || b.is_ascii_digit()
        || matches!(b, b'.' | b'_' | b'-')
}

// The place of the first byte that is in no id.
fn first_bad(text: &[u8]) -> Option<usize>
    ensures { result ≡ position (λ b. not (spec.is_id_byte b)) text.now }
{
    text.iter().position(|b| !is_id_byte(*b))
}

// The bytes, and zeros after them.
#[tactic(auto, using(crate::proofs::Places::padded_step))]
fn padded(text: &[u8]) -> [u8; MOST_ID_BYTES]
    requires { length text.now ≤ most_id_bytes }
    ensures { result ≡ text.now ++ replicate (most_id_bytes - length text.now) 0 }
{
    let mut bytes = [0; MOST_ID_BYTES];
    for (i, b) in text.iter().enumerate() {
        bytes[i] = *b;
    }
    bytes
}

impl MinionId {
    ghost use Rattle.salt_value.specs.Id.{IsId, HasFault};

    /// The id that these bytes are.
    #[tactic(auto, using(crate::proofs::Places::all_from_none, crate::proofs::Places::none_from_all))]
    pub fn from_bytes(text: &[u8]) -> Result<MinionId, IdFault>
        ensures ok { IfOk result (λ id. (id ≡ text.now) × IsId text.now) }
        ensures fault { IfErr result (HasFault text.now) }
        ensures complete { IsId text.now → IsOk result }
    {
        if text.is_empty() {
            return Err(IdFault::Empty);
        }
        if text.len() > MOST_ID_BYTES {
            return Err(IdFault::TooLong { length: text.len() });
        }
        match first_bad(text) {
            Some(at) => Err(IdFault::BadByte { at }),
            None => Ok(MinionId {
                bytes: padded(text),
                len: text.len() as u8,
            }),
        }
    }

    /// The id that has this text.
    pub fn read(text: &str) -> Result<MinionId, IdFault>
        ensures ok { IfOk result (λ id. (id ≡ text.now) × IsId text.now) }
        ensures fault { IfErr result (HasFault text.now) }
        ensures complete { IsId text.now → IsOk result }
    {
        MinionId::from_bytes(text.as_bytes())
    }

    pub fn as_bytes(&self) -> &[u8]
        ensures value { result.now ≡ self.now }
        ensures valid { IsId self.now }
    {
        &self.bytes[..self.len as usize]
    }

    pub fn as_str(&self) -> &str
        ensures value { result.now ≡ self.now }
        ensures valid { IsId self.now }
    {
        match std::str::from_utf8(self.as_bytes()) {
            Ok(text) => text,
            Err(_) => unreachable!(),
        }
    }
}

impl PartialEq for MinionId {
    ghost eq = { bytes_eq };

    ghost laws = { partial_equiv_from_equiv nat_list_eq_equiv };

    fn eq(&self, other: &MinionId) -> bool {
        self.as_bytes() == other.as_bytes()
    }
}

impl Eq for MinionId {
    ghost laws = { nat_list_eq_equiv };
}

impl PartialOrd for MinionId {
    ghost partial_cmp = { λ x y. Some (slice_cmp nat_cmp x y) };

    ghost laws = { texts_po };

    fn partial_cmp(&self, other: &MinionId) -> Option<Ordering> {
        Some(self.cmp(other))
    }
}

/// Ids are ordered by their bytes.
impl Ord for MinionId {
    ghost cmp = { slice_cmp nat_cmp };

    ghost total = { nat_list_cmp_total };

    ghost matches_partial_cmp = { λ x y. refl };

    ghost matches_eq = { texts_ties };

    fn cmp(&self, other: &MinionId) -> Ordering {
        self.as_bytes().cmp(other.as_bytes())
    }
}

impl Hash for MinionId {
    ghost hash_input = { fed.str };

    ghost respects_eq = { Prim.search (hashing, rules) };

    fn hash<H: Hasher>(&self, state: &mut H) {
        state.write(self.as_bytes());
        state.write_u8(0xff);
    }
}

impl fmt::Debug for MinionId {
    fn fmt<W: fmt::Write>(&self, f: &mut fmt::Formatter<W>) -> fmt::Result {
        f.write_str(self.as_str())
    }
}

impl fmt::Display for MinionId {
    ghost output = { λ id. Some id };

    fn fmt<W: fmt::Write>(&self, f: &mut fmt::Formatter<W>) -> fmt::Result {
        f.write_str(self.as_str())
    }
}
