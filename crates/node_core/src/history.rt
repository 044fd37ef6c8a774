//! The records of a node, as proofs alone read them.
ghost use Rattle.std.specs.Prelude.{◌≡◌, ◌++◌, ◌∷◌, []};

use http_server::Log;
use salt_wire::Deed;
use std::marker::Model;

/// The records of a node in the order in which they were made. Proofs alone read it: it takes no memory, and its methods do nothing at run
/// time.
#[derive(Drop)]
pub struct History {
    deeds: Log<Deed, ()>,
}

impl Model for History {
    ghost use Rattle.std.specs.Prelude.{List};
    ghost use Rattle.node_core.specs.History.{first_parts};
    ghost use Rattle.salt_wire.specs.declared.deed.Deed.{Deed};
    ghost use Rattle.salt_value.specs.contracts.value.Value as value;
    ghost use Rattle.target_tree.specs.contracts.target.Target as target;
    ghost use Rattle.std.specs.Coded.{codes};

    ghost Value = { List Deed };

    ghost coded = { Prim.hlevel (codes, value.the_row.coded, target.the_row.coded) };

    ghost view = { λ h. first_parts h.deeds.items };
}

impl History {
    /// No record.
    pub fn new() -> History
        ensures value { result ≡ [] }
    {
        History { deeds: Log::new() }
    }

    /// The records with this one more at their end.
    pub fn and(&self, deed: &Deed) -> History
        ensures value { result ≡ self.now ++ deed.now ∷ [] }
    {
        History {
            deeds: self.deeds.and(deed, &()),
        }
    }
}
