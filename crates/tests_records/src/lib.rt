//! Tests of which records a node may add next, and of nodes over their disks, by the public calls of node_core and journalled_node alone.
#![tactic(auto)]

#[cfg(test)]
mod journals;
#[cfg(test)]
mod made;
#[cfg(test)]
mod records;
