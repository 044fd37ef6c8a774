//! The laws are clauses: a call shows that it can be made.
use tree_laws::whole_runs;

#[test]
fn the_laws_are_called() {
    whole_runs();
}
