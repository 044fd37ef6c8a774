//! The laws are clauses: a call shows that it can be made.
use salt_glob::globs_go_by_the_front;
use target_tree::trees_are_read;

#[test]
fn laws_are_called() {
    globs_go_by_the_front();
    trees_are_read();
}
