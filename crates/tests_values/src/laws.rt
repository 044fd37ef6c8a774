//! The laws are clauses: a call shows that it can be made.
use salt_value::{numbers_read_back, prefix_free, texts_read_back, values_read_back};

#[test]
fn laws_are_called() {
    numbers_read_back::<u8>();
    texts_read_back::<u8>();
    values_read_back();
    prefix_free();
}
