//! Events, outcomes and rows.
use salt_value::{Event, MinionId, Outcome, Row, Rows, Value, Word};
use std::alloc::Global;
use std::process::Abort;

fn seven() -> Outcome {
    Outcome {
        retcode: 2,
        value: Value::Int(7),
    }
}

fn one_row(rt: &impl Abort, alloc: Global) -> Rows {
    let mut rows = Rows::new(alloc);
    let id = MinionId::read("m1").expect(rt, "an id");
    let outcome = seven().copy(alloc).expect(rt, "memory");
    rows.push(Row { id, outcome }).expect(rt, "memory");
    rows
}

fn number_of(value: &Value) -> Option<i64> {
    match value {
        Value::Int(number) => Some(*number),
        _ => None,
    }
}

fn is_one_row(rt: &impl Abort, rows: &Rows) {
    assert_eq!(rt; rows.as_slice().len(), 1);
    for row in rows.as_slice() {
        assert_eq!(rt; row.id.as_str(), "m1");
        assert_eq!(rt; row.outcome.retcode, 2);
        assert_eq!(rt; number_of(&row.outcome.value), Some(7));
    }
}

fn is_event(rt: &impl Abort, event: &Event, tag: &str, number: i64) {
    assert_eq!(rt; event.tag.as_str(), tag);
    assert_eq!(rt; number_of(&event.body), Some(number));
}

#[test]
fn outcomes_are_copied(rt: HostRuntime) {
    let rows = one_row(&rt, rt.alloc());
    is_one_row(&rt, &rows);
}

#[test]
fn events_are_copied(rt: HostRuntime) {
    let tag = Word::read(rt.alloc(), "salt/beacon").expect(&rt, "a word");
    let body = Value::Int(3);
    let copy = Event { tag, body }.copy(rt.alloc()).expect(&rt, "memory");
    is_event(&rt, &copy, "salt/beacon", 3);
}
