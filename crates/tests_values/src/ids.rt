//! Places, ids, words and job ids.
ghost use Rattle.std.specs.Prelude.{◌≡◌, OnOk, OnErr};
ghost use Rattle.std.specs.Str.{bytes_eq};
ghost use Rattle.indexmap.specs.IndexMap.{get, insert_entry};

use indexmap::IndexMap;
use salt_value::{Ids, Jid, JidEnd, MinionId, NodeId, Word};
use std::alloc::{AllocFailed, Global};
use std::cmp::Ordering;
use std::process::Abort;

// A table with ids as keys is told by their bytes.
fn note(
    table: &mut IndexMap<MinionId, u32>,
    id: MinionId,
    place: u32,
) -> Result<(), AllocFailed<(MinionId, u32)>>
    ensures ok { OnOk result (table.new.entries ≡ insert_entry bytes_eq table.old.entries id place) }
    ensures err { OnErr result (table.new.entries ≡ table.old.entries) }
{
    table.insert(id, place)?;
    Ok(())
}

fn place_of(table: &IndexMap<MinionId, u32>, id: &MinionId) -> Option<u32>
    ensures { result ≡ get bytes_eq table.now id.now }
{
    table.get(id).copied()
}

fn place_under(table: &IndexMap<MinionId, u32>, text: &str) -> Option<u32> {
    let id = MinionId::read(text).ok()?;
    place_of(table, &id)
}

fn order(first: &str, second: &str) -> Option<Ordering> {
    let first = MinionId::read(first).ok()?;
    let second = MinionId::read(second).ok()?;
    Some(first.cmp(&second))
}

// Do an id's text and bytes give the same id again?
fn is_again(text: &str) -> bool {
    match MinionId::read(text) {
        Ok(id) => id.as_str() == text && MinionId::from_bytes(id.as_bytes()) == Ok(id),
        Err(_) => false,
    }
}

fn next(last: u64, moment: u64) -> Option<u64> {
    let last = Jid::next(None, last).ok()?;
    let next = Jid::next(Some(last), moment).ok()?;
    Some(next.micros())
}

fn has_text(micros: u64, text: &str) -> bool {
    match Jid::next(None, micros) {
        Ok(jid) => {
            jid.text().as_slice() == text.as_bytes()
                && Jid::read(text.as_bytes()) == Some(jid)
                && jid.micros() == micros
        }
        Err(JidEnd) => false,
    }
}

fn are_places(table: &IndexMap<MinionId, u32>, rt: &impl Abort, rows: &[(&str, Option<u32>)]) {
    for (text, place) in rows {
        assert_eq!(rt; place_under(table, text), *place, "at {text}");
    }
}

fn two_places(rt: &impl Abort, alloc: Global) -> IndexMap<MinionId, u32> {
    let mut table = IndexMap::new(alloc);
    let first = MinionId::read("m1").expect(rt, "an id");
    let second = MinionId::read("m2").expect(rt, "an id");
    note(&mut table, first, 1).expect(rt, "memory");
    note(&mut table, second, 2).expect(rt, "memory");
    table
}

fn two_ids(rt: &impl Abort, alloc: Global) -> Ids {
    let mut ids = Ids::new(alloc);
    ids.push(MinionId::read("m1").expect(rt, "an id"))
        .expect(rt, "memory");
    ids.push(MinionId::read("m2").expect(rt, "an id"))
        .expect(rt, "memory");
    ids
}

fn has_word(rt: &impl Abort, word: &Word, text: &str) {
    assert_eq!(rt; word.as_str(), text);
    assert_eq!(rt; word.as_bytes(), text.as_bytes());
}

#[test]
fn places_are_numbers(rt: HostRuntime) {
    for (place, index) in [(0, 0), (1, 1), (u32::MAX, 4_294_967_295)] {
        assert_eq!(rt; NodeId::new(place).place(), place);
        assert_eq!(rt; NodeId::new(place).index(), index);
    }
    assert_eq!(rt; NodeId::TOP, NodeId::new(0));
}

#[test]
fn ids_are_read_again(rt: HostRuntime) {
    for text in ["a", "web-01.example_net", "Z9"] {
        assert!(rt; is_again(text), "at {text}");
    }
}

#[test]
fn ids_are_ordered_by_bytes(rt: HostRuntime) {
    for (first, second, wanted) in [
        ("m1", "m1", Ordering::Equal),
        ("m1", "m10", Ordering::Less),
        ("m2", "m10", Ordering::Greater),
        ("Z", "a", Ordering::Less),
        ("a", "a-", Ordering::Less),
    ] {
        assert_eq!(rt; order(first, second), Some(wanted), "at {first}");
    }
}

#[test]
fn ids_are_looked_up(rt: HostRuntime) {
    let table = two_places(&rt, rt.alloc());
    are_places(
        &table,
        &rt,
        &[("m1", Some(1)), ("m2", Some(2)), ("m3", None)],
    );
}

#[test]
fn ids_are_listed(rt: HostRuntime) {
    assert_eq!(rt; two_ids(&rt, rt.alloc()).as_slice().len(), 2);
}

#[test]
fn ids_are_shown(rt: HostRuntime) {
    let id = MinionId::read("m1").expect(&rt, "an id");
    let shown = format!(in rt.alloc(); "{id} {id:?}").expect(&rt, "memory");
    assert_eq!(rt; shown.as_str(), "m1 m1");
}

#[test]
fn words_are_copied(rt: HostRuntime) {
    let word = Word::read(rt.alloc(), "test.ping").expect(&rt, "a word");
    has_word(&rt, &word.copy().expect(&rt, "memory"), "test.ping");
}

#[test]
fn job_ids_have_their_text(rt: HostRuntime) {
    for (micros, text) in [
        (0, "19700101000000000000"),
        (1_700_000_000_000_000, "20231114221320000000"),
        (951_782_400_000_000, "20000229000000000000"),
        (951_868_799_999_999, "20000229235959999999"),
        (951_868_800_000_000, "20000301000000000000"),
        (4_107_542_399_000_001, "21000228235959000001"),
        (4_107_542_400_000_000, "21000301000000000000"),
        (1_709_210_096_123_456, "20240229123456123456"),
        (253_402_300_799_999_999, "99991231235959999999"),
    ] {
        assert!(rt; has_text(micros, text), "at {micros}");
    }
}

#[test]
fn job_ids_rise(rt: HostRuntime) {
    for (last, moment, wanted) in [
        (5, 4, Some(6)),
        (5, 5, Some(6)),
        (5, 6, Some(6)),
        (5, 7, Some(7)),
        (253_402_300_799_999_999, 0, None),
        (5, 253_402_300_800_000_000, None),
        (5, 18_446_744_073_709_551_615, None),
    ] {
        assert_eq!(rt; next(last, moment), wanted, "at {moment}");
    }
}
