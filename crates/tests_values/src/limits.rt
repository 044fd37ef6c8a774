//! Values at their limits.
use salt_value::{Fields, Items, Text, Value, ValueFault, list_fits};
use std::alloc::{AllocError, Global};
use std::process::Abort;

// Lists in one another, so many levels deep.
fn nested(alloc: Global, levels: u32) -> Result<Value, AllocError> {
    let mut value = Value::List(Items::new(alloc));
    for _ in 1..levels {
        let mut items = Items::new(alloc);
        items.push(value)?;
        value = Value::List(items);
    }
    Ok(value)
}

// A text of so many bytes.
fn long(alloc: Global, length: u32) -> Result<Value, AllocError> {
    let mut text = String::new(alloc);
    for _ in 0..length {
        text.push('x')?;
    }
    Ok(Value::Str(Text::new(text)))
}

// The number of bytes of a value that is within the limits.
fn size(alloc: Global, value: &Value) -> Result<Option<usize>, AllocError> {
    if !value.fits() {
        return Ok(None);
    }
    let mut out = Vec::new(alloc);
    value.write(&mut out)?;
    Ok(Some(out.len()))
}

fn has_size(rt: &impl Abort, alloc: Global, value: &Value, wanted: Option<usize>) {
    assert_eq!(rt; size(alloc, value), Ok(wanted));
}

// The fault of bytes, and none where a value begins them.
fn fault_of(alloc: Global, bytes: &[u8]) -> Option<ValueFault> {
    match Value::read(alloc, bytes) {
        Ok(_) => None,
        Err(fault) => Some(fault),
    }
}

// Is each front of the bytes but the whole too short?
fn is_short_where_cut(alloc: Global, bytes: &[u8]) -> bool {
    for length in 0..bytes.len() {
        if fault_of(alloc, &bytes[..length]) != Some(ValueFault::Short) {
            return false;
        }
    }
    true
}

static WHOLE: [&[u8]; 5] = [
    b"\x03\x00\x00\x00\x00\x00\x00\x00\x05",
    b"\x04\x00\x00\x00\x02\xc3\xa9",
    b"\x05\x00\x00\x00\x02\x00\x03\x00\x00\x00\x00\x00\x00\x01\x00",
    b"\x06\x00\x00\x00\x02\x00\x00\x00\x00\x00\x00\x00\x00\x01a\x06\x00\x00\x00\x00",
    b"\x06\x00\x00\x00\x02\x00\x00\x00\x01a\x05\x00\x00\x00\x02\x01\x04\x00\x00\x00\x01b\x00\x00\x00\x02aa\x04\x00\x00\x00\x01c",
];

#[test]
fn a_cut_value_is_short(rt: HostRuntime) {
    for (row, bytes) in WHOLE.iter().enumerate() {
        assert!(rt; is_short_where_cut(rt.alloc(), bytes), "in row {row}");
    }
}

#[test]
fn a_value_has_at_most_32_levels(rt: HostRuntime) {
    for (levels, wanted) in [(1, Some(5)), (32, Some(160)), (33, None)] {
        let value = nested(rt.alloc(), levels).expect(&rt, "memory");
        has_size(&rt, rt.alloc(), &value, wanted);
    }
}

#[test]
fn a_value_has_at_most_65536_bytes(rt: HostRuntime) {
    for (length, wanted) in [(65_531, Some(65_536)), (65_532, None)] {
        let value = long(rt.alloc(), length).expect(&rt, "memory");
        has_size(&rt, rt.alloc(), &value, wanted);
    }
}

// Is a map within the limits, with a text of so many bytes under a key of one?
fn map_fits(alloc: Global, length: u32) -> Result<bool, AllocError> {
    Ok(
        Fields::new(alloc)
            .with(alloc, "k", long(alloc, length)?)?
            .fits(),
    )
}

#[test]
fn a_map_has_at_most_65536_bytes(rt: HostRuntime) {
    for (length, wanted) in [(65_521, true), (65_522, false)] {
        assert_eq!(rt; map_fits(rt.alloc(), length), Ok(wanted));
    }
}

// Are the items of a list within the limits of a list? No other value has items.
fn items_fit(value: &Value) -> bool {
    match value {
        Value::List(items) => list_fits(items.as_slice()),
        _ => false,
    }
}

// A list of one text of so many bytes.
fn list_of_long(alloc: Global, length: u32) -> Result<Value, AllocError> {
    let mut items = Items::new(alloc);
    items.push(long(alloc, length)?)?;
    Ok(Value::List(items))
}

#[test]
fn items_have_at_most_31_levels(rt: HostRuntime) {
    for (levels, wanted) in [(1, true), (32, true), (33, false)] {
        let value = nested(rt.alloc(), levels).expect(&rt, "memory");
        assert_eq!(rt; items_fit(&value), wanted, "at {levels}");
    }
}

#[test]
fn a_list_has_at_most_65536_bytes(rt: HostRuntime) {
    for (length, wanted) in [(65_526, true), (65_527, false)] {
        let value = list_of_long(rt.alloc(), length).expect(&rt, "memory");
        assert_eq!(rt; items_fit(&value), wanted, "at {length}");
    }
}
