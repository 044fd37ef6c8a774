//! Numbers and texts as bytes.
use salt_value::{put_text, put_u16, put_u32, put_u64, text_or, u8_or, u16_or, u32_or, u64_or};
use std::alloc::{AllocError, Global};

static NUMBERS: [u8; 14] = *b"\x01\x02\x03\x04\x05\x06\x07\x08\x09\x0a\x0b\x0c\x0d\x0e";

fn numbers_written(alloc: Global) -> Result<Vec<u8>, AllocError> {
    let mut out = Vec::new(alloc);
    put_u16(&mut out, 0x102)?;
    put_u32(&mut out, 0x3040506)?;
    put_u64(&mut out, 0x708090a0b0c0d0e)?;
    Ok(out)
}

fn numbers_read(bytes: &[u8]) -> Result<(u16, u32, u64), u8> {
    let (first, rest) = u16_or(bytes, 0)?;
    let (second, rest) = u32_or(rest, 0)?;
    let (third, _) = u64_or(rest, 0)?;
    Ok((first, second, third))
}

#[test]
fn numbers_have_bytes(rt: HostRuntime) {
    let out = numbers_written(rt.alloc()).expect(&rt, "memory");
    assert!(rt; out.as_slice() == NUMBERS.as_slice());
    assert_eq!(rt;
        numbers_read(&NUMBERS),
        Ok((0x102, 0x3040506, 0x708090a0b0c0d0e))
    );
}

fn text_is_written(alloc: Global) -> Result<bool, AllocError> {
    let mut out = Vec::new(alloc);
    put_text(&mut out, "a\u{e9}".as_bytes())?;
    Ok(out.as_slice() == b"\x00\x00\x00\x03a\xc3\xa9".as_slice())
}

fn text_is_read() -> bool {
    match text_or(b"\x00\x00\x00\x03a\xc3\xa9b", 4, 5) {
        Ok((text, rest)) => text == "a\u{e9}" && rest.len() == 1,
        Err(_) => false,
    }
}

#[test]
fn texts_have_bytes(rt: HostRuntime) {
    assert_eq!(rt; text_is_written(rt.alloc()), Ok(true));
    assert!(rt; text_is_read());
}

#[test]
fn numbers_and_texts_have_faults(rt: HostRuntime) {
    assert_eq!(rt; u8_or(b"", 0).err(), Some(0));
    assert_eq!(rt; u8_or(b"\x09\x01", 0).map(|x| (x.0, x.1.len())), Ok((9, 1)));
    assert_eq!(rt; u16_or(b"\x01", 1).err(), Some(1));
    assert_eq!(rt; u32_or(b"\x01\x02\x03", 2).err(), Some(2));
    assert_eq!(rt; u64_or(b"\x01\x02\x03\x04\x05\x06\x07", 3).err(), Some(3));
    assert_eq!(rt; text_or(b"\x00\x00\x00\x02a", 4, 5).err(), Some(4));
    assert_eq!(rt; text_or(b"\x00\x00\x00\x01\xff", 4, 5).err(), Some(5));
}
