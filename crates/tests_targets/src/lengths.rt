//! How long the text of a target may be.
use std::alloc::{AllocError, Global};
use target_tree::{Groups, Kind, TargetFault, read_target};

// The fault of a target of so many bytes.
fn fault_of(alloc: Global, length: u32) -> Result<Option<TargetFault>, AllocError> {
    let mut text = String::new(alloc);
    for _ in 0..length {
        text.push('m')?;
    }
    let groups = Groups::new(alloc);
    Ok(read_target(alloc, Kind::Glob, text.as_str(), &groups).err())
}

static LENGTHS: [(u32, Option<TargetFault>); 4] = [
    (0, Some(TargetFault::Empty)),
    (1, None),
    (4096, None),
    (4097, Some(TargetFault::TooLong)),
];

#[test]
fn a_target_has_1_to_4096_bytes(rt: HostRuntime) {
    for (length, fault) in &LENGTHS {
        assert_eq!(rt; fault_of(rt.alloc(), *length), Ok(*fault), "{length}");
    }
}
