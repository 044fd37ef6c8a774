//! Nodegroups: one name once, and chains of them.
use salt_value::{MinionId, Text};
use std::alloc::Global;
use std::process::Abort;
use target_tree::{GroupFault, Groups, Kind, Target, TargetFault, read_target};

static FAILED: &str = "memory and names as they are written";

/// Adds a nodegroup, whose name has to be an id.
pub fn add(
    rt: &impl Abort,
    alloc: Global,
    groups: &mut Groups,
    name: &str,
    text: &str,
) -> Option<GroupFault> {
    let name = MinionId::read(name).expect(rt, FAILED);
    let text = String::from_str(alloc, text).expect(rt, FAILED);
    groups.add(name, Text::new(text)).err()
}

static ADDED: [(&str, &str, Option<GroupFault>); 3] = [
    ("web", "w*", None),
    ("db", "d*", None),
    ("web", "x*", Some(GroupFault::Twice)),
];

static FOUND: [(&str, Option<&str>); 5] = [
    ("web", Some("w*")),
    ("db", Some("d*")),
    ("we", None),
    ("webs", None),
    ("no id", None),
];

fn finds(rt: &impl Abort, groups: &Groups, name: &str, want: Option<&str>) {
    let found = match groups.find(name) {
        Some(text) => Some(text.as_str()),
        None => None,
    };
    assert_eq!(rt; found, want, "at {name}");
}

#[test]
fn a_nodegroup_is_added_once(rt: HostRuntime) {
    let alloc = rt.alloc();
    let mut groups = Groups::new(alloc);
    finds(&rt, &groups, "web", None);
    adds(&rt, alloc, &mut groups, &ADDED);
    for (name, want) in &FOUND {
        finds(&rt, &groups, name, *want);
    }
}

fn adds(
    rt: &impl Abort,
    alloc: Global,
    groups: &mut Groups,
    rows: &[(&'static str, &'static str, Option<GroupFault>)],
) {
    for (name, text, want) in rows {
        assert_eq!(rt; add(rt, alloc, groups, name, text), *want, "at {name}");
    }
}

// So many nodegroups, each of which names the next, and the last one this text.
fn chain(rt: &impl Abort, alloc: Global, count: u32, last: &str) -> Groups {
    let mut groups = Groups::new(alloc);
    for place in 0..count {
        let name = format!(in alloc; "g{place}").expect(rt, FAILED);
        if count - place == 1 {
            add(rt, alloc, &mut groups, name.as_str(), last);
        } else {
            let next = format!(in alloc; "N@g{}", place + 1).expect(rt, FAILED);
            add(rt, alloc, &mut groups, name.as_str(), next.as_str());
        }
    }
    groups
}

static CHAINS: [(u32, &str, Result<bool, TargetFault>); 5] = [
    (200, "x", Ok(true)),
    (200, "N@g0", Err(TargetFault::Circle { at: 200 })),
    (200, "N@g200", Err(TargetFault::UnknownGroup { at: 200 })),
    (255, "x", Ok(true)),
    (256, "x", Err(TargetFault::TooManyWords)),
];

// Whether the first of a chain stands for the ids `x`.
fn is_x(rt: &impl Abort, alloc: Global, count: u32, last: &str) -> Result<bool, TargetFault> {
    let groups = chain(rt, alloc, count, last);
    match read_target(alloc, Kind::Compound, "N@g0", &groups) {
        Ok(tree) => Ok(is_glob(&tree, "x")),
        Err(fault) => Err(fault),
    }
}

fn is_glob(tree: &Target, glob: &str) -> bool {
    match tree {
        Target::IdGlob(text) => text.as_str() == glob,
        _ => false,
    }
}

#[test]
fn nodegroups_name_each_other(rt: HostRuntime) {
    let alloc = rt.alloc();
    for (count, last, want) in &CHAINS {
        assert_eq!(rt; is_x(&rt, alloc, *count, last), *want, "at {last}");
    }
}
