//! The codes and names of kinds.
use target_tree::Kind;

static KINDS: [(Kind, u8, &str); 9] = [
    (Kind::Glob, 1, "glob"),
    (Kind::Pcre, 2, "pcre"),
    (Kind::List, 3, "list"),
    (Kind::Grain, 4, "grain"),
    (Kind::GrainPcre, 5, "grain_pcre"),
    (Kind::Pillar, 6, "pillar"),
    (Kind::PillarPcre, 7, "pillar_pcre"),
    (Kind::Nodegroup, 8, "nodegroup"),
    (Kind::Compound, 9, "compound"),
];

fn is_row(kind: Kind, code: u8, name: &str) -> bool {
    kind.code() == code
        && kind.name() == name
        && Kind::of(code) == Some(kind)
        && Kind::read(name) == Some(kind)
}

#[test]
fn kinds_have_codes_and_names(rt: HostRuntime) {
    for (kind, code, name) in &KINDS {
        assert!(rt; is_row(*kind, *code, name), "at {name}");
    }
}

#[test]
fn other_codes_and_names_have_no_kind(rt: HostRuntime) {
    for code in [0, 10, 11, 255] {
        assert!(rt; Kind::of(code).is_none(), "at {code}");
    }
    for name in ["", "Glob", "glo", "globs", "grain_", "compound "] {
        assert!(rt; Kind::read(name).is_none(), "at {name}");
    }
}
