//! Which minions targets hold for.
use crate::data::{Data, GRAINS, Minion, PILLAR, made_minion};
use crate::groups::add;
use std::alloc::Global;
use std::process::Abort;
use target_match::{BuildFault, Matcher};
use target_tree::{Groups, Kind, Target, TargetFault, read_target};

/// What a target says of a minion.
#[derive(Clone, Copy, Debug, PartialEq, Eq)]
pub enum Told {
    /// Whether it holds, as the id alone decides.
    ById(bool),
    /// Whether it holds, where the id alone decides nothing.
    ByData(bool),
    Misread(TargetFault),
    Unbuilt(BuildFault),
    /// Two calls answer otherwise.
    Torn,
}

static FAILED: &str = "memory for an answer";

/// What a text says of a minion.
pub fn answer_of(
    rt: &impl Abort,
    alloc: Global,
    kind: Kind,
    text: &str,
    groups: &Groups,
    minion: &Minion,
) -> Told {
    match read_target(alloc, kind, text, groups) {
        Ok(tree) => built(rt, alloc, &tree, minion),
        Err(fault) => Told::Misread(fault),
    }
}

fn built(rt: &impl Abort, alloc: Global, tree: &Target, minion: &Minion) -> Told {
    match Matcher::build(alloc, tree) {
        Ok(matcher) => answered(rt, &matcher, minion),
        Err(fault) => Told::Unbuilt(fault),
    }
}

fn answered(rt: &impl Abort, matcher: &Matcher, minion: &Minion) -> Told {
    let holds = matcher
        .holds(&minion.id, &minion.grains, &minion.pillar)
        .expect(rt, FAILED);
    if !agrees(rt, matcher, minion, holds) {
        return Told::Torn;
    }
    match matcher.holds_id(&minion.id) {
        None => Told::ByData(holds),
        Some(decided) if decided == holds => Told::ById(holds),
        Some(_) => Told::Torn,
    }
}

// Whether searches that are kept give the same answer, twice.
fn agrees(rt: &impl Abort, matcher: &Matcher, minion: &Minion, wanted: bool) -> bool {
    let mut searches = matcher.searches();
    let (id, grains, pillar) = (&minion.id, &minion.grains, &minion.pillar);
    let first = matcher
        .holds_with(&mut searches, id, grains, pillar)
        .expect(rt, FAILED);
    let second = matcher
        .holds_with(&mut searches, id, grains, pillar)
        .expect(rt, FAILED);
    first == wanted && second == wanted
}

// Asks all rows of one kind.
fn tells(
    rt: &impl Abort,
    alloc: Global,
    kind: Kind,
    minion: &Minion,
    groups: &Groups,
    rows: &[(&'static str, Told)],
) {
    for (text, want) in rows {
        assert_eq!(rt;
            answer_of(rt, alloc, kind, text, groups, minion),
            *want,
            "at {text}"
        );
    }
}

fn tells_kinds(
    rt: &impl Abort,
    alloc: Global,
    minion: &Minion,
    groups: &Groups,
    rows: &[(Kind, &'static str, Told)],
) {
    for (kind, text, want) in rows {
        assert_eq!(rt;
            answer_of(rt, alloc, *kind, text, groups, minion),
            *want,
            "at {text}"
        );
    }
}

static GLOBS: [(&str, Told); 66] = [
    ("os:debian", Told::ByData(true)),
    ("os:Deb*", Told::ByData(true)),
    ("os:ebian", Told::ByData(false)),
    ("OS:debian", Told::ByData(false)),
    ("Os:gentoo", Told::ByData(true)),
    ("os", Told::ByData(true)),
    ("OS", Told::ByData(true)),
    ("o?", Told::ByData(true)),
    ("zz*", Told::ByData(false)),
    ("roles:web", Told::ByData(true)),
    ("roles:db", Told::ByData(true)),
    ("roles:WEB", Told::ByData(true)),
    ("roles:w", Told::ByData(false)),
    ("roles:web:db", Told::ByData(false)),
    ("ec2:tags:env:prod", Told::ByData(true)),
    ("ec2:t*", Told::ByData(true)),
    ("ec2:tags", Told::ByData(true)),
    ("ec2:TAGS", Told::ByData(true)),
    ("ec2:TAGS:env:prod", Told::ByData(false)),
    ("ec2:tags:env", Told::ByData(true)),
    ("ec2:tags:role:db", Told::ByData(false)),
    ("ec2:tags:Role:db", Told::ByData(true)),
    ("ec2:tags:env:prod:x", Told::ByData(false)),
    ("ec2:*:env", Told::ByData(false)),
    ("ec2:prod", Told::ByData(false)),
    ("mac:AA:b?", Told::ByData(true)),
    ("mac:aa:*", Told::ByData(true)),
    ("mac:aa", Told::ByData(false)),
    ("mac:aa:bb:", Told::ByData(false)),
    ("count:-12", Told::ByData(true)),
    ("count:-1?", Told::ByData(true)),
    ("count:12", Told::ByData(false)),
    ("zero:0", Told::ByData(true)),
    ("zero:-0", Told::ByData(false)),
    ("least:-9223372036854775808", Told::ByData(true)),
    ("flag_on:true", Told::ByData(true)),
    ("flag_on:TRUE", Told::ByData(true)),
    ("flag_on:1", Told::ByData(false)),
    ("flag_off:False", Told::ByData(true)),
    ("flag_off:true", Told::ByData(false)),
    ("null:None", Told::ByData(true)),
    ("null:none", Told::ByData(true)),
    ("null:null", Told::ByData(false)),
    ("null:", Told::ByData(false)),
    ("text_none:None", Told::ByData(true)),
    ("text_true:tr?e", Told::ByData(true)),
    ("empty:", Told::ByData(true)),
    ("empty:*", Told::ByData(true)),
    ("empty:?", Told::ByData(false)),
    (":Empty?key", Told::ByData(true)),
    (":*", Told::ByData(true)),
    (":", Told::ByData(false)),
    ("::", Told::ByData(false)),
    ("alist:x", Told::ByData(true)),
    ("alist:deep", Told::ByData(true)),
    ("alist:k:v", Told::ByData(true)),
    ("alist:k", Told::ByData(true)),
    ("alist:inner:7", Told::ByData(true)),
    ("alist:inner:7?", Told::ByData(false)),
    ("alist:two:q", Told::ByData(true)),
    ("alist:two:z", Told::ByData(false)),
    ("empty_list:*", Told::ByData(false)),
    ("empty_map:*", Told::ByData(false)),
    ("empty_map", Told::ByData(true)),
    ("uni:GR*E", Told::ByData(true)),
    ("uni:GRÖSSE", Told::ByData(false)),
];

static PATTERNS: [(&str, Told); 74] = [
    ("os:Deb", Told::ByData(true)),
    ("os:ebian", Told::ByData(false)),
    ("os:deb", Told::ByData(false)),
    ("os:(?i)deb", Told::ByData(true)),
    ("os:(?x) D e b", Told::ByData(true)),
    ("os:(?s).*n", Told::ByData(true)),
    ("os:^Deb.*n$", Told::ByData(true)),
    ("os:^Deb$", Told::ByData(false)),
    ("os:$", Told::ByData(false)),
    ("os:\\bDeb", Told::ByData(true)),
    ("os:Arch|Deb", Told::ByData(true)),
    ("os:ian|Deb", Told::ByData(true)),
    ("os:ian|x", Told::ByData(false)),
    ("os:x|", Told::ByData(true)),
    ("os:", Told::ByData(true)),
    ("os:zz:.", Told::ByData(false)),
    ("OS:Deb", Told::ByData(false)),
    ("Os:Gen", Told::ByData(true)),
    ("empty:", Told::ByData(true)),
    ("empty:.", Told::ByData(false)),
    ("empty:^$", Told::ByData(true)),
    ("zz:.", Told::ByData(false)),
    ("roles:b", Told::ByData(false)),
    ("roles:d", Told::ByData(true)),
    ("roles:.b", Told::ByData(true)),
    ("roles:eb", Told::ByData(false)),
    ("ec2:tags:env:pr(?:od|e)", Told::ByData(true)),
    ("ec2:tags:env:prod", Told::ByData(true)),
    ("ec2:tags:env:rod", Told::ByData(false)),
    ("ec2:tags:env:prod:", Told::ByData(false)),
    ("ec2:tags:env:", Told::ByData(true)),
    ("ec2:tags:en", Told::ByData(true)),
    ("ec2:tags:nv", Told::ByData(false)),
    ("ec2:tags:Env", Told::ByData(false)),
    ("ec2:Tags:env:prod", Told::ByData(false)),
    ("ec2:tags:", Told::ByData(true)),
    ("ec2:t", Told::ByData(true)),
    ("ec2:env:prod", Told::ByData(false)),
    ("ec2", Told::ByData(true)),
    ("c2", Told::ByData(false)),
    ("mac:aa:b", Told::ByData(false)),
    ("mac:aa:bb", Told::ByData(false)),
    ("mac:(aa):bb", Told::ByData(true)),
    ("mac:aa.bb", Told::ByData(true)),
    ("mac:bb", Told::ByData(false)),
    ("count:-1", Told::ByData(true)),
    ("count:1", Told::ByData(false)),
    ("zero:0$", Told::ByData(true)),
    ("least:-9{1}2", Told::ByData(true)),
    ("flag_on:True", Told::ByData(true)),
    ("flag_on:true", Told::ByData(false)),
    ("flag_off:F", Told::ByData(true)),
    ("null:None", Told::ByData(true)),
    ("null:none", Told::ByData(false)),
    ("text_none:None", Told::ByData(true)),
    ("text_true:T", Told::ByData(true)),
    ("alist:de+p", Told::ByData(true)),
    ("alist:eep", Told::ByData(false)),
    ("alist:k:v", Told::ByData(true)),
    ("alist:inner:7", Told::ByData(true)),
    ("alist:two:[q]", Told::ByData(true)),
    ("alist:two:p|z", Told::ByData(true)),
    ("alist:in", Told::ByData(true)),
    ("alist:nner", Told::ByData(false)),
    ("empty_list:", Told::ByData(false)),
    ("empty_map:", Told::ByData(false)),
    ("uni:Gr.ß", Told::ByData(true)),
    ("uni:Größe$", Told::ByData(true)),
    ("uni:\\w{5}$", Told::ByData(true)),
    ("uni:ö", Told::ByData(false)),
    (":empty", Told::ByData(false)),
    ("os:(", Told::Unbuilt(BuildFault::BadPattern { leaf: 0 })),
    ("os:*", Told::Unbuilt(BuildFault::BadPattern { leaf: 0 })),
    (
        "ec2:tags:[z-a]",
        Told::Unbuilt(BuildFault::BadPattern { leaf: 0 }),
    ),
];

static OTHER_KINDS: [(Kind, &str, Told); 56] = [
    (Kind::Glob, "web*", Told::ById(true)),
    (Kind::Glob, "WEB*", Told::ById(false)),
    (Kind::Glob, "eb1*", Told::ById(false)),
    (Kind::Glob, "", Told::Misread(TargetFault::Empty)),
    (Kind::List, "a,web1.example.com", Told::ById(true)),
    (Kind::List, "a,web1", Told::ById(false)),
    (Kind::List, "WEB1.example.com", Told::ById(false)),
    (Kind::Pcre, "web", Told::ByData(true)),
    (Kind::Pcre, "eb1", Told::ByData(false)),
    (Kind::Pcre, "com", Told::ByData(false)),
    (Kind::Pcre, "web\\d", Told::ByData(true)),
    (Kind::Pcre, "^web1\\.example\\.com$", Told::ByData(true)),
    (Kind::Pcre, "^web1$", Told::ByData(false)),
    (Kind::Pcre, "WEB", Told::ByData(false)),
    (Kind::Pcre, "(?i)WEB", Told::ByData(true)),
    (Kind::Pcre, "db|web1", Told::ByData(true)),
    (Kind::Pcre, "x*", Told::ByData(true)),
    (Kind::Pcre, "\\p{Greek}", Told::ByData(false)),
    (
        Kind::Pcre,
        "(",
        Told::Unbuilt(BuildFault::BadPattern { leaf: 0 }),
    ),
    (
        Kind::Pcre,
        "(?=a)",
        Told::Unbuilt(BuildFault::BadPattern { leaf: 0 }),
    ),
    (Kind::Pcre, "", Told::Misread(TargetFault::Empty)),
    (Kind::Pillar, "role:db", Told::ByData(true)),
    (Kind::Pillar, "role:d", Told::ByData(false)),
    (Kind::Pillar, "os:debian", Told::ByData(false)),
    (Kind::Grain, "role:db", Told::ByData(false)),
    (Kind::PillarPcre, "role:d", Told::ByData(true)),
    (Kind::PillarPcre, "role:b", Told::ByData(false)),
    (Kind::PillarPcre, "os:Deb", Told::ByData(false)),
    (
        Kind::PillarPcre,
        "role:)",
        Told::Unbuilt(BuildFault::BadPattern { leaf: 0 }),
    ),
    (Kind::Compound, "web* or L@a", Told::ById(true)),
    (Kind::Compound, "db* or L@a", Told::ById(false)),
    (Kind::Compound, "db* and web*", Told::ById(false)),
    (Kind::Compound, "web* and *", Told::ById(true)),
    (Kind::Compound, "not web*", Told::ById(false)),
    (Kind::Compound, "not L@a", Told::ById(true)),
    (Kind::Compound, "not ( db* or web* )", Told::ById(false)),
    (Kind::Compound, "not ( db* and web* )", Told::ById(true)),
    (Kind::Compound, "web* and G@os:arch", Told::ByData(false)),
    (Kind::Compound, "db* and G@os:debian", Told::ByData(false)),
    (Kind::Compound, "db* or G@os:debian", Told::ByData(true)),
    (Kind::Compound, "web* or E@x", Told::ByData(true)),
    (Kind::Compound, "not G@os:debian", Told::ByData(false)),
    (Kind::Compound, "not not E@web", Told::ByData(true)),
    (Kind::Compound, "not I@role:db", Told::ByData(false)),
    (Kind::Compound, "not J@role:x", Told::ByData(true)),
    (
        Kind::Compound,
        "P@os:D and not J@role:w",
        Told::ByData(true),
    ),
    (
        Kind::Compound,
        "E@( or E@a",
        Told::Unbuilt(BuildFault::BadPattern { leaf: 0 }),
    ),
    (
        Kind::Compound,
        "E@a or E@(",
        Told::Unbuilt(BuildFault::BadPattern { leaf: 1 }),
    ),
    (
        Kind::Compound,
        "web* and E@(",
        Told::Unbuilt(BuildFault::BadPattern { leaf: 1 }),
    ),
    (
        Kind::Compound,
        "E@[ and P@a:(",
        Told::Unbuilt(BuildFault::BadPattern { leaf: 0 }),
    ),
    (
        Kind::Compound,
        "web* and E@( or E@a",
        Told::Unbuilt(BuildFault::BadPattern { leaf: 1 }),
    ),
    (
        Kind::Compound,
        "L@a or G@x and not E@a or P@os:(",
        Told::Unbuilt(BuildFault::BadPattern { leaf: 3 }),
    ),
    (
        Kind::Compound,
        "( a or b ) and not ( c or J@x:( )",
        Told::Unbuilt(BuildFault::BadPattern { leaf: 3 }),
    ),
    (
        Kind::Compound,
        "G@roles:web and G@ec2:tags:env:prod and G@mac:AA:b? and G@ec2:t*",
        Told::ByData(true),
    ),
    (
        Kind::Compound,
        "N@c",
        Told::Misread(TargetFault::UnknownGroup { at: 0 }),
    ),
    (
        Kind::Nodegroup,
        "a",
        Told::Misread(TargetFault::Circle { at: 2 }),
    ),
];

// Keys of one byte that a part of a path may have, or that is next to one of those.
static EDGES: [(&str, Data); 18] = [
    (",", Data::Str("v")),
    ("-", Data::Str("v")),
    (".", Data::Str("v")),
    ("/", Data::Str("v")),
    ("0", Data::Str("v")),
    ("9", Data::Str("v")),
    ("@", Data::Str("v")),
    ("A", Data::Str("v")),
    ("Z", Data::Str("v")),
    ("^", Data::Str("v")),
    ("_", Data::Str("v")),
    ("`", Data::Str("v")),
    ("a", Data::Str("v")),
    ("a-b", Data::Str("v")),
    ("a.b", Data::Str("v")),
    ("x[", Data::Str("v")),
    ("x{", Data::Str("v")),
    ("z", Data::Str("v")),
];

// What stands before a pattern is a path only where each part is letters, digits, `_` and `-`; else it belongs to the pattern.
static EDGE_PATTERNS: [(&str, Told); 20] = [
    (",:v", Told::ByData(false)),
    ("-:v", Told::ByData(true)),
    (".:v", Told::ByData(false)),
    ("/:v", Told::ByData(false)),
    ("0:v", Told::ByData(true)),
    ("9:v", Told::ByData(true)),
    ("@:v", Told::ByData(false)),
    ("A:v", Told::ByData(true)),
    ("Z:v", Told::ByData(true)),
    ("^:v", Told::ByData(false)),
    ("_:v", Told::ByData(true)),
    ("`:v", Told::ByData(false)),
    ("a:v", Told::ByData(true)),
    ("x[:v", Told::Unbuilt(BuildFault::BadPattern { leaf: 0 })),
    ("x{:v", Told::Unbuilt(BuildFault::BadPattern { leaf: 0 })),
    ("z:v", Told::ByData(true)),
    ("a-b:v", Told::ByData(true)),
    ("a.b:v", Told::ByData(false)),
    ("a.b", Told::ByData(true)),
    ("a-b:w", Told::ByData(false)),
];

// The parts of a glob's path are exact keys, whatever bytes they have.
static EDGE_GLOBS: [(&str, Told); 19] = [
    (",:v", Told::ByData(true)),
    ("-:v", Told::ByData(true)),
    (".:v", Told::ByData(true)),
    ("/:v", Told::ByData(true)),
    ("0:v", Told::ByData(true)),
    ("9:v", Told::ByData(true)),
    ("@:v", Told::ByData(true)),
    ("A:v", Told::ByData(true)),
    ("Z:v", Told::ByData(true)),
    ("^:v", Told::ByData(true)),
    ("_:v", Told::ByData(true)),
    ("`:v", Told::ByData(true)),
    ("a:v", Told::ByData(true)),
    ("a-b:v", Told::ByData(true)),
    ("a.b:v", Told::ByData(true)),
    ("z:v", Told::ByData(true)),
    ("x[:v", Told::ByData(true)),
    ("x{:v", Told::ByData(true)),
    ("a.b:w", Told::ByData(false)),
];

// A pattern that can be read, whose tables would be too big, is told by its leaf.
static BIG: [(Kind, &str, Told); 3] = [
    (
        Kind::Pcre,
        "(a{1000}){1000}",
        Told::Unbuilt(BuildFault::TooBig { leaf: 0 }),
    ),
    (
        Kind::Compound,
        "web* and E@a or P@os:(a{1000}){1000} or E@(",
        Told::Unbuilt(BuildFault::TooBig { leaf: 2 }),
    ),
    // one that cannot be read before it
    (
        Kind::Compound,
        "E@( or E@(a{1000}){1000}",
        Told::Unbuilt(BuildFault::BadPattern { leaf: 0 }),
    ),
];

static ID: &str = "web1.example.com";

#[test]
fn globs_meet_grains(rt: HostRuntime) {
    let alloc = rt.alloc();
    let minion = made_minion(&rt, alloc, ID, &GRAINS, &PILLAR);
    tells(
        &rt,
        alloc,
        Kind::Grain,
        &minion,
        &Groups::new(alloc),
        &GLOBS,
    );
}

#[test]
fn patterns_reach_grains(rt: HostRuntime) {
    let alloc = rt.alloc();
    let minion = made_minion(&rt, alloc, ID, &GRAINS, &PILLAR);
    tells(
        &rt,
        alloc,
        Kind::GrainPcre,
        &minion,
        &Groups::new(alloc),
        &PATTERNS,
    );
}

#[test]
fn paths_have_parts(rt: HostRuntime) {
    let alloc = rt.alloc();
    let minion = made_minion(&rt, alloc, ID, &EDGES, &PILLAR);
    let groups = Groups::new(alloc);
    tells(
        &rt,
        alloc,
        Kind::GrainPcre,
        &minion,
        &groups,
        &EDGE_PATTERNS,
    );
    tells(&rt, alloc, Kind::Grain, &minion, &groups, &EDGE_GLOBS);
}

fn circle(rt: &impl Abort, alloc: Global) -> Groups {
    let mut groups = Groups::new(alloc);
    add(rt, alloc, &mut groups, "a", "N@b");
    add(rt, alloc, &mut groups, "b", "N@a");
    groups
}

#[test]
fn other_kinds_hold(rt: HostRuntime) {
    let alloc = rt.alloc();
    let minion = made_minion(&rt, alloc, ID, &GRAINS, &PILLAR);
    let groups = circle(&rt, alloc);
    tells_kinds(&rt, alloc, &minion, &groups, &OTHER_KINDS);
}

#[test]
fn big_patterns_are_told(rt: HostRuntime) {
    let alloc = rt.alloc();
    let minion = made_minion(&rt, alloc, ID, &[], &[]);
    tells_kinds(&rt, alloc, &minion, &Groups::new(alloc), &BIG);
}
