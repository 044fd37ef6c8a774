//! What faults say.
use std::alloc::Global;
use std::process::Abort;
use target_match::BuildFault;
use target_tree::{GroupFault, TargetFault};

static TARGETS: [(TargetFault, &str); 11] = [
    (TargetFault::NoMemory, "no memory for the target"),
    (TargetFault::Empty, "the target is empty"),
    (TargetFault::TooLong, "the target has more than 4,096 bytes"),
    (TargetFault::Word { at: 3 }, "word 3 can't stand there"),
    (TargetFault::Unclosed, "a parenthesis is not closed"),
    (
        TargetFault::TooDeep,
        "more than 64 of `not` and `(` stand open",
    ),
    (TargetFault::TooManyWords, "more than 256 words"),
    (TargetFault::TooManyPatterns, "more than 16 patterns"),
    (
        TargetFault::UnknownGroup { at: 0 },
        "word 0 names no nodegroup",
    ),
    (
        TargetFault::Circle { at: 2 },
        "word 2 names a nodegroup that it is part of",
    ),
    (
        TargetFault::BadLetter { at: 255 },
        "word 255 begins with a letter without a meaning",
    ),
];

static GROUPS: [(GroupFault, &str); 2] = [
    (GroupFault::NoMemory, "no memory for the nodegroup"),
    (GroupFault::Twice, "a nodegroup has this name already"),
];

static BUILDS: [(BuildFault, &str); 3] = [
    (BuildFault::NoMemory, "no memory was found"),
    (
        BuildFault::BadPattern { leaf: 7 },
        "the pattern of leaf 7 cannot be read",
    ),
    (
        BuildFault::TooBig { leaf: 0 },
        "the pattern of leaf 0 is too big",
    ),
];

static FAILED: &str = "memory for a line";

fn target_says(rt: &impl Abort, alloc: Global, fault: TargetFault, line: &str) -> bool {
    let said = format!(in alloc; "{fault}").expect(rt, FAILED);
    said.as_str() == line
}

fn group_says(rt: &impl Abort, alloc: Global, fault: GroupFault, line: &str) -> bool {
    let said = format!(in alloc; "{fault}").expect(rt, FAILED);
    said.as_str() == line
}

fn build_says(rt: &impl Abort, alloc: Global, fault: BuildFault, line: &str) -> bool {
    let said = format!(in alloc; "{fault}").expect(rt, FAILED);
    said.as_str() == line
}

#[test]
fn faults_have_lines(rt: HostRuntime) {
    let alloc = rt.alloc();
    for (fault, line) in &TARGETS {
        assert!(rt; target_says(&rt, alloc, *fault, line), "at {line}");
    }
    for (fault, line) in &GROUPS {
        assert!(rt; group_says(&rt, alloc, *fault, line), "at {line}");
    }
    for (fault, line) in &BUILDS {
        assert!(rt; build_says(&rt, alloc, *fault, line), "at {line}");
    }
}
