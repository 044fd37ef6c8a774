//! Which function a row calls.
use crate::replays::Failing;
use crate::spread::{cut, spread};
use crate::{
    commands, functions, globs, ids, json, messages, replays, scripts, targets, values, yaml,
};
use std::alloc::{AllocError, Global};
use target_tree::Groups;

/// What a row's call answers: a value, or its fault.
pub fn answer(alloc: Global, groups: &mut Groups, row: &str) -> Result<String, AllocError> {
    let (name, rest) = cut(row);
    let rest = spread(alloc, rest)?;
    answer_to(alloc, groups, name, rest.as_str())
}

fn answer_to(
    alloc: Global,
    groups: &mut Groups,
    name: &str,
    rest: &str,
) -> Result<String, AllocError> {
    match name {
        "id" => ids::id(alloc, rest),
        "word" => ids::word(alloc, rest),
        "jid" => ids::jid(alloc, rest),
        "jid_after" => ids::jid_after(alloc, rest),
        "glob" => globs::glob(alloc, rest),
        "glob_caseless" => globs::glob_caseless(alloc, rest),
        "group" => targets::group(alloc, groups, rest),
        "target" => targets::target(alloc, groups, rest),
        "copy" => targets::copy(alloc, groups, rest),
        "value" => values::value(alloc, rest),
        "json" => json::json(alloc, rest),
        "function" => functions::function(alloc, rest),
        "run" => functions::run_row(alloc, rest),
        "exec" => functions::exec_row(alloc, rest),
        "message" => messages::message(alloc, rest),
        "script" => scripts::script(alloc, rest),
        "replay" => replays::replay(alloc, rest),
        "pair" => replays::pair(alloc, rest),
        "failing_read" => replays::pair_that_fails(alloc, Failing::Read, rest),
        "failing_write" => replays::pair_that_fails(alloc, Failing::Write, rest),
        "command" => commands::command(alloc, rest),
        "words" => commands::words(alloc, rest),
        "args" => commands::args(alloc, rest),
        "unread" => commands::unread(alloc, rest),
        "example" => commands::example(alloc, rest),
        "yaml" => yaml::yaml(alloc, rest),
        _ => String::from_str(alloc, "no such call"),
    }
}
