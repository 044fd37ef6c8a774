//! Whole texts.
ghost use Rattle.std.specs.Prelude.{◌≡◌, ◌<◌, ◌+◌, ◌^◌, length, IfOk};
ghost use Rattle.yaml_words.specs.Faults.{GivesYaml};
ghost use Rattle.yaml_subset.specs.Rows.{indented_line, indented_lines};
ghost use Rattle.yaml_subset.specs.Document as spec;
ghost use Rattle.yaml_subset.specs.Document.{lines_of};

use crate::blocks::{MOST_LEVELS, block, is_later_start, value_here};
use crate::lines::all_lines;
use crate::rows::Line;
use crate::tree::{Yaml, YamlNode};
use salt_value::Value;
use std::alloc::Global;
use yaml_words::{YamlCause, YamlFault, is_item, refused, split_key};

/// A text that begins with a line that is no item.
fn by_key(alloc: Global, head: Line<'_>, rest: &[Line<'_>]) -> Result<Yaml, YamlFault>
    ensures { GivesYaml result (spec.by_line (indented_line head.entry) (indented_lines rest.now)) }
{
    match split_key(head.text) {
        None => {
            if is_later_start(&head) {
                return Err(refused(head.number, YamlCause::Unsupported));
            }
            value_here(alloc, MOST_LEVELS, head, head.text, rest)
        }
        Some(_) => block(alloc, MOST_LEVELS, head, rest),
    }
}

fn document(alloc: Global, first: u32, lines: &[Line<'_>]) -> Result<Yaml, YamlFault>
    ensures { GivesYaml result (spec.document first (indented_lines lines.now)) }
{
    let Some((head, rest)) = lines.split_first() else {
        return Ok(Yaml {
            line: first,
            node: YamlNode::Scalar(Value::Null),
        });
    };
    if is_item(head.text) {
        return block(alloc, MOST_LEVELS, *head, rest);
    }
    by_key(alloc, *head, rest)
}

/// The tree of the lines that are not passed over, and of the line that a tab indents.
fn tree_of(
    alloc: Global,
    first: u32,
    lines: &[Line<'_>],
    tab: Option<u32>,
) -> Result<Yaml, YamlFault>
    ensures { GivesYaml result (spec.kept_tree first (indented_lines lines.now, tab)) }
{
    let tree = document(alloc, first, lines)?;
    if let Some(number) = tab {
        return Err(refused(number, YamlCause::Tab));
    }
    Ok(Yaml {
        line: first,
        node: tree.node,
    })
}

/// Reads the tree that a text is, whose lines are numbered from `first` on. A fault is the first one of the first line that has one.
pub fn read_yaml(alloc: Global, text: &str, first: u32) -> Result<Yaml, YamlFault>
    requires { first + length (lines_of text.now) < 2 ^ 32 }
    ensures { GivesYaml result (spec.yaml_reading first text.now) }
{
    let (lines, tab) = all_lines(alloc, first, text)?;
    tree_of(alloc, first, &lines, tab)
}
