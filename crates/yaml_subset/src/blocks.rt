//! Blocks of lines.
ghost use Rattle.std.specs.Prelude.{◌≡◌, [], ◌∷◌, ◌++◌, map, None, IfOk};
ghost use Rattle.yaml_words.specs.Faults.{GivesYaml, FailsYaml};
ghost use Rattle.yaml_words.specs.Keys as words;
ghost use Rattle.yaml_subset.specs.Rows.{indented_line, indented_lines};
ghost use Rattle.yaml_subset.specs.Lines as lines;
ghost use Rattle.yaml_subset.specs.Blocks as spec;

use crate::keys::KeySet;
use crate::rows::{Line, entries, is_start};
use crate::tree::{Yaml, YamlItems, YamlNode, YamlPair, YamlPairs};
use salt_value::{Text, Value};
use sqlite_items::Items;
use std::alloc::{AllocError, Global};
use yaml_words::{
    FlowNode, YamlCause, YamlFault, after_mark, is_item, read_flow_node, read_key, refused,
    split_key,
};

/// The levels of the deepest tree (this project's own).
pub const MOST_LEVELS: usize = 32;

fn scalar_at(line: u32, value: Value) -> Yaml
    ensures { result ≡ spec.scalar_on_line line value }
{
    Yaml {
        line,
        node: YamlNode::Scalar(value),
    }
}

/// The items of a list that stands on one line.
fn items_at(alloc: Global, line: u32, values: Items<Value>) -> Result<YamlItems, AllocError>
    ensures { IfOk result (λ items. items ≡ map (spec.scalar_on_line line) values) }
{
    let mut left = values;
    let mut items = Vec::new(alloc);
    while let Some(value) = left.pop() {
        items.push(scalar_at(line, value))?;
    }
    items.reverse();
    Ok(Items::from_vec(items))
}

/// What stands on one line, as a tree whose parts have that line.
fn node_at(alloc: Global, line: u32, node: FlowNode) -> Result<YamlNode, AllocError>
    ensures { IfOk result (λ tree. tree ≡ spec.node_on_line line node) }
{
    match node {
        FlowNode::Scalar(value) => Ok(YamlNode::Scalar(value)),
        FlowNode::List(values) => Ok(YamlNode::List(items_at(alloc, line, values)?)),
        FlowNode::EmptyMap => Ok(YamlNode::Map(Items::new(alloc))),
    }
}

/// A text on one line, for which there are so many levels.
fn inline(alloc: Global, levels: usize, line: u32, text: &str) -> Result<Yaml, YamlFault>
    ensures { GivesYaml result (spec.inline levels line text.now) }
{
    let node = read_flow_node(alloc, levels, line, text)?;
    Ok(Yaml {
        line,
        node: node_at(alloc, line, node)?,
    })
}

/// A value, after which no line of its own may follow.
fn closed(value: Yaml, own: &[Line<'_>]) -> Result<Yaml, YamlFault>
    ensures { GivesYaml result (spec.closed (indented_lines own.now) value) }
{
    match own.first() {
        None => Ok(value),
        Some(line) => Err(refused(line.number, YamlCause::Indent)),
    }
}

/// A value on the line of its mark or key.
pub fn value_here<'a>(
    alloc: Global,
    levels: usize,
    head: Line<'a>,
    text: &'a str,
    own: &[Line<'a>],
) -> Result<Yaml, YamlFault>
    ensures { GivesYaml result (lines.value_on levels head.entry text.now own.now) }
{
    let value = inline(alloc, levels, head.number, text)?;
    closed(value, own)
}

/// The block of an entry's own lines, or null.
#[cycle(blocks)]
fn block_or_null<'s, 'a>(
    alloc: Global,
    levels: usize,
    number: u32,
    own: &'s [Line<'a>],
) -> Result<Yaml, YamlFault>
    ensures { GivesYaml result (lines.own_block levels number own.entry.now) }
{
    match own.split_first() {
        None => Ok(scalar_at(number, Value::Null)),
        Some((first, rest)) => block(alloc, levels, *first, rest),
    }
}

/// What stands after the mark of an item.
#[cycle(blocks)]
fn item_value<'s, 'a>(
    alloc: Global,
    levels: usize,
    head: Line<'a>,
    text: &'a str,
    own: &'s [Line<'a>],
) -> Result<Yaml, YamlFault>
    ensures { GivesYaml result (lines.item_rest levels head.entry text.entry.now own.entry.now) }
{
    if text.is_empty() {
        return block_or_null(alloc, levels, head.number, own);
    }
    if is_item(text) {
        return Err(refused(head.number, YamlCause::Unsupported));
    }
    match split_key(text) {
        None => value_here(alloc, levels, head, text, own),
        Some(_) => {
            let first = Line {
                number: head.number,
                width: head.width,
                text,
            };
            block(alloc, levels, first, own)
        }
    }
}

/// An item of a list at this column.
#[cycle(blocks)]
fn item<'s, 'a>(
    alloc: Global,
    levels: usize,
    column: usize,
    head: Line<'a>,
    own: &'s [Line<'a>],
) -> Result<Yaml, YamlFault>
    ensures { GivesYaml result (lines.item_on levels column head.entry own.entry.now) }
{
    if head.column() != column {
        return Err(refused(head.number, YamlCause::Indent));
    }
    if !is_item(head.text) {
        return Err(refused(head.number, YamlCause::Indent));
    }
    if levels == 0 {
        return Err(refused(head.number, YamlCause::TooDeep));
    }
    item_value(alloc, levels, head, after_mark(head.text), own)
}

/// The items of a list that begins with this line.
#[cycle(blocks)]
fn items<'s, 'a>(
    alloc: Global,
    levels: usize,
    first: Line<'a>,
    rest: &'s [Line<'a>],
) -> Result<YamlItems, YamlFault>
    ensures { GivesYaml result (lines.items_from levels first.entry rest.entry.now) }
{
    let column = first.column();
    let entries = entries(alloc, first, rest, false, column)?;
    let mut items = Items::new(alloc);
    for entry in &entries {
        let item = item(alloc, levels, column, entry.head, entry.own)?;
        items.push(item)?;
    }
    Ok(items)
}

/// Whether the line is `---` at the first column, which may stand on a text's first line alone.
pub fn is_later_start(line: &Line<'_>) -> bool
    ensures { result ≡ spec.is_later_start (indented_line line.now) }
{
    if line.column() != 0 {
        return false;
    }
    is_start(line.text)
}

/// Why a line without a key can't stand where a key is due.
fn no_key(alloc: Global, head: &Line<'_>) -> YamlFault
    ensures { FailsYaml result (spec.key_or_fault (indented_line head.now) None) }
{
    if is_later_start(head) {
        return refused(head.number, YamlCause::Unsupported);
    }
    match read_flow_node(alloc, MOST_LEVELS, head.number, head.text) {
        Ok(_) => refused(head.number, YamlCause::Indent),
        Err(fault) => fault,
    }
}

/// The key of a pair of a map at this column.
fn key_of(alloc: Global, column: usize, head: &Line<'_>) -> Result<Text, YamlFault>
    ensures { GivesYaml result (spec.key_of column (indented_line head.now)) }
{
    if head.column() != column {
        return Err(refused(head.number, YamlCause::Indent));
    }
    match split_key(head.text) {
        None => Err(no_key(alloc, head)),
        Some((raw, _rest)) => read_key(alloc, head.number, raw),
    }
}

/// What stands after the key of a line.
fn after_key(text: &str) -> &str
    ensures { result.now ≡ spec.after_key (words.split_key text.now) }
{
    match split_key(text) {
        None => "",
        Some((_raw, rest)) => rest,
    }
}

/// The value of a pair: what stands after its key, or its own lines.
#[cycle(blocks)]
fn pair_value<'s, 'a>(
    alloc: Global,
    levels: usize,
    head: Line<'a>,
    text: &'a str,
    own: &'s [Line<'a>],
) -> Result<Yaml, YamlFault>
    ensures { GivesYaml result (lines.pair_rest levels head.entry text.entry.now own.entry.now) }
{
    if text.is_empty() {
        return block_or_null(alloc, levels, head.number, own);
    }
    value_here(alloc, levels, head, text, own)
}

/// The pair of a key, which the map has already or not.
#[cycle(blocks)]
fn pair_under<'s, 'a>(
    alloc: Global,
    levels: usize,
    twice: bool,
    head: Line<'a>,
    own: &'s [Line<'a>],
    key: Text,
) -> Result<YamlPair, YamlFault>
    ensures { GivesYaml result (lines.pair_below levels twice head.entry own.entry.now key) }
{
    if twice {
        return Err(refused(head.number, YamlCause::KeyTwice));
    }
    if levels == 0 {
        return Err(refused(head.number, YamlCause::TooDeep));
    }
    let value = pair_value(alloc, levels, head, after_key(head.text), own)?;
    Ok(YamlPair {
        line: head.number,
        key,
        value,
    })
}

/// A pair of a map at this column, which has these keys before it. Its key is added to them.
#[cycle(blocks)]
fn pair<'s, 'a>(
    alloc: Global,
    levels: usize,
    column: usize,
    keys: &mut KeySet,
    head: Line<'a>,
    own: &'s [Line<'a>],
) -> Result<YamlPair, YamlFault>
    ensures ok { GivesYaml result (lines.pair_on levels column keys.old head.entry own.entry.now) }
    ensures keys { IfOk result (λ pair. keys.new ≡ keys.old ++ pair.key ∷ []) }
{
    let key = key_of(alloc, column, &head)?;
    let twice = !keys.insert(alloc, &key)?;
    pair_under(alloc, levels, twice, head, own, key)
}

/// The pairs of a map that begins with this line.
#[cycle(blocks)]
fn pairs<'s, 'a>(
    alloc: Global,
    levels: usize,
    first: Line<'a>,
    rest: &'s [Line<'a>],
) -> Result<YamlPairs, YamlFault>
    ensures { GivesYaml result (lines.pairs_from levels first.entry rest.entry.now) }
{
    let column = first.column();
    let entries = entries(alloc, first, rest, true, column)?;
    let mut keys = KeySet::new(alloc);
    let mut pairs = Items::new(alloc);
    for entry in &entries {
        let pair = pair(alloc, levels, column, &mut keys, entry.head, entry.own)?;
        pairs.push(pair)?;
    }
    Ok(pairs)
}

/// A list or a map, by its first line, whose members may have so many levels.
#[cycle(blocks)]
fn block_of<'s, 'a>(
    alloc: Global,
    levels: usize,
    first: Line<'a>,
    rest: &'s [Line<'a>],
) -> Result<Yaml, YamlFault>
    ensures { GivesYaml result (lines.block_from levels first.entry rest.entry.now) }
{
    let line = first.number;
    if is_item(first.text) {
        let items = items(alloc, levels, first, rest)?;
        Ok(Yaml {
            line,
            node: YamlNode::List(items),
        })
    } else {
        let pairs = pairs(alloc, levels, first, rest)?;
        Ok(Yaml {
            line,
            node: YamlNode::Map(pairs),
        })
    }
}

/// The block that these lines are, which may have so many levels.
#[cycle(blocks)]
pub fn block<'s, 'a>(
    alloc: Global,
    levels: usize,
    first: Line<'a>,
    rest: &'s [Line<'a>],
) -> Result<Yaml, YamlFault>
    ensures { GivesYaml result (lines.block_on levels first.entry rest.entry.now) }
{
    if levels == 0 {
        return Err(refused(first.number, YamlCause::TooDeep));
    }
    block_of(alloc, levels - 1, first, rest)
}
