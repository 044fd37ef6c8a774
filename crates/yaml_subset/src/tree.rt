//! Trees.
use salt_value::{Text, Value};
use sqlite_items::Items;

/// A tree, and the line on which it begins: that of its first byte, or of its key or `-` where it has none. A whole tree has the number of
/// the text's first line.
#[cycle(tree)]
#[derive(Drop)]
pub struct Yaml {
    pub line: u32,
    pub node: YamlNode,
}

/// What a tree is.
#[cycle(tree)]
#[derive(Drop)]
pub enum YamlNode {
    /// Null, a flag, a whole number or a text.
    Scalar(Value),
    List(YamlItems),
    Map(YamlPairs),
}

/// A key and its value, and the line of the key.
#[cycle(tree)]
#[derive(Drop)]
pub struct YamlPair {
    pub line: u32,
    pub key: Text,
    pub value: Yaml,
}

/// The items of a list, which contracts see as that list.
pub type YamlItems = Items<Yaml>;

/// The pairs of a map in the order of the text, which contracts see as that list. No two have one key.
pub type YamlPairs = Items<YamlPair>;
