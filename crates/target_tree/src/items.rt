//! Lists of ids.
ghost use Rattle.std.specs.Prelude.{◌≡◌, reverse, IfOk};
ghost use Rattle.target_tree.specs.Words.{IsIdOf, id_list, trimmed_item, without_spaces};

use crate::Target;
use crate::token::{Token, leaf};
use salt_value::MinionId;
use sqlite_items::Items;
use std::alloc::{AllocError, Global};

fn without_front(item: &[u8]) -> &[u8]
    ensures { result.now ≡ without_spaces item.now }
{
    let mut rest = item;
    while let [b' ', more @ ..] = rest {
        rest = more;
    }
    rest
}

fn without_end(item: &[u8]) -> &[u8]
    ensures { result.now ≡ reverse (without_spaces (reverse item.now)) }
{
    let mut rest = item;
    while let [more @ .., b' '] = rest {
        rest = more;
    }
    rest
}

/// Without the spaces at both ends.
fn without_ends(item: &[u8]) -> &[u8]
    ensures { result.now ≡ trimmed_item item.now }
{
    without_end(without_front(item))
}

/// The id that an item of a list is.
fn id_of(item: &str) -> Option<MinionId>
    ensures { IsIdOf item.now result }
{
    match MinionId::from_bytes(without_ends(item.as_bytes())) {
        Ok(id) => Some(id),
        Err(_) => None,
    }
}

/// Ids joined by commas; no leaf, where an item is no id.
pub fn id_list_of(alloc: Global, text: &str) -> Result<Token, AllocError>
    ensures { IfOk result (λ t. t ≡ id_list text.now) }
{
    let mut ids = Items::new(alloc);
    let mut rest = text;
    while let Some((item, more)) = rest.split_once(',') {
        let Some(id) = id_of(item) else {
            return Ok(Token::NoLeaf);
        };
        ids.push(id)?;
        rest = more;
    }
    let Some(id) = id_of(rest) else {
        return Ok(Token::NoLeaf);
    };
    ids.push(id)?;
    leaf(alloc, Target::IdList(ids))
}
