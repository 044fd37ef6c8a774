//! The lines of the top.
ghost use Rattle.std.specs.Prelude.{◌≡◌, ◌∷◌, IfOk, IfErr, IfSome, IfNone};
ghost use Rattle.script_text.specs.Lines.{lines_of, LacksFirst};
ghost use Rattle.script_text.specs.Refusals.{IsRefusedAt};
ghost use Rattle.script_text.specs.Top.{HasFirstId, LacksFirstId, HasTop};

use crate::lines::cut_line;
use crate::names::read_id_line;
use salt_value::MinionId;

// What comes after this line.
fn after<'a>(text: &'a [u8], word: &[u8]) -> Option<&'a [u8]>
    ensures some { IfSome result (λ rest. lines_of text.now ≡ word.now ∷ lines_of rest.now) }
    ensures none { IfNone result (LacksFirst word.now (lines_of text.now)) }
{
    match cut_line(text) {
        Some((line, rest)) => { if line == word { Some(rest) } else { None } }
        None => None,
    }
}

// The id of the first line, and what comes after it.
fn after_id(text: &[u8]) -> Option<(MinionId, &[u8])>
    ensures some { IfSome result (λ r. HasFirstId text.now r.0 r.1.now) }
    ensures none { IfNone result (LacksFirstId text.now) }
{
    match cut_line(text) {
        Some((line, rest)) => match read_id_line(line) {
            Some(id) => Some((id, rest)),
            None => None,
        },
        None => None,
    }
}

/// The id of the top, and what comes after its four lines; or the line at which the text is refused.
pub fn read_top(text: &[u8]) -> Result<(MinionId, &[u8]), u32>
    ensures ok { IfOk result (λ r. HasTop text.now r.0 r.1.now) }
    ensures err { IfErr result (λ n. IsRefusedAt n text.now) }
{
    let Some(nodes) = after(text, b"%fleet") else {
        return Err(1);
    };
    let Some(id) = after(nodes, b"nodes:") else {
        return Err(2);
    };
    let Some(found) = after_id(id) else {
        return Err(3);
    };
    match after(found.1, b"  role: top") {
        Some(rest) => Ok((found.0, rest)),
        None => Err(4),
    }
}
