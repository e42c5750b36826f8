ghost use Rattle.std.specs.Prelude.{◌≡◌, IfOk};
ghost use Rattle.lexicon_file.specs.Fields.{IsTold, child_told, children_told, with_one, children_in};

use crate::FileWhy;
use crate::letters::read_letter;
use crate::numbers::read_node_number;
use crate::parts::{first_part, texts_in, two_parts};
use crate::take_error::TakeError;
use phoneme::{Letter, Memory};
use shared_trie::Node;

/// The child that a text `X=N` tells, where it has this shape; `Some(None)` where its letter is none.
fn read_child(text: &[u8]) -> Option<Option<(Letter, Node)>>
    ensures { result ≡ child_told text.now }
{
    let (letter, node) = two_parts(text, b'=')?;
    let node = read_node_number(node)?;
    match read_letter(letter) {
        Some(letter) => Some(Some((letter, Node::new(node)))),
        None => Some(None),
    }
}

/// Adds the child, and answers whether each child so far has a letter.
fn push_child(
    children: &mut Vec<(Letter, Node)>,
    spelled: bool,
    child: Option<(Letter, Node)>,
) -> Result<bool, Memory>
    ensures { IfOk result (λ still. children_in still children.new.items ≡ with_one (children_in spelled children.old.items) child) }
{
    let Some(child) = child else {
        return Ok(false);
    };
    children.push(child)?;
    Ok(spelled)
}

/// Puts the children that a field tells in place of others, and answers whether each has a letter.
pub(crate) fn read_children(
    field: &[u8],
    children: &mut Vec<(Letter, Node)>,
) -> Result<bool, TakeError>
    ensures { IsTold (children_told field.now) result (λ spelled. children_in spelled children.new.items) }
{
    children.clear();
    let mut spelled = true;
    let mut rest = texts_in(field);
    while let Some(texts) = rest {
        let (text, following) = first_part(texts, b',');
        let Some(child) = read_child(text) else {
            return Err(FileWhy::Field.into());
        };
        spelled = push_child(children, spelled, child)?;
        rest = following;
    }
    Ok(spelled)
}
