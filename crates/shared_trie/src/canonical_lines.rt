ghost use Rattle.std.specs.Prelude.{◌≡◌, ℕ, ◌++◌, map, codes, decimal, All, Contains, OnOk};
ghost use Rattle.form_tags.specs.Analyses.{text_delta};
ghost use Rattle.trie_text_definitions.specs.NodeLines.{listed, delta_text, child_text, node_line};
ghost use Rattle.trie_text_definitions.specs.PrintableRows.{IsPrintable, IsPrintableChild, IsPrintableDelta};
ghost use Rattle.shared_trie.specs.CanonicalNodes.{numbered_child, numbered_row};

use super::canonical_letters::push_letters;
use super::{Node, NodeNumbers};
use form_tags::{Delta, print_tag};
use itoa::Buffer;
use phoneme::{Letter, Memory};
use std::alloc::Global;

/// Appends the number in decimal.
pub fn push_number(out: &mut Vec<u8>, number: usize) -> Result<(), Memory>
    ensures ok { OnOk result (out.new.items ≡ out.old.items ++ decimal number) }
{
    let mut digits = Buffer::new();
    out.extend_from_slice(digits.format(number).as_bytes())?;
    Ok(())
}

/// Appends `CUT:APPEND:TAG`.
fn push_delta(alloc: Global, out: &mut Vec<u8>, delta: &Delta) -> Result<(), Memory>
    ensures ok { OnOk result (out.new.items ≡ out.old.items ++ delta_text (text_delta delta.now)) }
    ensures printable { OnOk result (IsPrintableDelta (text_delta delta.now)) }
{
    let tag = print_tag(alloc, &delta.tag)?;
    push_number(out, delta.cut as usize)?;
    out.push(b':')?;
    push_letters(out, delta.append.as_slice())?;
    out.push(b':')?;
    out.extend_from_slice(tag.as_bytes())?;
    Ok(())
}

/// Appends the deltas with `,` between them, or `-` where there is none.
fn push_deltas(alloc: Global, out: &mut Vec<u8>, deltas: &[Delta]) -> Result<(), Memory>
    ensures ok { OnOk result (out.new.items ≡ out.old.items ++ listed (map delta_text (map text_delta deltas.now))) }
    ensures printable { OnOk result (All IsPrintableDelta (map text_delta deltas.now)) }
{
    let Some((first, others)) = deltas.split_first() else {
        out.push(b'-')?;
        return Ok(());
    };
    push_delta(alloc, out, first)?;
    for delta in others {
        out.push(b',')?;
        push_delta(alloc, out, delta)?;
    }
    Ok(())
}

/// Appends `X=N`, the number of the node to which the letter leads.
fn push_child(out: &mut Vec<u8>, child: (Letter, Node), numbers: &NodeNumbers) -> Result<(), Memory>
    requires { Contains numbers.now.nodes child.1 }
    ensures ok { OnOk result (out.new.items ≡ out.old.items ++ child_text (numbered_child numbers.now.nodes child)) }
    ensures printable { OnOk result (IsPrintableChild (numbered_child numbers.now.nodes child)) }
{
    push_letters(out, &[child.0])?;
    out.push(b'=')?;
    push_number(out, numbers.number_of(child.1))
}

/// Appends the children with `,` between them, or `-` where there is none.
fn push_children(
    out: &mut Vec<u8>,
    children: &[(Letter, Node)],
    numbers: &NodeNumbers,
) -> Result<(), Memory>
    requires { All (λ (child : ℕ × ℕ). Contains numbers.now.nodes child.1) children.now }
    ensures ok { OnOk result (out.new.items ≡ out.old.items ++ listed (map child_text (map (numbered_child numbers.now.nodes) children.now))) }
    ensures printable { OnOk result (All IsPrintableChild (map (numbered_child numbers.now.nodes) children.now)) }
{
    let Some((first, others)) = children.split_first() else {
        out.push(b'-')?;
        return Ok(());
    };
    push_child(out, *first, numbers)?;
    for child in others {
        out.push(b',')?;
        push_child(out, *child, numbers)?;
    }
    Ok(())
}

/// Appends `node DELTAS CHILDREN`, without a line end. Each child is named by its number among these.
pub fn push_node_line(
    alloc: Global,
    out: &mut Vec<u8>,
    deltas: &[Delta],
    children: &[(Letter, Node)],
    numbers: &NodeNumbers,
) -> Result<(), Memory>
    requires { All (λ (child : ℕ × ℕ). Contains numbers.now.nodes child.1) children.now }
    ensures ok { OnOk result (out.new.items ≡ out.old.items ++ node_line (numbered_row numbers.now.nodes (record { deltas = map text_delta deltas.now; children = children.now }))) }
    ensures printable { OnOk result (IsPrintable (numbered_row numbers.now.nodes (record { deltas = map text_delta deltas.now; children = children.now }))) }
{
    out.extend_from_slice(b"node ")?;
    push_deltas(alloc, out, deltas)?;
    out.push(b' ')?;
    push_children(out, children, numbers)
}
