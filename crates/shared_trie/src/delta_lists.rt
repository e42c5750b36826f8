ghost use Rattle.std.specs.Prelude.{◌≡◌, ◌+◌, ◌<◌, ◌≤◌, ◌^◌, length, map, IfOk, OnErr};
ghost use Rattle.form_tags.specs.Analyses.{text_delta};
ghost use Rattle.shared_trie.specs.Packed.{AddsLists, AreApart, IsNumberOf};

use form_tags::Delta;
use indexmap::IndexSet;
use phoneme::Memory;

/// The number of the list among these lists, counted from 1, and 0 for the empty list. It is added where it is not there.
pub(crate) fn number_list(
    lists: &mut IndexSet<Vec<Delta>>,
    deltas: Vec<Delta>,
) -> Result<u32, Memory>
    requires { length lists.old.keys + 1 < 2 ^ 32 }
    ensures grown { AddsLists lists.old.keys lists.new.keys }
    ensures unchanged { OnErr result (lists.new.keys ≡ lists.old.keys) }
    ensures apart { AreApart lists.old.keys → AreApart lists.new.keys }
    ensures ok { IfOk result (λ number. IsNumberOf lists.new.keys (map text_delta deltas.items) number) }
{
    if deltas.is_empty() {
        return Ok(0);
    }
    let Ok((place, _is_new)) = lists.insert_full(deltas) else {
        return Err(Memory);
    };
    Ok(place as u32 + 1)
}
