ghost use Rattle.std.specs.Prelude.{◌≡◌, ◌<◌, ◌++◌, ◌∷◌, [], length, slice_index_or, IfOk, OnOk};

use phoneme::Memory;
use std::alloc::Global;
use std::marker::Model;

/// Lists of rules, by their numbers, one after another in one array.
#[derive(Drop)]
pub(crate) struct RuleLists {
    rules: Vec<u32>,
    /// Where each list begins, and where the last one ends. They count in `usize`, since the lists together may have more rules
    /// than a `u32` can tell.
    bounds: Vec<usize>,
}

impl Model for RuleLists {
    ghost use Rattle.std.specs.Prelude.{ℕ, List, length};
    ghost use Rattle.annotated_trie.specs.RuleGroups.{AreBounds, parts_of};

    ghost Value = { List (List ℕ) };

    ghost view = { λ l. parts_of l.rules.items l.bounds.items };

    ghost invariant = { λ l. AreBounds (length l.rules.items) l.bounds.items };
}

impl RuleLists {
    /// No lists.
    pub(crate) fn new(alloc: Global) -> Result<RuleLists, Memory>
        ensures ok { IfOk result (λ lists. lists ≡ []) }
    {
        let mut bounds = Vec::new(alloc);
        bounds.push(0)?;
        Ok(RuleLists {
            rules: Vec::new(alloc),
            bounds,
        })
    }

    /// Adds a list after the others.
    pub(crate) fn push(&mut self, list: &[u32]) -> Result<(), Memory>
        ensures ok { OnOk result (self.new ≡ self.old ++ list.now ∷ []) }
    {
        // Room for the bound comes first: where memory is wanting, no rules are left without it.
        self.bounds.reserve(1)?;
        self.rules.extend_from_slice(list)?;
        self.bounds.push(self.rules.len())?;
        Ok(())
    }

    /// The list at the place, counted from 0.
    pub(crate) fn get(&self, place: usize) -> &[u32]
        requires { place < length self.now }
        ensures { result.now ≡ slice_index_or self.now place [] }
    {
        let start = self.bounds[place];
        let stop = self.bounds[place + 1];
        &self.rules[start..stop]
    }
}
