ghost use Rattle.std.specs.Prelude.{◌≡◌, ◌<◌, List, [], ◌∷◌, drop, length, map, IfOk, MatchOption};
ghost use Rattle.form_tags.specs.Analyses.{text_delta};
ghost use Rattle.trie_text_definitions.specs.NodeValues.{Suffix, suffixes_of};

use super::form_walk_level::Level;
use super::form_walk_moves::{go_down, next_node};
use super::{Node, Store};
use form_tags::Delta;
use phoneme::{Letter, Memory};
use std::alloc::Global;
use std::marker::Model;

/// A form, and how the stem of each of its analyses is made of it.
#[derive(Clone, Copy)]
pub struct WalkedForm<'a> {
    pub letters: &'a [Letter],
    /// Rising, and at least one.
    pub deltas: &'a [Delta],
}

/// A walk over the forms for which a node stands, one after another, rising. Its room is taken once, for the longest form.
/// Contracts see it as the list of the forms that are left, from that at which it stands on, each as a word with its deltas.
#[derive(Drop)]
pub struct FormWalk<'a> {
    store: &'a Store,
    /// The letters of the present form.
    letters: Vec<Letter>,
    /// The nodes on the way to the present form, from the first one to that of the form; none after the last form.
    levels: Vec<Level>,
}

impl<'a> Model for FormWalk<'a> {
    ghost use Rattle.std.specs.Prelude.{List, reverse, vec_capacity};
    ghost use Rattle.lexicon_definitions.specs.Tries.{AreRows};
    ghost use Rattle.trie_text_definitions.specs.NodeValues.{Suffix};
    ghost use Rattle.shared_trie.specs.FormWalks.{IsAtForm, forms_left};

    ghost Value = { List Suffix };

    ghost view = { λ w. forms_left w.store.now.rows w.letters.items (reverse w.levels.items) };

    ghost invariant = { λ w. AreRows w.store.now.rows
        × IsAtForm w.store.now.rows w.letters.items (reverse w.levels.items) (vec_capacity w.letters) (vec_capacity w.levels) };
}

impl<'a> FormWalk<'a> {
    /// A walk that stands at the first form of the node. Refused only for want of memory.
    pub fn new(alloc: Global, store: &'a Store, node: Node) -> Result<FormWalk<'a>, Memory>
        requires { node < length store.now.rows }
        ensures ok { IfOk result (λ walk. walk ≡ suffixes_of store.now.rows node) }
    {
        let most = store.height(node) as usize;
        let mut letters = Vec::with_capacity(alloc, most)?;
        let mut levels = Vec::with_capacity(alloc, most + 1)?;
        let children = store.children_of(node);
        if !store.accepts(node) && children.is_empty() {
            return Ok(FormWalk {
                store,
                letters,
                levels,
            });
        }
        go_down(store, &mut letters, &mut levels, node);
        Ok(FormWalk {
            store,
            letters,
            levels,
        })
    }

    /// The form at which the walk stands. `None` after the last form.
    pub fn current(&self) -> Option<WalkedForm<'_>>
        ensures { MatchOption result (self.now ≡ []) (λ form. (left : List Suffix)
            × (self.now ≡ record { word = form.letters.now; deltas = map text_delta form.deltas.now } ∷ left)) }
    {
        let Some(level) = self.levels.last() else {
            return None;
        };
        Some(WalkedForm {
            letters: self.letters.as_slice(),
            deltas: self.store.deltas(level.node),
        })
    }

    /// Goes on to the next form. Takes no memory.
    pub fn advance(&mut self)
        ensures { self.new ≡ drop 1 self.old }
    {
        let Some(node) = next_node(self.store, &mut self.letters, &mut self.levels) else {
            return;
        };
        go_down(self.store, &mut self.letters, &mut self.levels, node);
    }
}
