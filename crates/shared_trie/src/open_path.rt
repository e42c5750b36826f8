ghost use Rattle.std.specs.Prelude.{◌≡◌, ◌+◌, ◌<◌, ◌≤◌, [], ◌∷◌, ◌++◌, length, replicate, slice_set, IfOk, OnOk};
ghost use Rattle.lexicon_definitions.specs.declared.limits.TheConstants.{MOST_FORM_LETTERS};
ghost use Rattle.shared_trie.specs.OpenPaths.{no_row, path_row};

use super::Node;
use lexicon_definitions::MOST_FORM_LETTERS;
use phoneme::{Letter, Memory};
use std::alloc::Global;
use std::marker::Model;

/// The rows that may still get children: for each length the row of the last form's front with so many letters.
#[derive(Drop)]
pub(crate) struct OpenPath {
    rows: Vec<OpenRow>,
}

/// A row by the number of its list of deltas, and its children so far. The memory of its children is used again.
#[derive(Drop)]
struct OpenRow {
    list: u32,
    children: Vec<(Letter, Node)>,
}

impl Model for OpenPath {
    ghost use Rattle.std.specs.Prelude.{◌≡◌, ◌+◌, List, length};
    ghost use Rattle.lexicon_definitions.specs.declared.limits.TheConstants.{MOST_FORM_LETTERS};
    ghost use Rattle.shared_trie.specs.OpenPaths.{PathRow};
    ghost use Rattle.shared_trie.specs.OpenRows.{path_of};

    ghost Value = { List PathRow };

    ghost view = { λ p. path_of p.rows.items };
}

impl OpenPath {
    /// Empty rows for all fronts that a form can have.
    pub(crate) fn new(alloc: Global) -> Result<OpenPath, Memory>
        ensures { IfOk result (λ path. path ≡ replicate (MOST_FORM_LETTERS + 1) no_row) }
    {
        let mut rows = Vec::with_capacity(alloc, MOST_FORM_LETTERS + 1)?;
        for _ in 0..MOST_FORM_LETTERS + 1 {
            let children = Vec::new(alloc);
            rows.push(OpenRow { list: 0, children })?;
        }
        Ok(OpenPath { rows })
    }

    /// The number of the row's list of deltas.
    pub(crate) fn list(&self, depth: usize) -> u32
        requires { depth < length self.now }
        ensures { result ≡ (path_row self.now depth).list }
    {
        let row = &self.rows[depth];
        row.list
    }

    /// The row's children so far, rising by their letters.
    pub(crate) fn children(&self, depth: usize) -> &[(Letter, Node)]
        requires { depth < length self.now }
        ensures { result.now ≡ (path_row self.now depth).children }
    {
        let row = &self.rows[depth];
        row.children.as_slice()
    }

    /// Gives the row this list of deltas.
    pub(crate) fn set_list(&mut self, depth: usize, list: u32)
        requires { depth < length self.old }
        ensures { self.new ≡ slice_set self.old depth (record { list = list; children = (path_row self.old depth).children }) }
    {
        let row = &mut self.rows[depth];
        row.list = list;
    }

    /// Gives the row one child more. Where memory is wanting nothing is said of the row.
    pub(crate) fn push_child(
        &mut self,
        depth: usize,
        letter: Letter,
        node: Node,
    ) -> Result<(), Memory>
        requires { depth < length self.old }
        ensures { OnOk result (self.new ≡ slice_set self.old depth (record { list = (path_row self.old depth).list; children = (path_row self.old depth).children ++ (letter, node) ∷ [] })) }
    {
        let row = &mut self.rows[depth];
        row.children.push((letter, node))?;
        Ok(())
    }

    /// Empties the row.
    pub(crate) fn clear(&mut self, depth: usize)
        requires { depth < length self.old }
        ensures { self.new ≡ slice_set self.old depth no_row }
    {
        let row = &mut self.rows[depth];
        row.list = 0;
        row.children.clear();
    }
}
