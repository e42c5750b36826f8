ghost use Rattle.std.specs.Prelude.{◌≡◌, ℕ, ◌+◌, ◌-◌, ◌<◌, ◌≤◌, ◌⊎◌, List, [], ◌++◌, length, All, Contains, Some};
ghost use Rattle.lexicon_definitions.specs.Lexicons.{Form};
ghost use Rattle.lexicon_definitions.specs.Tries.{Row, AreRows, IsNodeAfter, HaveSameSuffixes, IsHeight, row_of, walk};

/// Nodes that stand for the same suffixes, with the same deltas, are one node.
pub fn nodes_are_told_by_suffixes()
    ensures { (rows : List Row) → AreRows rows → (left right : ℕ) → left < length rows → right < length rows
        → HaveSameSuffixes rows left right → left ≡ right }
{}

/// Where a word leads, the node stands for what follows the word in the forms.
pub fn walked_nodes_stand_for_what_follows()
    ensures { (rows : List Row) (forms : List Form) (front word : List ℕ) (node reached : ℕ) → IsNodeAfter rows forms front node
        → walk rows node word ≡ Some reached → IsNodeAfter rows forms (front ++ word) reached }
{}

/// A node has one height: 0 without children, and else 1 more than the greatest height of a child.
pub fn heights_are_those_of_children()
    ensures once { (rows : List Row) (node first second : ℕ) → IsHeight rows node first → IsHeight rows node second → first ≡ second }
    ensures above { (rows : List Row) (node height : ℕ) → IsHeight rows node height → AreRows rows → node < length rows
        → All (λ (child : ℕ × ℕ). (k : ℕ) → IsHeight rows child.1 k → k + 1 ≤ height) (row_of rows node).children }
    ensures greatest { (rows : List Row) (node height : ℕ) → IsHeight rows node height
        → (height ≡ 0) ⊎ ((child : ℕ × ℕ) × Contains (row_of rows node).children child × IsHeight rows child.1 (height - 1)) }
{}
