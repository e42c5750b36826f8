ghost use Rattle.std.specs.Prelude.{◌≡◌};

use std::marker::Model;

/// A node of a store, by its number, counted from 0: the place of its row in the store.
#[derive(Clone, Copy, PartialEq, Eq, Hash)]
pub struct Node {
    number: u32,
}

impl Model for Node {
    ghost use Rattle.std.specs.Prelude.{ℕ};

    ghost Value = { ℕ };

    ghost view = { λ n. n.number };

    ghost inverse = { λ n. record { number = n } };
}

impl Node {
    /// The node with this number, counted from 0, of whatever store.
    pub fn new(number: u32) -> Node
        ensures { result ≡ number }
    {
        Node { number }
    }

    /// The node's number, counted from 0.
    pub fn number(self) -> u32
        ensures { result ≡ self }
    {
        self.number
    }
}
