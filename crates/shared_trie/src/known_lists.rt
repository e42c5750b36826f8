ghost use Rattle.std.specs.Prelude.{◌≡◌, ◌+◌, ◌<◌, ◌^◌, [], ◌∷◌, ◌++◌, length, Contains, IfSome, OnOk, OnErr};

use super::chains::Chains;
use super::hashes::hash_numbers;
use phoneme::Memory;
use std::alloc::Global;
use std::marker::Model;

/// The numbers of lists of deltas that were made before, each by the numbers of its deltas in the order in which they came.
#[derive(Drop)]
pub(crate) struct KnownLists {
    known: Vec<KnownList>,
    /// The numbers of the deltas of all lists, one list's after another's.
    numbers: Vec<u32>,
    chains: Chains,
}

/// Where the numbers of some deltas stand among those of all lists, and the number of their list.
#[derive(Clone, Copy)]
struct KnownList {
    /// The place of the first number.
    first: usize,
    /// The place after the last one.
    end: usize,
    list: u32,
}

impl Model for KnownLists {
    ghost use Rattle.std.specs.Prelude.{◌≡◌, ℕ, List, length, map, All};
    ghost use Rattle.shared_trie.specs.KnownLists.{IsKnownIn, known_in};

    ghost Value = { List (List ℕ × ℕ) };

    ghost view = { λ l. map (known_in l.numbers.items) l.known.items };

    ghost invariant = { λ l. (length l.chains ≡ length l.known.items) × All (IsKnownIn l.numbers.items) l.known.items };
}

impl KnownLists {
    /// No lists. Takes no memory.
    pub(crate) fn new(alloc: Global) -> KnownLists
        ensures { result ≡ [] }
    {
        KnownLists {
            known: Vec::new(alloc),
            numbers: Vec::new(alloc),
            chains: Chains::new(alloc),
        }
    }

    /// The number of the list of the deltas with these numbers, where it is known.
    pub(crate) fn find(&self, numbers: &[u32]) -> Option<u32>
        ensures { IfSome result (λ list. Contains self.now (numbers.now, list)) }
    {
        let hash = hash_numbers(numbers);
        let mut found = self.chains.last_with(hash, None);
        while let Some(number) = found {
            let known = self.known[number as usize];
            if &self.numbers[known.first..known.end] == numbers {
                return Some(known.list);
            }
            found = self.chains.last_with(hash, Some(number));
        }
        None
    }

    /// Makes the number of the list of the deltas with these numbers known.
    pub(crate) fn add(&mut self, numbers: &[u32], list: u32) -> Result<(), Memory>
        requires { length self.old + 1 < 2 ^ 32 }
        ensures ok { OnOk result (self.new ≡ self.old ++ (numbers.now, list) ∷ []) }
        ensures unchanged { OnErr result (self.new ≡ self.old) }
    {
        self.known.reserve(1)?;
        self.numbers.reserve(numbers.len())?;
        self.chains.push(hash_numbers(numbers))?;
        // There is room for all, so that no want of memory comes between them.
        let first = self.numbers.len();
        let Ok(()) = self.numbers.extend_from_slice(numbers) else {
            unreachable!();
        };
        let known = KnownList {
            first,
            end: self.numbers.len(),
            list,
        };
        let Ok(()) = self.known.push(known) else {
            unreachable!();
        };
        Ok(())
    }
}
