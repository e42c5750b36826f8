ghost use Rattle.std.specs.Prelude.{◌≡◌, ◌+◌, ◌<◌, ◌^◌, [], ◌∷◌, ◌++◌, length, Contains, IfSome, OnOk, OnErr};

use super::known_lists::KnownLists;
use super::shortcuts::Shortcuts;
use phoneme::Memory;
use std::alloc::Global;
use std::marker::Model;

/// The numbers of lists of deltas that were made before, each by the numbers of its deltas in the order in which they came. A list of one
/// delta alone is found at once; of the lists that are sought for the starter lexicon more than half are such.
#[derive(Drop)]
pub(crate) struct ListNumbers {
    known: KnownLists,
    /// The number of the list that has one delta alone, by the delta's number.
    alone: Shortcuts,
}

impl Model for ListNumbers {
    ghost use Rattle.std.specs.Prelude.{ℕ, List};
    ghost use Rattle.shared_trie.specs.KnownLists.{AreAlone};

    ghost Value = { List (List ℕ × ℕ) };

    ghost view = { λ l. l.known };

    ghost invariant = { λ l. AreAlone l.known l.alone };
}

impl ListNumbers {
    /// No lists. Takes no memory.
    pub(crate) fn new(alloc: Global) -> ListNumbers
        ensures { result ≡ [] }
    {
        ListNumbers {
            known: KnownLists::new(alloc),
            alone: Shortcuts::new(alloc),
        }
    }

    /// The number of the list of the deltas with these numbers, where it is known.
    pub(crate) fn find(&self, numbers: &[u32]) -> Option<u32>
        ensures { IfSome result (λ list. Contains self.now (numbers.now, list)) }
    {
        if let [number] = numbers {
            if let Some(list) = self.alone.get(*number) {
                return Some(list);
            }
        }
        self.known.find(numbers)
    }

    /// Makes the number of the list of the deltas with these numbers known.
    pub(crate) fn add(&mut self, numbers: &[u32], list: u32) -> Result<(), Memory>
        requires { length self.old + 1 < 2 ^ 32 }
        ensures ok { OnOk result (self.new ≡ self.old ++ (numbers.now, list) ∷ []) }
        ensures unchanged { OnErr result (self.new ≡ self.old) }
    {
        let [number] = numbers else {
            return self.known.add(numbers, list);
        };
        self.alone.make_room(*number)?;
        self.known.add(numbers, list)?;
        self.alone.set(*number, list);
        Ok(())
    }
}
