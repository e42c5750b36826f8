ghost use Rattle.std.specs.Prelude.{◌≡◌, ◌<◌, ℕ, [], length, slice_index_or, slice_set, None, Some, OnOk};

use phoneme::Memory;
use std::alloc::Global;
use std::marker::Model;

/// Numbers by numbers, their keys, each of which is found at once. Contracts see it as a list that has at each key its number, or none.
#[derive(Drop)]
pub(crate) struct Shortcuts {
    numbers: Vec<Option<u32>>,
}

impl Model for Shortcuts {
    ghost use Rattle.std.specs.Prelude.{List, Option, ℕ};

    ghost Value = { List (Option ℕ) };

    ghost view = { λ s. s.numbers.items };
}

impl Shortcuts {
    /// No numbers. Takes no memory.
    pub(crate) fn new(alloc: Global) -> Shortcuts
        ensures { result ≡ [] }
    {
        Shortcuts {
            numbers: Vec::new(alloc),
        }
    }

    /// The number of the key, where it has one.
    pub(crate) fn get(&self, key: u32) -> Option<u32>
        ensures { result ≡ slice_index_or self.now key None }
    {
        let key = key as usize;
        if key < self.numbers.len() {
            self.numbers[key]
        } else {
            None
        }
    }

    /// Takes room for the number of the key. Refused only for want of memory.
    pub(crate) fn make_room(&mut self, key: u32) -> Result<(), Memory>
        ensures same { (k : ℕ) → slice_index_or self.new k None ≡ slice_index_or self.old k None }
        ensures room { OnOk result (key < length self.new) }
    {
        let key = key as usize;
        if self.numbers.len() <= key {
            self.numbers.resize(key + 1, None)?;
        }
        Ok(())
    }

    /// Gives the key its number, for which room was taken.
    pub(crate) fn set(&mut self, key: u32, number: u32)
        requires { key < length self.old }
        ensures { self.new ≡ slice_set self.old key (Some number) }
    {
        self.numbers[key as usize] = Some(number);
    }
}
