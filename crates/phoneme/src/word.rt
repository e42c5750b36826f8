ghost use Rattle.std.specs.Prelude.{◌≡◌, ◌↔◌, [], ◌∷◌, ◌++◌, length, nat_eq, Some, IsTrue, OnOk, OnErr, IfOk, refl};
ghost use Rattle.std.specs.Cmp.{partial_equiv_from_equiv};
ghost use Rattle.std.specs.Cmp.Lexicographic.{pointwise, nat_list_eq_equiv, nat_list_cmp_total, texts_po, texts_ties};
ghost use Rattle.std.specs.Cmp.Rules.{hashing};
ghost use Rattle.std.specs.Hash as fed;
ghost use Rattle.std.proofs.Common.{rules};
ghost use Rattle.text_definitions.specs.Words.{IsWord, compare_words};

use super::{Letter, Memory};
use std::alloc::Global;
use std::cmp::Ordering;
use std::hash::{Hash, Hasher};
use std::marker::Model;

/// A word: letters in the order in which they are spoken (after Huet 2005).
#[derive(Drop)]
pub struct Word {
    letters: Vec<Letter>,
}

impl Model for Word {
    ghost use Rattle.std.specs.Prelude.{ℕ, List};
    ghost use Rattle.text_definitions.specs.Words.{IsWord};

    ghost Value = { List ℕ };

    ghost view = { λ w. w.letters.items };

    ghost invariant = { λ w. IsWord w.letters.items };
}

/// Does nothing. The proof knows that letters have codes from 1 to 50 only of those that are read.
fn tell_letters(letters: &[Letter])
    ensures { IsWord letters.now }
{
    for letter in letters {
        let _code = letter.code();
    }
}

impl Word {
    /// The word without letters. Takes no memory.
    pub fn new(alloc: Global) -> Word
        ensures { result ≡ [] }
    {
        Word {
            letters: Vec::new(alloc),
        }
    }

    /// The word without letters, with room for so many. Refused only for want of memory.
    pub fn with_capacity(alloc: Global, capacity: usize) -> Result<Word, Memory>
        ensures { IfOk result (λ word. word ≡ []) }
    {
        Ok(Word {
            letters: Vec::with_capacity(alloc, capacity)?,
        })
    }

    /// The word with these letters.
    pub fn from_slice(alloc: Global, letters: &[Letter]) -> Result<Word, Memory>
        ensures ok { IfOk result (λ word. word ≡ letters.now) }
    {
        let mut word = Word::new(alloc);
        word.extend_from_slice(letters)?;
        Ok(word)
    }

    /// Takes all letters out, and keeps the memory.
    pub fn clear(&mut self)
        ensures { self.new ≡ [] }
    {
        self.letters.clear();
    }

    /// Appends a letter. Refused only for want of memory, and then the word is as it was.
    pub fn push(&mut self, letter: Letter) -> Result<(), Memory>
        ensures ok { OnOk result (self.new ≡ self.old ++ letter ∷ []) }
        ensures unchanged { OnErr result (self.new ≡ self.old) }
    {
        self.letters.push(letter)?;
        Ok(())
    }

    /// Appends letters. Refused only for want of memory, and then the word is as it was.
    pub fn extend_from_slice(&mut self, letters: &[Letter]) -> Result<(), Memory>
        ensures ok { OnOk result (self.new ≡ self.old ++ letters.now) }
        ensures unchanged { OnErr result (self.new ≡ self.old) }
    {
        tell_letters(letters);
        self.letters.extend_from_slice(letters)?;
        Ok(())
    }

    /// The letters, from the first on.
    pub fn as_slice(&self) -> &[Letter]
        ensures value { result.now ≡ self.now }
        ensures word { IsWord self.now }
    {
        self.letters.as_slice()
    }

    /// The number of letters.
    pub fn len(&self) -> usize
        ensures value { result ≡ length self.now }
        ensures word { IsWord self.now }
    {
        self.letters.len()
    }

    /// Whether the word has no letter.
    pub fn is_empty(&self) -> bool
        ensures { IsTrue result ↔ self.now ≡ [] }
    {
        self.letters.is_empty()
    }

    /// The same word, in memory of its own.
    pub fn copy(&self, alloc: Global) -> Result<Word, Memory>
        ensures { IfOk result (λ word. word ≡ self.now) }
    {
        Ok(Word {
            letters: Vec::from_slice(alloc, self.letters.as_slice())?,
        })
    }

    /// The order of words: letter by letter by code, a proper prefix being smaller.
    pub fn compare(&self, other: &Word) -> Ordering
        ensures { result ≡ compare_words self.now other.now }
    {
        compare_letters(self.as_slice(), other.as_slice())
    }
}

/// The order of words, for letters that stand in a list: letter by letter by code, a proper prefix being smaller.
pub fn compare_letters(left: &[Letter], right: &[Letter]) -> Ordering
    ensures { result ≡ compare_words left.now right.now }
{
    left.cmp(&right)
}

impl PartialEq for Word {
    ghost eq = { pointwise nat_eq };

    ghost laws = { partial_equiv_from_equiv nat_list_eq_equiv };

    fn eq(&self, other: &Word) -> bool {
        self.as_slice() == other.as_slice()
    }
}

impl Eq for Word {
    ghost laws = { nat_list_eq_equiv };
}

impl PartialOrd for Word {
    ghost partial_cmp = { λ left right. Some (compare_words left right) };

    ghost laws = { texts_po };

    fn partial_cmp(&self, other: &Word) -> Option<Ordering> {
        Some(self.cmp(other))
    }
}

impl Ord for Word {
    ghost cmp = { compare_words };

    ghost total = { nat_list_cmp_total };

    ghost matches_partial_cmp = { λ left right. refl };

    ghost matches_eq = { texts_ties };

    fn cmp(&self, other: &Word) -> Ordering {
        self.compare(other)
    }
}

impl Hash for Word {
    ghost hash_input = { fed.slice fed.u8 };

    ghost respects_eq = { Prim.search (hashing, rules) };

    fn hash<H: Hasher>(&self, state: &mut H) {
        self.as_slice().hash(state);
    }
}
