/// The groups of the fifty letters, in the order of their codes (SLP1's letters).
#[derive(Clone, Copy)]
pub enum Group {
    Vowel,
    Mark,
    Guttural,
    Palatal,
    Lingual,
    Dental,
    Labial,
    Semivowel,
    Sibilant,
    Breath,
    Avagraha,
}
