use form_tags::Tag;
use phoneme::Word;

/// A row of a paradigm table: the tag of its forms and their phase, counted from 0; what is put before the stem; how many of
/// the stem's last letters are left out; and the ending, which is joined to the rest (own form).
#[derive(Drop, PartialEq, Eq, Hash)]
pub struct Row {
    pub tag: Tag,
    pub phase: u32,
    pub prefix: Word,
    pub cut: u32,
    pub ending: Word,
}
