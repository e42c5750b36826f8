ghost use Rattle.std.specs.Prelude.{◌≡◌, ◌<◌, ◌≤◌, [], ◌∷◌, ◌++◌, length, is_some, IfSome};
ghost use Rattle.text_definitions.specs.Longest.{spelling_of_letter};
ghost use Rattle.more_scheme_definitions.specs.HarvardKyoto.{harvard_kyoto_table};
ghost use Rattle.more_scheme_definitions.specs.Iast.{iast_table};
ghost use Rattle.more_schemes.specs.Schemes.{letter_in, front_in, table_in};

use super::{harvard_kyoto_front, iast_front};
use phoneme::Letter;

/// The schemes of this crate; each has one or several bytes for a letter, and is read by the longest spelling.
#[derive(Clone, Copy)]
pub enum Scheme {
    HarvardKyoto,
    Iast,
}

/// The spelling of each letter in Harvard-Kyoto, by code from 1.
static HARVARD_KYOTO: [&str; 50] = [
    "a", "A", "i", "I", "u", "U", "R", "RR", "lR", "e", "ai", "o", "au", "M", "~", "H", "k", "kh",
    "g", "gh", "G", "c", "ch", "j", "jh", "J", "T", "Th", "D", "Dh", "N", "t", "th", "d", "dh",
    "n", "p", "ph", "b", "bh", "m", "y", "r", "l", "v", "z", "S", "s", "h", "'",
];

/// The spelling of each letter in IAST, by code from 1.
static IAST: [&str; 50] = [
    "a", "ā", "i", "ī", "u", "ū", "ṛ", "ṝ", "ḷ", "e", "ai", "o", "au", "ṃ", "~", "ḥ", "k", "kh",
    "g", "gh", "ṅ", "c", "ch", "j", "jh", "ñ", "ṭ", "ṭh", "ḍ", "ḍh", "ṇ", "t", "th", "d", "dh",
    "n", "p", "ph", "b", "bh", "m", "y", "r", "l", "v", "ś", "ṣ", "s", "h", "'",
];

/// The letter that the longest spelling at the front of the text spells, and the length of this spelling in bytes.
pub fn front(scheme: Scheme, text: &[u8]) -> Option<(Letter, usize)>
    ensures value { result ≡ front_in scheme text.now }
    ensures length { IfSome result (λ found. (0 < found.1) × (found.1 ≤ length text.now)) }
{
    match scheme {
        Scheme::HarvardKyoto => harvard_kyoto_front::front(text),
        Scheme::Iast => iast_front::front(text),
    }
}

/// Whether the bytes with one more after them are a spelling.
pub fn is_lengthened(scheme: Scheme, spelling: &[u8], next: u8) -> bool
    requires { 0 < length spelling.now }
    ensures value { result ≡ is_some (letter_in scheme (spelling.now ++ next ∷ [])) }
{
    match scheme {
        Scheme::HarvardKyoto => harvard_kyoto_front::is_lengthened(spelling, next),
        Scheme::Iast => iast_front::is_lengthened(spelling, next),
    }
}

/// The scheme's spelling of the letter.
pub fn spelling(scheme: Scheme, letter: Letter) -> &'static str
    ensures value { result.now ≡ spelling_of_letter (table_in scheme) letter }
    ensures length { 0 < length result.now }
{
    match scheme {
        Scheme::HarvardKyoto => harvard_kyoto_spelling(letter),
        Scheme::Iast => iast_spelling(letter),
    }
}

/// The spelling of the letter in Harvard-Kyoto.
#[tactic(auto, unfolding(more_scheme_definitions::specs::HarvardKyoto::harvard_kyoto_table))]
fn harvard_kyoto_spelling(letter: Letter) -> &'static str
    ensures value { result.now ≡ spelling_of_letter harvard_kyoto_table letter }
    ensures length { 0 < length result.now }
{
    HARVARD_KYOTO[letter.code() as usize - 1]
}

/// The spelling of the letter in IAST.
#[tactic(auto, unfolding(more_scheme_definitions::proofs::IastTable::iast_bytes))]
fn iast_spelling(letter: Letter) -> &'static str
    ensures value { result.now ≡ spelling_of_letter iast_table letter }
    ensures length { 0 < length result.now }
{
    IAST[letter.code() as usize - 1]
}
