ghost use Rattle.std.specs.Prelude.{◌≡◌};
ghost use Rattle.shared_trie.specs.Hashes.{folded as folded_of, hash_of, mixed as mixed_of};

use super::Node;
use form_tags::Tag;
use phoneme::Letter;

/// An odd number whose bits are spread: 2 to the 64, divided by the golden ratio.
const SPREAD: u64 = 0x9E37_79B9_7F4A_7C15;

/// A hash with one part more.
fn mixed(hash: u64, part: u64) -> u64
    ensures { result ≡ mixed_of hash part }
{
    hash.wrapping_add(part).wrapping_mul(SPREAD)
}

/// A hash in half as many bits: both halves laid over each other, since `mixed` spreads the bits of each half alone less.
fn folded(hash: u64) -> u32
    ensures { result ≡ folded_of hash }
{
    ((hash >> 32) ^ (hash & 0xFFFF_FFFF)) as u32
}

/// The hash of a row with this list of deltas, by its number, and these children.
pub(crate) fn hash_row(list: u32, children: &[(Letter, Node)]) -> u32
    ensures { result ≡ hash_of list children.now }
{
    let mut hash = mixed(0, u64::from(list));
    for child in children {
        let part = 64 * u64::from(child.1.number()) + u64::from(child.0.code());
        hash = mixed(hash, part);
    }
    folded(hash)
}

/// A hash of some numbers.
pub(crate) fn hash_numbers(numbers: &[u32]) -> u32 {
    let mut hash = 0;
    for number in numbers {
        hash = mixed(hash, u64::from(*number));
    }
    folded(hash)
}

/// A number of the tag, which some tags share.
fn number_of_tag(tag: &Tag) -> u64 {
    match tag {
        Tag::Nominal {
            gender,
            number,
            gcase,
        } => 64 * (*gender as u64) + 8 * (*number as u64) + *gcase as u64,
        Tag::Verbal {
            tense,
            voice,
            person,
            number,
        } => {
            1024 * (*tense as u64)
                + 256 * (*voice as u64)
                + 16 * (*person as u64)
                + *number as u64
                + 512
        }
        Tag::Iic => 1001,
        Tag::Pv => 1002,
        Tag::Ind => 1003,
    }
}

/// A hash of the delta with these parts.
pub(crate) fn hash_delta(cut: u32, append: &[Letter], tag: &Tag) -> u32 {
    let mut hash = mixed(mixed(0, number_of_tag(tag)), u64::from(cut));
    for letter in append {
        hash = mixed(hash, u64::from(letter.code()));
    }
    folded(hash)
}
