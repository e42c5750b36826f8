ghost use Rattle.std.specs.Prelude.{◌≡◌, ◌<◌, ◌*◌, length, IfOk, OnOk};
ghost use Rattle.std.specs.List.{flat_map};
ghost use Rattle.demo_definitions.specs.declared.limits.TheConstants.{STEM_DRAWS as STEM_DRAWS_NUMBER};
ghost use Rattle.demo_definitions.specs.Draws.{next_seed, seed_after};
ghost use Rattle.demo_definitions.specs.DrawnStems.{letter_drawn, stem_drawn, stems_drawn};
ghost use Rattle.demo_definitions.specs.SourceTexts.{stem_record};

use crate::draws::Draws;
use demo_definitions::STEM_DRAWS;
use indexmap::IndexSet;
use phoneme::Memory;
use std::alloc::Global;

/// A stem in SLP1: five drawn letters and `a`.
pub(crate) type StemText = [u8; 6];

const CONSONANTS: &[u8] = b"kgcjtdpbmy";

const VOWELS: &[u8] = b"aiu";

/// One of the letters, of which there is one at least.
fn draw_letter(draws: &mut Draws, letters: &[u8]) -> u8
    requires { 0 < length letters.now }
    ensures letter { result ≡ letter_drawn letters.now draws.old }
    ensures seed { draws.new ≡ next_seed draws.old }
{
    letters[draws.draw(letters.len())]
}

/// A stem, from five draws.
fn draw_stem(draws: &mut Draws) -> StemText
    ensures stem { result ≡ stem_drawn draws.old }
    ensures seed { draws.new ≡ seed_after draws.old 5 }
{
    let first = draw_letter(draws, CONSONANTS);
    let second = draw_letter(draws, VOWELS);
    let third = draw_letter(draws, CONSONANTS);
    let fourth = draw_letter(draws, VOWELS);
    let fifth = draw_letter(draws, CONSONANTS);
    [first, second, third, fourth, fifth, b'a']
}

/// The different stems among `STEM_DRAWS` that are drawn, in the order in which they first come.
pub(crate) fn draw_stems(alloc: Global, draws: &mut Draws) -> Result<IndexSet<StemText>, Memory>
    ensures stems { IfOk result (λ stems. stems.keys ≡ stems_drawn draws.old STEM_DRAWS_NUMBER) }
    ensures seed { OnOk result (draws.new ≡ seed_after draws.old (5 * STEM_DRAWS_NUMBER)) }
{
    let mut stems = IndexSet::new(alloc);
    for _ in 0..STEM_DRAWS {
        stems.insert(draw_stem(draws))?;
    }
    Ok(stems)
}

/// The stem file: a record for each stem, with its class.
pub(crate) fn stem_file(alloc: Global, stems: &[StemText]) -> Result<Vec<u8>, Memory>
    ensures ok { IfOk result (λ bytes. bytes.items ≡ flat_map stem_record stems.now) }
{
    let mut bytes = Vec::new(alloc);
    for stem in stems {
        bytes.extend_from_slice(stem)?;
        bytes.extend_from_slice(b",a\n")?;
    }
    Ok(bytes)
}
