ghost use Rattle.std.specs.Prelude.{◌<◌, length, IfSome, OnOk};
ghost use Rattle.summary_chart.specs.AlikeFronts.{DoAlike, front_at};
ghost use Rattle.summary_chart.specs.Levels.{IsUnited};

use super::alike::{AlikeFront, do_alike};
use super::site::{Front, Site};
use phoneme::Memory;
use shared_trie::Node;

/// So many seats there are, each for the fronts at some nodes.
const SEATS: usize = 64;

/// The seat of the fronts at the node, below `SEATS`.
fn seat_of(node: Node) -> usize {
    (node.number().wrapping_mul(0x9E37_79B1) >> 26) as usize
}

/// The number of a front, counted from 0, from which on forms do what they do from this one. It may miss one that is not the last at its seat.
fn find_alike(
    site: Site<'_>,
    front: &Front,
    fronts: &[AlikeFront],
    seats: &[usize],
) -> Option<usize>
    ensures { let site = site.entry in IfSome result (λ number. (number < length fronts.now) × DoAlike site.lexicon.now site.choices.now (front_at fronts.now number).front front.now) }
{
    let number = *seats.get(seat_of(front.node))?;
    let known = fronts.get(number)?;
    if do_alike(site, &known.front, front) {
        Some(number)
    } else {
        None
    }
}

/// Lets the front with this number be the last at the seat of its node. Refused only for want of memory.
fn sit_down(node: Node, number: usize, seats: &mut Vec<usize>) -> Result<(), Memory> {
    if seats.is_empty() {
        seats.resize(SEATS, 0)?;
    }
    if let Some(seat) = seats.get_mut(seat_of(node)) {
        *seat = number;
    }
    Ok(())
}

/// Puts the states to one of the fronts from which on forms do the same; or puts the front with them after the others. The seats tell which of
/// the fronts is looked at: for the fronts at some nodes the last of them. Refused only for want of memory.
pub(crate) fn add_longer(
    site: Site<'_>,
    one: AlikeFront,
    fronts: &mut Vec<AlikeFront>,
    seats: &mut Vec<usize>,
) -> Result<(), Memory>
    ensures { let site = site.entry in OnOk result (IsUnited site.lexicon.now site.choices.now fronts.old.items one fronts.new.items) }
{
    let front = one.front;
    match find_alike(site, &front, fronts.as_slice(), seats.as_slice()) {
        Some(number) => {
            let known = fronts[number];
            fronts[number] = AlikeFront {
                front: known.front,
                states: known.states.union(one.states),
            };
        }
        None => {
            let number = fronts.len();
            sit_down(front.node, number, seats)?;
            fronts.push(one)?;
        }
    }
    Ok(())
}
