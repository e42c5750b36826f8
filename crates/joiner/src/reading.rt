ghost use Rattle.std.specs.Prelude.{◌<◌, ◌^◌, length, Ok, IfOk, IfErr};
ghost use Rattle.chain_definitions.specs.ChainReadings.{IsChainRead};
ghost use Rattle.joiner.specs.Faults.{IsChainFault};

use crate::meeting::first_not_meeting;
use crate::naming::name_steps;
use crate::shape::read_steps;
use crate::shape_error::ShapeError;
use crate::{ChainError, ChainFault, ChainWhy, Link};
use annotated_trie::Lexicon;
use std::alloc::Global;

/// The chain that a text writes, which is a printed answer without its number (own). Otherwise the text's first fault: its
/// shape, with step 0; else what the first step at fault names, a phase, a form or a rule; else how the first step at fault
/// meets the next. Steps are counted from 1.
pub fn read_chain(alloc: Global, lexicon: &Lexicon, text: &[u8]) -> Result<Vec<Link>, ChainError>
    requires { length text.now < 2 ^ 28 }
    ensures ok { IfOk result (λ links. IsChainRead lexicon.now.lexicon text.now (Ok links.items)) }
    ensures fault { IfErr result (λ error. IsChainFault error lexicon.now.lexicon text.now) }
{
    let steps = match read_steps(alloc, text) {
        Ok(steps) => steps,
        Err(ShapeError::Shape) => {
            let step = 0;
            let why = ChainWhy::Shape;
            return Err(ChainError::Fault(ChainFault { step, why }));
        }
        Err(ShapeError::Memory) => return Err(ChainError::Memory),
    };
    let links = match name_steps(alloc, lexicon, steps) {
        Ok(links) => links,
        Err(error) => return Err(error),
    };
    match first_not_meeting(lexicon.rules(), links.as_slice()) {
        None => Ok(links),
        Some(fault) => Err(ChainError::Fault(fault)),
    }
}
