ghost use Rattle.std.specs.Prelude.{◌≡◌, ◌≤◌, length, IfOk};
ghost use Rattle.search_frames.specs.declared.cursor.Cursor.TheVariants as cursor;
ghost use Rattle.search_frames.specs.Stacks.{IsStack, depth_of, cursor_in, room_of};

use super::{Cursor, Frame, NODES_OF_FRAME, Resumption};
use annotated_trie::Lexicon;
use derivation::{Entrance, Step};
use phoneme::Memory;
use std::alloc::Global;

/// So many copies of the value, which are written all at once.
fn filled<T: Copy>(alloc: Global, value: T, count: usize) -> Result<Vec<T>, Memory>
    ensures { IfOk result (λ filled. length filled.items ≡ count) }
{
    let mut filled = Vec::new(alloc);
    filled.resize(count, value)?;
    Ok(filled)
}

/// What stands in a room that is not in use.
fn blank_step() -> Step {
    Step {
        phase: 0,
        rule: 0,
        at: 0,
        lead: 0,
        taken: 0,
    }
}

/// The same of frames.
fn blank_frame(lexicon: &Lexicon) -> Frame {
    Frame {
        entrance: Entrance::Start,
        state: lexicon.automaton().start(),
    }
}

/// A stack with room for so many frames, of which none is in use; it stands before the first answer. Refused only for want of
/// memory.
pub fn new_stack(alloc: Global, lexicon: &Lexicon, room: usize) -> Result<Resumption, Memory>
    ensures cursor { IfOk result (λ stack. cursor_in stack ≡ cursor.Before) }
    ensures empty { IfOk result (λ stack. depth_of stack ≡ 0) }
    ensures room { IfOk result (λ stack. room_of stack ≡ room) }
    ensures is_stack { IfOk result IsStack }
{
    // The proof knows that there is a phase only of a lexicon whose rules are read.
    let _rules = lexicon.rules();
    let node = lexicon.tries().store().root(0);
    Ok(Resumption {
        cursor: Cursor::Before,
        depth: 0,
        steps: filled(alloc, blank_step(), room)?,
        frames: filled(alloc, blank_frame(lexicon), room)?,
        nodes: filled(alloc, node, NODES_OF_FRAME)?,
    })
}

/// The stack, once it has room for at least so many frames, none in use, and stands before the first answer. What room it has it keeps.
/// Refused only for want of memory.
pub fn renewed_stack(
    stack: Resumption,
    lexicon: &Lexicon,
    room: usize,
) -> Result<Resumption, Memory>
    requires { IsStack stack }
    ensures cursor { IfOk result (λ stack. cursor_in stack ≡ cursor.Before) }
    ensures empty { IfOk result (λ stack. depth_of stack ≡ 0) }
    ensures room { IfOk result (λ stack. room ≤ room_of stack) }
    ensures is_stack { IfOk result IsStack }
{
    let mut stack = stack;
    if stack.frames.len() < room {
        stack.steps.resize(room, blank_step())?;
        stack.frames.resize(room, blank_frame(lexicon))?;
    }
    stack.cursor = Cursor::Before;
    stack.depth = 0;
    Ok(stack)
}
