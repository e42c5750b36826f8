ghost use Rattle.std.specs.Prelude.{◌≡◌};
ghost use Rattle.annotation.specs.declared.read_error.ReadNoteError.TheVariants.{Fault as ErrorFault, Memory as ErrorMemory};

use phoneme::Memory;
use std::alloc::{AllocError, AllocFailed};
use thiserror::Error;

/// Why bytes are not read as a note over a lexicon. The first reason in this order counts.
#[derive(Clone, Copy, Debug, Error)]
pub enum NoteWhy {
    #[error("not a JSON text")]
    Json,
    #[error("not the members of a note")]
    Shape,
    #[error("not a line")]
    Text,
    #[error("a choice that the lexicon can't have, or too many choices")]
    Choice,
    #[error("no answer, or several answers")]
    NotOnly,
    #[error("not what the note of the answer says")]
    Segments,
}

/// Why no note was read: the first fault of the bytes, or want of memory.
#[derive(Clone, Copy, Debug, Error)]
pub enum ReadNoteError {
    #[error(transparent)]
    Fault(NoteWhy),
    #[error("out of memory")]
    Memory,
}

impl From<NoteWhy> for ReadNoteError {
    ghost from_gives = { λ why e. e ≡ ErrorFault why };

    fn from(why: NoteWhy) -> ReadNoteError {
        ReadNoteError::Fault(why)
    }
}

impl From<Memory> for ReadNoteError {
    ghost from_gives = { λ _ e. e ≡ ErrorMemory };

    fn from(_refused: Memory) -> ReadNoteError {
        ReadNoteError::Memory
    }
}

impl From<AllocError> for ReadNoteError {
    ghost from_gives = { λ _ e. e ≡ ErrorMemory };

    fn from(_refused: AllocError) -> ReadNoteError {
        ReadNoteError::Memory
    }
}

impl<T: Drop> From<AllocFailed<T>> for ReadNoteError {
    ghost from_gives = { λ _ e. e ≡ ErrorMemory };

    fn from(_refused: AllocFailed<T>) -> ReadNoteError {
        ReadNoteError::Memory
    }
}
