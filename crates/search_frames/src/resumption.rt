ghost use Rattle.std.specs.Prelude.{IfOk};

use super::{Cursor, Frame};
use derivation::Step;
use phoneme::Memory;
use shared_trie::Node;
use std::alloc::Global;

/// The state of a backtracking search (after Huet 2005). `steps` and `frames` have one length, the room of the search, and
/// their first `depth` entries are in use. `nodes` is room for the nodes along a form (`NODES_OF_FRAME`).
#[derive(Drop)]
pub struct Resumption {
    pub(crate) cursor: Cursor,
    pub(crate) depth: u32,
    pub(crate) steps: Vec<Step>,
    pub(crate) frames: Vec<Frame>,
    pub(crate) nodes: Vec<Node>,
}

impl Resumption {
    ghost use Rattle.std.specs.Prelude.{◌≡◌, ◌<◌, ◌≤◌};
    ghost use Rattle.search_frames.specs.Copies.{IsCopyOf};
    ghost use Rattle.search_frames.specs.Stacks.{IsStack, depth_of, cursor_in, room_of, steps_in, with_depth, with_cursor};
    ghost use Rattle.search_frames.specs.Frames.{step_of};

    /// Where the search stands among its answers.
    pub fn cursor(&self) -> Cursor
        ensures { result ≡ cursor_in self.now }
    {
        self.cursor
    }

    /// How many frames are in use, one for each step of an answer.
    pub fn depth(&self) -> u32
        ensures { result ≡ depth_of self.now }
    {
        self.depth
    }

    /// The steps of the frames in use.
    pub fn steps(&self) -> &[Step]
        requires stack { IsStack self.now }
        requires within { depth_of self.now ≤ room_of self.now }
        ensures { result.now ≡ steps_in self.now }
    {
        &self.steps[..self.depth as usize]
    }

    /// The step of the frame at the level, counted from 0.
    pub fn step(&self, level: usize) -> Step
        requires stack { IsStack self.now }
        requires there { level < room_of self.now }
        ensures { result ≡ step_of self.now level }
    {
        self.steps[level]
    }

    /// Has the search stand there among its answers.
    pub fn stand_at(&mut self, cursor: Cursor)
        ensures { self.new ≡ with_cursor self.old cursor }
    {
        self.cursor = cursor;
    }

    /// Has so many frames be in use.
    pub fn use_frames(&mut self, depth: u32)
        ensures { self.new ≡ with_depth self.old depth }
    {
        self.depth = depth;
    }

    /// A copy that is kept apart from this one. Refused only for want of memory.
    pub fn copy(&self, alloc: Global) -> Result<Resumption, Memory>
        ensures ok { IfOk result (λ copy. IsCopyOf self.now copy) }
    {
        Ok(Resumption {
            cursor: self.cursor,
            depth: self.depth,
            steps: Vec::from_slice(alloc, self.steps.as_slice())?,
            frames: Vec::from_slice(alloc, self.frames.as_slice())?,
            nodes: Vec::from_slice(alloc, self.nodes.as_slice())?,
        })
    }
}
