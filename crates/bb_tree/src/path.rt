//! The nodes on the way down a tree.
ghost use Rattle.std.specs.Prelude.{◌≤◌, length, vec_capacity};
ghost use Rattle.bb_machine.specs.declared.limits.TheConstants.{MAX_LEVELS};

use bb_machine::limits::MAX_LEVELS;
use bb_tape::Memory;
use std::alloc::Global;

/// An open node, and the rules still to be tried for its predecessors.
#[derive(Clone, Copy, Debug)]
pub(crate) struct Frame {
    /// The head's position.
    pub(crate) position: i64,
    pub(crate) state: u8,
    /// The cell's content before.
    pub(crate) before: u8,
    /// How many cells are known to be other than 0.
    pub(crate) nonzero_known: u16,
    /// The next rule to be tried.
    pub(crate) next: u16,
    /// The end of its rules.
    pub(crate) end: u16,
}

/// Room for the frames of a walk, reserved once.
#[derive(Drop)]
pub struct Path {
    frames: Vec<Frame>,
    depth: u64,
    ghost room: { depth ≤ vec_capacity frames },
    ghost within: { length frames.items ≤ depth },
    ghost few: { depth ≤ MAX_LEVELS },
}

impl Path {
    ghost use Rattle.std.specs.Prelude.{◌≡◌, ◌<◌, [], ◌∷◌, ◌++◌, IfOk, MatchOption};
    ghost use Rattle.bb_tree.specs.Path.{depth_of, frames_of};

    /// Reserves the room for walks of so many levels.
    pub fn new(alloc: Global, depth: u64) -> Result<Path, Memory>
        requires { depth ≤ MAX_LEVELS }
        ensures { IfOk result (λ path. depth_of path ≡ depth) }
    {
        match Vec::with_capacity(alloc, depth as usize) {
            Ok(frames) => Ok(Path { frames, depth }),
            Err(_) => Err(Memory),
        }
    }

    /// How many levels a walk may have.
    pub fn depth(&self) -> u64
        ensures { result ≡ depth_of self.now }
    {
        self.depth
    }

    /// How many frames it holds.
    #[inline]
    pub(crate) fn len(&self) -> u64
        ensures { result ≡ length (frames_of self.now) }
    {
        self.frames.len() as u64
    }

    pub(crate) fn clear(&mut self)
        ensures frames { frames_of self.new ≡ [] }
        ensures depth { depth_of self.new ≡ depth_of self.old }
    {
        self.frames.clear();
    }

    #[inline]
    pub(crate) fn push(&mut self, frame: Frame)
        requires { length (frames_of self.old) < depth_of self.old }
        ensures frames { frames_of self.new ≡ frames_of self.old ++ frame ∷ [] }
        ensures depth { depth_of self.new ≡ depth_of self.old }
    {
        let _pushed = self.frames.push(frame);
    }

    #[inline]
    pub(crate) fn pop(&mut self) -> Option<Frame>
        ensures frames { MatchOption result (frames_of self.old ≡ [])
            (λ frame. frames_of self.old ≡ frames_of self.new ++ frame ∷ []) }
        ensures depth { depth_of self.new ≡ depth_of self.old }
    {
        self.frames.pop()
    }
}
