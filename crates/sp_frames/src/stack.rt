// The frames of a fiber.
ghost use Rattle.std.specs.Prelude.{◌≡◌, ◌∷◌, [], reverse, OnOk, OnErr, MatchOption};
ghost use Rattle.sp_code.specs.Machine.{is_failing};
ghost use Rattle.sp_frames.specs.Frames.{frame_of, frames_of};

use crate::frame::Frame;
use sp_base::NoMemory;
use std::alloc::Global;
use std::marker::Model;

/// The open frames of a fiber, seen as plain data with the innermost first.
#[derive(Drop)]
pub struct Stack {
    frames: Vec<Frame>,
}

impl Model for Stack {
    ghost use Rattle.std.specs.Prelude.{List, reverse};
    ghost use Rattle.std.specs.Coded.{codes};
    ghost use Rattle.sp_value.specs.contracts.value.Value as value_row;
    ghost use Rattle.sp_code.specs.Machine as plain;
    ghost use Rattle.sp_frames.specs.Frames.{frames_of};

    ghost Value = { List plain.Frame };

    ghost coded = { Prim.hlevel (codes, value_row.the_row.coded) };

    ghost view = { λ s. frames_of (reverse s.frames.items) };
}

impl Stack {
    /// No frames. Takes no memory.
    pub fn new(alloc: Global) -> Stack
        ensures { result ≡ [] }
    {
        Stack {
            frames: Vec::new(alloc),
        }
    }

    /// Opens a frame, or changes nothing.
    pub fn push(&mut self, frame: Frame) -> Result<(), NoMemory>
        ensures ok { OnOk result (self.new ≡ frame_of frame ∷ self.old) }
        ensures err { OnErr result (self.new ≡ self.old) }
    {
        self.frames.push(frame)?;
        Ok(())
    }

    /// Takes the innermost frame off. Takes no memory.
    pub fn pop(&mut self) -> Option<Frame>
        ensures { MatchOption result ((self.old ≡ []) × (self.new ≡ []))
            (λ frame. self.old ≡ frame_of frame ∷ self.new) }
    {
        self.frames.pop()
    }

    /// Whether the innermost frame is that of a unit that fails.
    #[tactic(auto, using(crate::proofs::Innermost::last_frame, crate::proofs::Innermost::no_frame))]
    pub fn is_failing(&self) -> bool
        ensures { result ≡ is_failing self.now }
    {
        match self.frames.last() {
            Some(Frame::Failing { .. }) => true,
            _ => false,
        }
    }

    /// The frames, the innermost last.
    pub fn frames(&self) -> &[Frame]
        ensures { frames_of (reverse result.now) ≡ self.now }
    {
        self.frames.as_slice()
    }
}
