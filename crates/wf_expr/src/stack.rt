//! What is open where a text is read.
ghost use Rattle.std.specs.Prelude.{◌≡◌, IfSome, OnOk, option_map};
ghost use Rattle.wf_expr.specs.Machine.{whole, in_part, depth, top, below, framed, part_of, is_whole};
ghost use Rattle.wf_expr.specs.FrontSeen.{items_seen};
ghost use Rattle.wf_expr.specs.StackSeen.{frame_seen, stack_seen, part_seen};

use crate::draft::{Draft, Drafts};
use crate::front::Front;
use std::alloc::{AllocError, Global};
use std::mem;
use wf_val::Text;

/// The parts of an expression that are open, the innermost last, and what the expression stands in.
#[derive(Drop)]
pub(crate) struct Stack {
    bottom: Bottom,
    frames: Vec<Frame>,
}

/// What an expression stands in: it is the whole text, or stands after a front of it, with the place of its `{`.
#[derive(Drop)]
pub(crate) enum Bottom {
    Whole,
    Part { front: Front, start: u64 },
}

/// What a bracket opened: a call, with its arguments so far, or a key of what stands before it.
#[derive(Drop)]
pub(crate) enum Frame {
    Call { name: Text, args: Drafts },
    Key { base: Draft, soft: bool },
}

impl Stack {
    pub(crate) fn whole(alloc: Global) -> Stack
        ensures { stack_seen result ≡ whole }
    {
        Stack {
            bottom: Bottom::Whole,
            frames: Vec::new(alloc),
        }
    }

    pub(crate) fn in_part(alloc: Global, front: Front, start: u64) -> Stack
        ensures { stack_seen result ≡ in_part (items_seen front) start }
    {
        Stack {
            bottom: Bottom::Part { front, start },
            frames: Vec::new(alloc),
        }
    }

    /// How many brackets are open.
    #[tactic(auto, using(crate::proofs::StackLemmas::depth_seen))]
    pub(crate) fn depth(&self) -> usize
        ensures { result ≡ depth (stack_seen self.now) }
    {
        self.frames.len()
    }

    #[tactic(auto, using(crate::proofs::StackLemmas::stacked_snoc))]
    pub(crate) fn push(&mut self, frame: Frame) -> Result<(), AllocError>
        ensures { OnOk result (stack_seen self.new ≡ framed (frame_seen frame) (stack_seen self.old)) }
    {
        self.frames.push(frame)?;
        Ok(())
    }

    /// Takes the innermost part away.
    pub(crate) fn pop(&mut self) -> Option<Frame>
        ensures taken { option_map frame_seen result ≡ top (stack_seen self.old) }
        ensures left { stack_seen self.new ≡ below (stack_seen self.old) }
    {
        self.frames.pop()
    }

    /// Whether the expression is the whole text, and no bracket is open.
    #[tactic(auto, using(crate::proofs::StackLemmas::whole_seen))]
    pub(crate) fn is_whole(&self) -> bool
        ensures { result ≡ is_whole (stack_seen self.now) }
    {
        match &self.bottom {
            Bottom::Whole => self.frames.is_empty(),
            Bottom::Part { front: _, start: _ } => false,
        }
    }

    /// Takes away the front of the text and the place of the expression's `{`, where no bracket is open.
    pub(crate) fn take_part(&mut self) -> Option<(Front, u64)>
        ensures taken { option_map part_seen result ≡ part_of (stack_seen self.old) }
        ensures left { IfSome result (λ p. stack_seen self.new ≡ whole) }
    {
        if !self.frames.is_empty() {
            return None;
        }
        match mem::replace(&mut self.bottom, Bottom::Whole) {
            Bottom::Whole => None,
            Bottom::Part { front, start } => Some((front, start)),
        }
    }
}
