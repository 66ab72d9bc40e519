//! What a talk says at one time, and whether it is over with that.
ghost use Rattle.std.specs.Prelude.{◌≡◌, ◌++◌, [], IfOk, None, Some};
ghost use Rattle.wf_talk.specs.Hearing.{summary_line, too_large};
ghost use Rattle.wf_talk.specs.Seen.{number};

use crate::texts::summary_line;
use std::alloc::{AllocError, Global};

/// How a talk is over.
#[derive(Clone, Copy, PartialEq, Eq)]
pub(crate) enum End {
    /// No answer is wanted any more.
    Ended,
    /// The run costs too much.
    TooLarge,
    /// The input ended, and answers are wanted.
    InputEnded,
}

impl End {
    /// The number that the program ends with.
    pub(crate) fn number(self) -> u8
        ensures { result ≡ number self }
    {
        match self {
            End::Ended => 0,
            End::TooLarge => 8,
            End::InputEnded => 9,
        }
    }
}

/// What a talk says at one time, and how it is over with that. None: it goes on.
#[derive(Drop)]
pub(crate) struct Said {
    pub(crate) text: Vec<u8>,
    pub(crate) over: Option<End>,
}

impl Said {
    /// It says nothing, and goes on.
    pub(crate) fn nothing(alloc: Global) -> Said
        ensures text { result.text.items ≡ [] }
        ensures over { result.over ≡ None }
    {
        Said {
            text: Vec::new(alloc),
            over: None,
        }
    }

    /// The run costs too much.
    pub(crate) fn too_large(alloc: Global) -> Result<Said, AllocError>
        ensures text { IfOk result (λ said. said.text.items ≡ too_large) }
        ensures over { IfOk result (λ said. said.over ≡ Some End.TooLarge) }
    {
        Ok(Said {
            text: b"too large\n".to_vec(alloc)?,
            over: Some(End::TooLarge),
        })
    }

    /// The run has ended, and this is its record's line.
    pub(crate) fn ended(
        alloc: Global,
        line: Vec<u8>,
        number: u64,
        refused: u64,
    ) -> Result<Said, AllocError>
        ensures text { IfOk result (λ said. said.text.items ≡ line.items ++ summary_line number refused) }
        ensures over { IfOk result (λ said. said.over ≡ Some End.Ended) }
    {
        let mut text = line;
        text.extend_from_slice(&summary_line(alloc, number, refused)?)?;
        Ok(Said {
            text,
            over: Some(End::Ended),
        })
    }
}

/// What a talk says at last, and how it is over with that.
#[derive(Drop)]
pub(crate) struct Last {
    pub(crate) text: Vec<u8>,
    pub(crate) end: End,
}
