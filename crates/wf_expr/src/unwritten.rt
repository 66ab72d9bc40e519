//! What is left to write while an expression is printed.
ghost use Rattle.std.specs.Prelude.{◌≡◌, [], ◌∷◌, OnOk};
ghost use Rattle.wf_expr.specs.Unwritten.{part_tree, unwritten_seen, Popped};

use std::alloc::{AllocError, Global};
use wf_template::Expr;

// An expression, a text as it is, or further arguments with the `)` behind them.
#[derive(Drop)]
pub enum Part<'a> {
    Expr(&'a Expr),
    Text(&'a str),
    Args(&'a [Expr]),
}

// A stack of parts. With it a chain of accesses is walked to its base in a loop, however long it is.
#[derive(Drop)]
pub struct Unwritten<'a> {
    parts: Vec<Part<'a>>,
}

impl<'a> Unwritten<'a> {
    pub fn new(alloc: Global) -> Self
        ensures { unwritten_seen result ≡ [] }
    {
        Unwritten {
            parts: Vec::new(alloc),
        }
    }

    // Puts a part in front of the others.
    pub fn push(&mut self, part: Part<'a>) -> Result<(), AllocError>
        ensures { OnOk result (unwritten_seen self.new ≡ part_tree part.entry ∷ unwritten_seen self.old) }
    {
        self.parts.push(part)?;
        Ok(())
    }

    // Takes the part that is to be written next.
    pub fn pop(&mut self) -> Option<Part<'a>>
        ensures { Popped result (unwritten_seen self.old) (unwritten_seen self.new) }
    {
        self.parts.pop()
    }
}
