//! A text with expressions in it.
ghost use Rattle.std.specs.Prelude.{◌≡◌, ◌<◌, ◌^◌, [], ◌∷◌, ◌++◌, length, map, IfOk, OnOk, OnErr, option_map, slice_get};
ghost use Rattle.wf_template.specs.TemplateSeen.{piece_tree, pieces_seen, template_tree};

use crate::expr::Expr;
use std::alloc::{AllocError, Global};
use wf_val::Text;

/// A text of a definition: one without expressions, one that is an expression and keeps the type of its value, or
/// one that is put together of pieces and gives a text.
#[derive(Drop)]
pub enum Template {
    Plain(Text),
    Whole(Expr),
    Parts(Pieces),
}

/// A part of a text: what stands for itself, or an expression that stood in `@{` and `}`.
#[derive(Drop)]
pub enum Piece {
    Lit(Text),
    Part(Expr),
}

/// The pieces of a text in their order, seen as the list of their trees.
#[derive(Drop)]
pub struct Pieces {
    items: Vec<Piece>,
}

impl Template {
    pub fn copy(&self, alloc: Global) -> Result<Template, AllocError>
        ensures { IfOk result (λ t. template_tree t ≡ template_tree self.now) }
    {
        match self {
            Template::Plain(text) => Ok(Template::Plain(text.copy(alloc)?)),
            Template::Whole(expression) => Ok(Template::Whole(expression.copy(alloc)?)),
            Template::Parts(pieces) => Ok(Template::Parts(pieces.copy(alloc)?)),
        }
    }
}

impl Piece {
    pub fn copy(&self, alloc: Global) -> Result<Piece, AllocError>
        ensures { IfOk result (λ p. piece_tree p ≡ piece_tree self.now) }
    {
        match self {
            Piece::Lit(text) => Ok(Piece::Lit(text.copy(alloc)?)),
            Piece::Part(expression) => Ok(Piece::Part(expression.copy(alloc)?)),
        }
    }
}

impl Pieces {
    /// No pieces.
    pub fn new(alloc: Global) -> Self
        ensures { pieces_seen result ≡ [] }
    {
        Pieces {
            items: Vec::new(alloc),
        }
    }

    /// How many pieces there are.
    pub fn len(&self) -> u64
        ensures count { result ≡ length (pieces_seen self.now) }
        ensures in_range { result < 2 ^ 63 }
    {
        self.items.len() as u64
    }

    /// The piece at a place, counted from 0.
    pub fn at(&self, place: u64) -> Option<&Piece>
        ensures { option_map (λ p. piece_tree p.now) result ≡ slice_get (pieces_seen self.now) place }
    {
        self.items.get(place as usize)
    }

    /// The pieces, for a loop.
    pub fn as_slice(&self) -> &[Piece]
        ensures { map piece_tree result.now ≡ pieces_seen self.now }
    {
        &self.items
    }

    /// Adds a piece behind the others.
    pub fn push(&mut self, item: Piece) -> Result<(), AllocError>
        ensures ok { OnOk result (pieces_seen self.new ≡ pieces_seen self.old ++ piece_tree item ∷ []) }
        ensures err { OnErr result (pieces_seen self.new ≡ pieces_seen self.old) }
    {
        self.items.push(item)?;
        Ok(())
    }

    pub fn copy(&self, alloc: Global) -> Result<Pieces, AllocError>
        ensures { IfOk result (λ ps. pieces_seen ps ≡ pieces_seen self.now) }
    {
        let mut copies = Vec::with_capacity(alloc, self.items.len())?;
        for item in &self.items {
            copies.push(item.copy(alloc)?)?;
        }
        Ok(Pieces { items: copies })
    }
}
