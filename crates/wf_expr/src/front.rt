//! The part of a text that is read.
ghost use Rattle.std.specs.Prelude.{◌≡◌, [], ◌∷◌, ◌++◌, IfOk, OnOk, string_bytes};
ghost use Rattle.wf_expr.specs.FrontSeen.{items_seen, lettered, sections_over, sections_pieces};
ghost use Rattle.wf_expr.specs.Reading.{character, embedded, items_of, template_of};
ghost use Rattle.wf_expr.specs.Spells.{first_over};
ghost use Rattle.wf_template.specs.TemplateSeen.{template_tree, pieces_seen};

use crate::draft::Draft;
use std::alloc::{AllocError, Global};
use wf_template::{Piece, Pieces, Template};
use wf_val::Text;

/// The greatest length of an expression in characters.
pub(crate) const LONGEST: u64 = 8192;

/// A text with expressions in it, as far as it is read: each expression with what stands before it, and what stands
/// after the last.
#[derive(Drop)]
pub(crate) struct Front {
    sections: Vec<Section>,
    literal: String,
}

/// An expression in a text, its length in characters, and what stands between it and the expression before.
#[derive(Drop)]
pub(crate) struct Section {
    literal: String,
    expression: Draft,
    length: u64,
}

impl Front {
    #[tactic(auto, using(crate::proofs::FrontLemmas::none_seen))]
    pub(crate) fn new(alloc: Global) -> Front
        ensures { items_seen result ≡ [] }
    {
        Front {
            sections: Vec::new(alloc),
            literal: String::new(alloc),
        }
    }

    /// Adds a character that stands for itself.
    #[tactic(auto, using(crate::proofs::FrontLemmas::push_seen))]
    pub(crate) fn push(&mut self, c: char) -> Result<(), AllocError>
        ensures { OnOk result (items_seen self.new ≡ items_seen self.old ++ character c ∷ []) }
    {
        self.literal.push(c)
    }

    /// The text with a character behind it that stands for itself.
    pub(crate) fn with(self, c: char) -> Result<Front, AllocError>
        ensures { IfOk result (λ f. items_seen f ≡ items_seen self ++ character c ∷ []) }
    {
        let mut front = self;
        front.push(c)?;
        Ok(front)
    }

    /// The text with an expression behind it, of so many characters.
    #[tactic(auto, using(crate::proofs::FrontLemmas::section_seen))]
    pub(crate) fn with_part(
        self,
        alloc: Global,
        expression: Draft,
        length: u64,
    ) -> Result<Front, AllocError>
        ensures { IfOk result (λ f. items_seen f ≡ items_seen self ++ embedded expression length ∷ []) }
    {
        let mut sections = self.sections;
        sections.push(Section {
            literal: self.literal,
            expression,
            length,
        })?;
        Ok(Front {
            sections,
            literal: String::new(alloc),
        })
    }

    /// The length of the first expression that is too long.
    #[tactic(auto, using(crate::proofs::PieceLemmas::first_over_seen))]
    pub(crate) fn first_over(&self) -> Option<u64>
        ensures { result ≡ first_over (items_seen self.now) }
    {
        first_too_long(&self.sections)
    }

    /// The template that the whole text spells.
    pub(crate) fn into_template(self, alloc: Global) -> Result<Template, AllocError>
        ensures { IfOk result (λ t. template_tree t ≡ template_of (items_of (items_seen self))) }
    {
        if self.sections.is_empty() {
            return Ok(Template::Plain(Text::from_string(self.literal)));
        }
        let mut pieces = pieces_of(alloc, self.sections)?;
        push_literal(&mut pieces, self.literal)?;
        Ok(Template::Parts(pieces))
    }
}

fn first_too_long(sections: &[Section]) -> Option<u64>
    ensures { result ≡ sections_over sections.now }
{
    for section in sections {
        if section.length > LONGEST {
            return Some(section.length);
        }
    }
    None
}

fn pieces_of(alloc: Global, sections: Vec<Section>) -> Result<Pieces, AllocError>
    ensures { IfOk result (λ ps. pieces_seen ps ≡ sections_pieces sections.items) }
{
    let mut pieces = Pieces::new(alloc);
    for section in sections {
        push_literal(&mut pieces, section.literal)?;
        pieces.push(Piece::Part(section.expression.into_expr()))?;
    }
    Ok(pieces)
}

/// Adds a text that stands for itself, unless it is empty.
fn push_literal(pieces: &mut Pieces, literal: String) -> Result<(), AllocError>
    ensures { OnOk result (pieces_seen pieces.new ≡ pieces_seen pieces.old ++ lettered (string_bytes literal)) }
{
    if !literal.is_empty() {
        pieces.push(Piece::Lit(Text::from_string(literal)))?;
    }
    Ok(())
}
