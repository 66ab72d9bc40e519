//! Which texts are sound where a template is asked.
ghost use Rattle.std.specs.Prelude.{◌≡◌, map, IfOk};
ghost use Rattle.std.specs.List.{list_all};
ghost use Rattle.wf_template.specs.ExprSeen.{expr_tree};
ghost use Rattle.wf_template.specs.ExprTree.{expr_trees};
ghost use Rattle.wf_template.specs.TemplateSeen.{piece_tree, template_tree};
ghost use Rattle.wf_texts.specs.Sound.{are_sound, is_bad, is_sound, is_sound_piece, is_sound_template};

use crate::calls::is_sound_call;
use std::alloc::{AllocError, Global};
use wf_expr::{ParseFault, parse_template};
use wf_template::{Expr, Piece, Template};
use wf_val::Text;

#[cycle(sound)]
fn is_sound(expression: &Expr) -> bool
    ensures { result ≡ is_sound (expr_tree expression.now) }
{
    match expression {
        Expr::Lit(_) => true,
        Expr::Call { name, args } => {
            is_sound_call(name, args.as_slice()) && are_sound(args.as_slice())
        }
        Expr::Member {
            base,
            name: _,
            soft: _,
        } => is_sound(base),
        Expr::Index { base, key, soft: _ } => is_sound(base) && is_sound(key),
    }
}

#[cycle(sound)]
fn are_sound(args: &[Expr]) -> bool
    ensures { result ≡ are_sound (expr_trees (map expr_tree args.now)) }
{
    for arg in args {
        if !is_sound(arg) {
            return false;
        }
    }
    true
}

fn is_sound_piece(piece: &Piece) -> bool
    ensures { result ≡ is_sound_piece (piece_tree piece.now) }
{
    match piece {
        Piece::Lit(_) => true,
        Piece::Part(expression) => is_sound(expression),
    }
}

fn are_sound_pieces(pieces: &[Piece]) -> bool
    ensures { result ≡ list_all is_sound_piece (map piece_tree pieces.now) }
{
    for piece in pieces {
        if !is_sound_piece(piece) {
            return false;
        }
    }
    true
}

fn is_sound_template(template: &Template) -> bool
    ensures { result ≡ is_sound_template (template_tree template.now) }
{
    match template {
        Template::Plain(_) => true,
        Template::Whole(expression) => is_sound(expression),
        Template::Parts(pieces) => are_sound_pieces(pieces.as_slice()),
    }
}

/// Whether a text spells no template, or one with a call of no function, with a count of arguments that its function
/// doesn't take, or with a name that has to be computed where one has to stand.
#[tactic(auto, unfolding(crate::specs::Sound::is_bad))]
pub fn is_bad(alloc: Global, text: &Text) -> Result<bool, AllocError>
    ensures { IfOk result (λ bad. bad ≡ is_bad text.now) }
{
    match parse_template(alloc, text) {
        Ok(template) => Ok(!is_sound_template(&template)),
        Err(ParseFault::Memory) => Err(AllocError),
        Err(_) => Ok(true),
    }
}
