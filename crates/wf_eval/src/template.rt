//! The value of a template.
ghost use Rattle.std.specs.Prelude.{◌≡◌, [], map};
ghost use Rattle.wf_val.specs.Arguments.{seen};
ghost use Rattle.wf_template.specs.TemplateSeen.{piece_tree, template_tree};
ghost use Rattle.wf_eval_expr.specs.Meets.{Meets};
ghost use Rattle.wf_eval_expr.specs.Outcomes.{turned};
ghost use Rattle.wf_eval_expr.specs.Joined.{joined, text_answer};
ghost use Rattle.wf_eval.specs.TemplateValue.{piece_value, piece_runs, template_value};

use std::alloc::Global;
use wf_eval_expr::{Look, Measured, as_text, eval_expr};
use wf_template::{Piece, Template};
use wf_val::{EvalFault, Val, bounded};

/// The value of a template in a look: its value, or the first fault from left to right. After a fault the look has
/// drawn the words that the definition counts up to it, and after want of memory at most as many as for the whole.
pub fn eval<L: Look>(alloc: Global, t: &Template, look: &mut L) -> Result<Val, EvalFault>
    ensures value { Meets (seen result)
        (template_value (L.told look.old) (template_tree t.now) (L.drawn look.old))
        (L.drawn look.new) }
    ensures same { L.told look.new ≡ L.told look.old }
    ensures held { L.held look.new ≡ L.held look.old }
{
    match t {
        Template::Plain(text) => bounded(Val::Text(text.copy(alloc)?)),
        Template::Whole(e) => eval_expr(alloc, e, look),
        Template::Parts(pieces) => eval_parts(alloc, pieces.as_slice(), look),
    }
}

// The text that pieces make. No more of it is kept than fits.
fn eval_parts<L: Look>(alloc: Global, pieces: &[Piece], look: &mut L) -> Result<Val, EvalFault>
    ensures value { Meets (seen result)
        (turned text_answer (joined (piece_runs (L.told look.old) (map piece_tree pieces.now)) [] (L.drawn look.old)))
        (L.drawn look.new) }
    ensures same { L.told look.new ≡ L.told look.old }
    ensures held { L.held look.new ≡ L.held look.old }
{
    let mut text = Measured::new(alloc);
    for piece in pieces {
        let value = eval_piece(alloc, piece, look)?;
        let part = as_text(alloc, value)?;
        text.push(part.as_str())?;
    }
    text.answer()
}

fn eval_piece<L: Look>(alloc: Global, piece: &Piece, look: &mut L) -> Result<Val, EvalFault>
    ensures value { Meets (seen result) (piece_value (L.told look.old) (piece_tree piece.now) (L.drawn look.old)) (L.drawn look.new) }
    ensures same { L.told look.new ≡ L.told look.old }
    ensures held { L.held look.new ≡ L.held look.old }
{
    match piece {
        Piece::Lit(text) => Ok(Val::Text(text.copy(alloc)?)),
        Piece::Part(e) => eval_expr(alloc, e, look),
    }
}
