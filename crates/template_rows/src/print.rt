//! A text that spells a template.
use std::alloc::{AllocError, Global};
use wf_expr::print_expr;
use wf_template::{Piece, Pieces, Template};
use wf_val::Text;

/// A text that spells the template, where any text does.
pub(crate) fn printed(alloc: Global, template: &Template) -> Result<Text, AllocError> {
    let mut out = String::new(alloc);
    match template {
        Template::Plain(text) => push_literal(&mut out, text.as_str())?,
        Template::Whole(expression) => {
            out.push('@')?;
            out.push_str(print_expr(alloc, expression)?.as_str())?;
        }
        Template::Parts(pieces) => push_pieces(alloc, &mut out, pieces)?,
    }
    Ok(Text::from_string(out))
}

fn push_pieces(alloc: Global, out: &mut String, pieces: &Pieces) -> Result<(), AllocError> {
    for piece in pieces.as_slice() {
        match piece {
            Piece::Lit(text) => push_literal(out, text.as_str())?,
            Piece::Part(expression) => {
                out.push_str("@{")?;
                out.push_str(print_expr(alloc, expression)?.as_str())?;
                out.push('}')?;
            }
        }
    }
    Ok(())
}

// Text that stands for itself: an `@` at the very start is doubled, and elsewhere one that a `{` follows.
fn push_literal(out: &mut String, text: &str) -> Result<(), AllocError> {
    let mut behind_sign = false;
    for c in text.chars() {
        let is_sign = c == '@';
        if is_sign && out.is_empty() {
            out.push_str("@@")?;
            continue;
        }
        if c == '{' && behind_sign {
            out.push('@')?;
        }
        out.push(c)?;
        behind_sign = is_sign;
    }
    Ok(())
}
