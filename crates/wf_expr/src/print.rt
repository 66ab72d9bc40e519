//! The text of an expression.
ghost use Rattle.std.specs.Prelude.{◌≡◌, ◌+◌, ◌*◌, ◌<◌, ◌≤◌, ◌∷◌, ◌++◌, [], ℕ, List, IfOk, OnOk, map, length, string_bytes, flat_map};
ghost use Rattle.std.specs.Str.{chars};
ghost use Rattle.std.specs.Char.{encode_utf8};
ghost use Rattle.std.specs.Fmt.{signed_decimal};
ghost use Rattle.wf_val.specs.Seen.{tree};
ghost use Rattle.wf_val.specs.WellFormed.{IsWellFormed};
ghost use Rattle.wf_template.specs.ExprTree.{expr_trees};
ghost use Rattle.wf_template.specs.ExprSeen.{expr_tree};
ghost use Rattle.wf_template.specs.ExprCounts.{expr_count, exprs_count};
ghost use Rattle.wf_expr.specs.Printed.{printed, printed_args, printed_more, printed_value, quoted_byte, dot, bracket};
ghost use Rattle.wf_expr.specs.Grammar as grammar;
ghost use Rattle.wf_expr.specs.Printable.{IsPrintable};
ghost use Rattle.wf_expr.specs.Spells.{Derives, Spells};
ghost use Rattle.wf_template.specs.TemplateTree.{whole};
ghost use Rattle.wf_expr.specs.Unwritten.{part_tree, unwritten_seen, text_of_part, text_left, work_of_part, work_left, HasWellFormedLiterals, HaveWellFormedLiterals, IsWellFormedPart, AreWellFormed};

use crate::unwritten::{Part, Unwritten};
use std::alloc::{AllocError, Global};
use std::fmt::Write;
use wf_template::Expr;
use wf_val::{Text, Val};

/// The text of an expression, without white space. `IsPrintable` says which expressions a text can write: the printed
/// text of another one stands for something else, or for nothing.
pub fn print_expr(alloc: Global, expression: &Expr) -> Result<Text, AllocError>
    ensures written { IfOk result (λ t. t ≡ printed (expr_tree expression.now)) }
    ensures reads { IsPrintable 0 (expr_tree expression.now)
        → IfOk result (λ t. grammar.Expr 0 (chars t) (expr_tree expression.now) []) }
    // Where any text reads as the expression, this one does.
    ensures again { (s r : List ℕ) → grammar.Expr 0 s (expr_tree expression.now) r
        → IfOk result (λ t. grammar.Expr 0 (chars t) (expr_tree expression.now) []) }
    // `@` before it makes it a text of a definition, unless it is too long.
    ensures derives { IsPrintable 0 (expr_tree expression.now)
        → IfOk result (λ t. Derives (64 ∷ chars t) (whole (expr_tree expression.now))) }
    ensures spells { IsPrintable 0 (expr_tree expression.now)
        → IfOk result (λ t. length (chars t) ≤ 8192
        → Spells (64 ∷ chars t) (whole (expr_tree expression.now))) }
{
    let mut out = String::new(alloc);
    write(alloc, expression, &mut out)?;
    Ok(Text::from_string(out))
}

fn write(alloc: Global, expression: &Expr, out: &mut String) -> Result<(), AllocError>
    ensures written { OnOk result
        (string_bytes out.new ≡ string_bytes out.old ++ printed (expr_tree expression.now)) }
    ensures formed { OnOk result (HasWellFormedLiterals (expr_tree expression.now)) }
{
    let mut rest = Unwritten::new(alloc);
    rest.push(Part::Expr(expression))?;
    while let Some(part) = rest.pop() {
        write_part(part, &mut rest, out)?;
    }
    Ok(())
}

// Writes the next part, or a front of it: what it leaves is put in front of the rest.
fn write_part<'a>(
    part: Part<'a>,
    rest: &mut Unwritten<'a>,
    out: &mut String,
) -> Result<(), AllocError>
    ensures written { OnOk result (string_bytes out.new ++ text_left (unwritten_seen rest.new)
        ≡ string_bytes out.old
        ++ (text_of_part (part_tree part.entry) ++ text_left (unwritten_seen rest.old))) }
    ensures fewer { OnOk result (work_left (unwritten_seen rest.new)
        < work_of_part (part_tree part.entry) + work_left (unwritten_seen rest.old)) }
    ensures formed { OnOk result (AreWellFormed (unwritten_seen rest.new)
        → IsWellFormedPart (part_tree part.entry) × AreWellFormed (unwritten_seen rest.old)) }
{
    match part {
        Part::Expr(expression) => write_expr(expression, rest, out),
        Part::Text(text) => out.push_str(text),
        Part::Args(args) => write_more(args, rest, out),
    }
}

fn write_expr<'a>(
    expression: &'a Expr,
    rest: &mut Unwritten<'a>,
    out: &mut String,
) -> Result<(), AllocError>
    ensures written { OnOk result (string_bytes out.new ++ text_left (unwritten_seen rest.new)
        ≡ string_bytes out.old
        ++ (printed (expr_tree expression.now) ++ text_left (unwritten_seen rest.old))) }
    ensures fewer { OnOk result (work_left (unwritten_seen rest.new)
        < 3 * expr_count (expr_tree expression.now) + work_left (unwritten_seen rest.old)) }
    ensures formed { OnOk result (AreWellFormed (unwritten_seen rest.new)
        → HasWellFormedLiterals (expr_tree expression.now) × AreWellFormed (unwritten_seen rest.old)) }
{
    match expression {
        Expr::Lit(value) => write_value(value, out),
        Expr::Call { name, args } => {
            out.push_str(name.as_str())?;
            out.push('(')?;
            write_args(args.as_slice(), rest, out)
        }
        Expr::Member { base, name, soft } => {
            rest.push(Part::Text(name.as_str()))?;
            rest.push(Part::Text(dot(*soft)))?;
            rest.push(Part::Expr(base))
        }
        Expr::Index { base, key, soft } => {
            rest.push(Part::Text("]"))?;
            rest.push(Part::Expr(key))?;
            rest.push(Part::Text(bracket(*soft)))?;
            rest.push(Part::Expr(base))
        }
    }
}

// The arguments of a call, and the `)`.
fn write_args<'a>(
    args: &'a [Expr],
    rest: &mut Unwritten<'a>,
    out: &mut String,
) -> Result<(), AllocError>
    ensures written { OnOk result (string_bytes out.new ++ text_left (unwritten_seen rest.new)
        ≡ string_bytes out.old
        ++ (printed_args (expr_trees (map expr_tree args.now)) ++ text_left (unwritten_seen rest.old))) }
    ensures fewer { OnOk result (work_left (unwritten_seen rest.new)
        < 3 + 3 * exprs_count (expr_trees (map expr_tree args.now)) + work_left (unwritten_seen rest.old)) }
    ensures formed { OnOk result (AreWellFormed (unwritten_seen rest.new)
        → HaveWellFormedLiterals (expr_trees (map expr_tree args.now)) × AreWellFormed (unwritten_seen rest.old)) }
{
    match args.split_first() {
        None => out.push_str(")"),
        Some((first, others)) => {
            rest.push(Part::Args(others))?;
            rest.push(Part::Expr(first))
        }
    }
}

// Further arguments, each behind a comma, and the `)`.
fn write_more<'a>(
    args: &'a [Expr],
    rest: &mut Unwritten<'a>,
    out: &mut String,
) -> Result<(), AllocError>
    ensures written { OnOk result (string_bytes out.new ++ text_left (unwritten_seen rest.new)
        ≡ string_bytes out.old
        ++ (printed_more (expr_trees (map expr_tree args.now)) ++ text_left (unwritten_seen rest.old))) }
    ensures fewer { OnOk result (work_left (unwritten_seen rest.new)
        < 3 * exprs_count (expr_trees (map expr_tree args.now)) + 1 + work_left (unwritten_seen rest.old)) }
    ensures formed { OnOk result (AreWellFormed (unwritten_seen rest.new)
        → HaveWellFormedLiterals (expr_trees (map expr_tree args.now)) × AreWellFormed (unwritten_seen rest.old)) }
{
    match args.split_first() {
        None => out.push_str(")"),
        Some((first, others)) => {
            out.push_str(",")?;
            rest.push(Part::Args(others))?;
            rest.push(Part::Expr(first))
        }
    }
}

fn dot(soft: bool) -> &'static str
    ensures { result.now ≡ dot soft }
{
    if soft { "?." } else { "." }
}

fn bracket(soft: bool) -> &'static str
    ensures { result.now ≡ bracket soft }
{
    if soft { "?[" } else { "[" }
}

// A literal. No text can write a list or an object, and nothing is written for it.
fn write_value(value: &Val, out: &mut String) -> Result<(), AllocError>
    ensures written { OnOk result
        (string_bytes out.new ≡ string_bytes out.old ++ printed_value (tree value.now)) }
    ensures formed { IsWellFormed (tree value.now) }
{
    value.always_well_formed();
    match value {
        Val::Null => out.push_str("null"),
        Val::Bool(true) => out.push_str("true"),
        Val::Bool(false) => out.push_str("false"),
        Val::Int(number) => write_number(*number, out),
        Val::Text(text) => write_quoted(text.as_str(), out),
        Val::List(_) | Val::Obj(_) => Ok(()),
    }
}

fn write_number(number: i64, out: &mut String) -> Result<(), AllocError>
    ensures { OnOk result
        (string_bytes out.new ≡ string_bytes out.old ++ signed_decimal number) }
{
    write!(out, "{number}").map_err(|_| AllocError)
}

// A text in quotes.
fn write_quoted(text: &str, out: &mut String) -> Result<(), AllocError>
    ensures { OnOk result (string_bytes out.new
        ≡ string_bytes out.old ++ (39 ∷ flat_map quoted_byte text.now ++ 39 ∷ [])) }
{
    out.push_str("'")?;
    for character in text.chars() {
        write_character(character, out)?;
    }
    out.push_str("'")?;
    Ok(())
}

#[tactic(auto, using(crate::proofs::QuoteLemmas::quoted_quote, crate::proofs::QuoteLemmas::quoted_other))]
fn write_character(character: char, out: &mut String) -> Result<(), AllocError>
    ensures { OnOk result (string_bytes out.new
        ≡ string_bytes out.old ++ flat_map quoted_byte (encode_utf8 character)) }
{
    if character == '\'' {
        out.push_str("''")
    } else {
        out.push(character)
    }
}
