//! Which template a text spells.
ghost use Rattle.std.specs.Prelude.{◌≡◌, ◌≢◌, ℕ, Some, None, IfOk, IfErr, chars};
ghost use Rattle.wf_expr.specs.Parsed.{IsTemplate, IsSyntaxAt, IsTooLongBy, HasFault};
ghost use Rattle.wf_expr.specs.Parses.{Concludes, Parses};
ghost use Rattle.wf_expr.specs.ReadSeen.{read_seen};
ghost use Rattle.wf_expr.specs.Reading.{template_of};
ghost use Rattle.wf_expr.specs.Text.{template_in};
ghost use Rattle.wf_expr.specs.Spells.{Spells, IsFault, IsTooLong, too_long};
ghost use Rattle.wf_template.specs.TemplateSeen.{template_tree};
ghost use Rattle.wf_template.specs.TemplateTree.{TemplateTree};

use crate::fault::{ParseFault, cut};
use crate::front::LONGEST;
use crate::reader::{Read, characters_of, read_text};
use std::alloc::{AllocError, Global};
use wf_template::Template;
use wf_val::Text;

/// The length of the first expression that is too long.
fn first_too_long(characters: &[char], read: &Read) -> Option<u64>
    ensures { result ≡ too_long characters.now (read_seen read.now) }
{
    match read {
        Read::Whole { expression: _ } => {
            let length = (characters.len() as u64).saturating_sub(1);
            if length > LONGEST { Some(length) } else { None }
        }
        Read::Items { front } => front.first_over(),
    }
}

fn template(alloc: Global, read: Read) -> Result<Template, AllocError>
    ensures { IfOk result (λ t. template_tree t ≡ template_of (read_seen read)) }
{
    match read {
        Read::Whole { expression } => Ok(Template::Whole(expression.into_expr())),
        Read::Items { front } => front.into_template(alloc),
    }
}

/// The template of what was read, unless an expression in it is too long.
fn concluded(alloc: Global, characters: &[char], read: Read) -> Result<Template, ParseFault>
    ensures { Concludes result characters.now (read_seen read) }
{
    match first_too_long(characters, &read) {
        Some(length) => Err(ParseFault::TooLong {
            length: cut(length),
        }),
        None => Ok(template(alloc, read)?),
    }
}

fn parse_characters(alloc: Global, characters: &[char]) -> Result<Template, ParseFault>
    ensures { Parses result characters.now }
{
    let read = read_text(alloc, characters)?;
    concluded(alloc, characters, read)
}

/// The template that a text of a definition spells (Workflow Definition Language, "Expressions"): an expression after
/// `@`, which keeps the type of its value, or a text with expressions in `@{` and `}`. `@@` at the start stands for
/// `@`, and `@@{` elsewhere for `@{`.
pub fn parse_template(alloc: Global, text: &Text) -> Result<Template, ParseFault>
    // What is given is the template that the text spells.
    ensures spelled { IfOk result (λ t. Spells (chars text.now) (template_tree t)) }
    // The template that the text spells is given, unless memory runs out.
    ensures only { (t : TemplateTree) → Spells (chars text.now) t → IsTemplate result t }

    // And so says the template of a text as a function.
    ensures read { IfOk result (λ t. template_in text.now ≡ Some (template_tree t)) }
    ensures refused { IfErr result (λ fault. fault ≢ ParseFault.Memory → template_in text.now ≡ None) }

    // Each fault is the text's.
    ensures faults { IfErr result (λ fault. HasFault (chars text.now) fault) }
    // The text's fault is told, unless memory runs out.
    ensures syntax { (at : ℕ) → IsFault (chars text.now) at → IsSyntaxAt result at }
    ensures too_long { (length : ℕ) → IsTooLong (chars text.now) length → IsTooLongBy result length }
{
    let characters = characters_of(alloc, text.as_str())?;
    parse_characters(alloc, &characters)
}
