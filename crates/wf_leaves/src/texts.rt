//! Templates, and values whose texts are templates.
ghost use Rattle.std.specs.Prelude.{◌≡◌, IfOk, map, option_map};
ghost use Rattle.wf_val.specs.Seen.{tree};
ghost use Rattle.wf_val.specs.ValueTree.{trees, members};
ghost use Rattle.wf_template.specs.DataSeen.{data_tree};
ghost use Rattle.wf_template.specs.TemplateSeen.{template_tree};
ghost use Rattle.wf_leaves.specs.Texts.{data_in, data_of, items_of, members_of, template_at, template_of, text_in};

use std::alloc::{AllocError, Global};
use wf_expr::{ParseFault, parse_template};
use wf_template::{Template, Tree, TreeFields, Trees};
use wf_val::{Fields, Text, Val, Vals};

/// The template that a text spells.
#[tactic(auto, unfolding(crate::specs::Texts::template_of))]
pub fn template_of(alloc: Global, text: &Text) -> Result<Template, AllocError>
    ensures { IfOk result (λ t. template_tree t ≡ template_of text.now) }
{
    match parse_template(alloc, text) {
        Ok(template) => Ok(template),
        Err(ParseFault::Memory) => Err(AllocError),
        Err(_) => Ok(Template::Plain(Text::of(alloc, "")?)),
    }
}

/// The template that a member spells.
pub fn template_at(alloc: Global, value: Option<&Val>) -> Result<Template, AllocError>
    ensures { IfOk result (λ t. template_tree t ≡ template_at (option_map (λ v. tree v.now) value.entry)) }
{
    match value {
        Some(Val::Text(text)) => template_of(alloc, text),
        _ => {
            let empty = Text::of(alloc, "")?;
            template_of(alloc, &empty)
        }
    }
}

/// The text that a member is, which is no template.
pub(crate) fn text_in(alloc: Global, value: Option<&Val>) -> Result<Text, AllocError>
    ensures { IfOk result (λ t. t ≡ text_in (option_map (λ v. tree v.now) value.entry)) }
{
    match value {
        Some(Val::Text(text)) => text.copy(alloc),
        _ => Text::of(alloc, ""),
    }
}

/// The same, lent.
pub fn str_in<'a>(value: Option<&'a Val>) -> &'a str
    ensures { result.now ≡ text_in (option_map (λ v. tree v.now) value.entry) }
{
    match value {
        Some(Val::Text(text)) => text.as_str(),
        _ => "",
    }
}

/// A value with a template for each text.
#[cycle(data)]
pub(crate) fn data_of(alloc: Global, value: &Val) -> Result<Tree, AllocError>
    ensures { IfOk result (λ t. data_tree t ≡ data_of (tree value.now)) }
{
    match value {
        Val::Null => Ok(Tree::Null),
        Val::Bool(truth) => Ok(Tree::Bool(*truth)),
        Val::Int(number) => Ok(Tree::Int(*number)),
        Val::Text(text) => Ok(Tree::Text(template_of(alloc, text)?)),
        Val::List(items) => Ok(Tree::List(items_of(alloc, items)?)),
        Val::Obj(fields) => Ok(Tree::Obj(members_of(alloc, fields)?)),
    }
}

#[cycle(data)]
fn items_of(alloc: Global, items: &Vals) -> Result<Trees, AllocError>
    ensures { IfOk result (λ ts. ts ≡ items_of (trees items.now)) }
{
    let mut found = Trees::new(alloc);
    for item in items.as_slice() {
        found.push(data_of(alloc, item)?)?;
    }
    Ok(found)
}

#[cycle(data)]
pub fn members_of(alloc: Global, fields: &Fields) -> Result<TreeFields, AllocError>
    ensures { IfOk result (λ ms. ms ≡ members_of (members fields.now)) }
{
    let mut found = TreeFields::new(alloc);
    for (name, value) in fields.as_slice() {
        found.append(name.copy(alloc)?, data_of(alloc, value)?)?;
    }
    Ok(found)
}

/// The same of a member that may be absent, which is then null.
pub fn data_in(alloc: Global, value: Option<&Val>) -> Result<Tree, AllocError>
    ensures { IfOk result (λ t. data_tree t ≡ data_in (option_map (λ v. tree v.now) value.entry)) }
{
    match value {
        Some(value) => data_of(alloc, value),
        None => Ok(Tree::Null),
    }
}

/// And of one that stays absent.
pub(crate) fn data_if(alloc: Global, value: Option<&Val>) -> Result<Option<Tree>, AllocError>
    ensures { IfOk result (λ t. option_map data_tree t ≡ option_map data_of (option_map (λ v. tree v.now) value.entry)) }
{
    match value {
        Some(value) => Ok(Some(data_of(alloc, value)?)),
        None => Ok(None),
    }
}
