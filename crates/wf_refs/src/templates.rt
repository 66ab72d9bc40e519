//! What texts, values and conditions ask for. Each function adds to what was found before.
ghost use Rattle.std.specs.Prelude.{◌≡◌, ◌++◌, IfOk, map};
ghost use Rattle.wf_template.specs.CondSeen.{cond_tree};
ghost use Rattle.wf_template.specs.CondTree.{cond_trees};
ghost use Rattle.wf_template.specs.DataSeen.{data_member, data_tree};
ghost use Rattle.wf_template.specs.DataTree.{data_members, data_trees};
ghost use Rattle.wf_template.specs.TemplateSeen.{piece_tree, template_tree};
ghost use Rattle.wf_eval.specs.Uses.{cond_uses, conds_uses, members_uses, piece_use, piece_uses, template_uses, tree_uses, trees_uses};
ghost use Rattle.wf_uses.specs.Seen.{found_uses};
ghost use Rattle.wf_refs.specs.Sites.{templates_uses};

use crate::expressions::in_expression;
use std::alloc::{AllocError, Global};
use wf_template::{Cond, Piece, Template, Tree};
use wf_uses::Found;
use wf_val::Text;

fn in_piece<'a>(
    alloc: Global,
    found: Vec<Found<'a>>,
    piece: &'a Piece,
) -> Result<Vec<Found<'a>>, AllocError>
    ensures { IfOk result (λ all. found_uses all.items ≡ found_uses found.entry.items ++ piece_use (piece_tree piece.now)) }
{
    match piece {
        Piece::Lit(_) => Ok(found),
        Piece::Part(expression) => in_expression(alloc, found, expression),
    }
}

fn in_pieces<'a>(
    alloc: Global,
    found: Vec<Found<'a>>,
    pieces: &'a [Piece],
) -> Result<Vec<Found<'a>>, AllocError>
    ensures { IfOk result (λ all. found_uses all.items ≡ found_uses found.entry.items ++ piece_uses (map piece_tree pieces.now)) }
{
    let mut all = found;
    for piece in pieces {
        all = in_piece(alloc, all, piece)?;
    }
    Ok(all)
}

pub(crate) fn in_template<'a>(
    alloc: Global,
    found: Vec<Found<'a>>,
    template: &'a Template,
) -> Result<Vec<Found<'a>>, AllocError>
    ensures { IfOk result (λ all. found_uses all.items ≡ found_uses found.entry.items ++ template_uses (template_tree template.now)) }
{
    match template {
        Template::Plain(_) => Ok(found),
        Template::Whole(expression) => in_expression(alloc, found, expression),
        Template::Parts(pieces) => in_pieces(alloc, found, pieces.as_slice()),
    }
}

pub(crate) fn in_templates<'a>(
    alloc: Global,
    found: Vec<Found<'a>>,
    templates: &'a [Template],
) -> Result<Vec<Found<'a>>, AllocError>
    ensures { IfOk result (λ all. found_uses all.items ≡ found_uses found.entry.items ++ templates_uses (map template_tree templates.now)) }
{
    let mut all = found;
    for template in templates {
        all = in_template(alloc, all, template)?;
    }
    Ok(all)
}

#[cycle(trees)]
pub(crate) fn in_tree<'a>(
    alloc: Global,
    found: Vec<Found<'a>>,
    tree: &'a Tree,
) -> Result<Vec<Found<'a>>, AllocError>
    ensures { IfOk result (λ all. found_uses all.items ≡ found_uses found.entry.items ++ tree_uses (data_tree tree.now)) }
{
    match tree {
        Tree::Null => Ok(found),
        Tree::Bool(_) => Ok(found),
        Tree::Int(_) => Ok(found),
        Tree::Text(template) => in_template(alloc, found, template),
        Tree::List(items) => in_trees(alloc, found, items.as_slice()),
        Tree::Obj(fields) => in_members(alloc, found, fields.as_slice()),
    }
}

#[cycle(trees)]
fn in_trees<'a>(
    alloc: Global,
    found: Vec<Found<'a>>,
    items: &'a [Tree],
) -> Result<Vec<Found<'a>>, AllocError>
    ensures { IfOk result (λ all. found_uses all.items
        ≡ found_uses found.entry.items ++ trees_uses (data_trees (map data_tree items.now))) }
{
    let mut all = found;
    for item in items {
        all = in_tree(alloc, all, item)?;
    }
    Ok(all)
}

#[cycle(trees)]
pub(crate) fn in_members<'a>(
    alloc: Global,
    found: Vec<Found<'a>>,
    members: &'a [(Text, Tree)],
) -> Result<Vec<Found<'a>>, AllocError>
    ensures { IfOk result (λ all. found_uses all.items
        ≡ found_uses found.entry.items ++ members_uses (data_members (map data_member members.now))) }
{
    let mut all = found;
    for member in members {
        all = in_tree(alloc, all, &member.1)?;
    }
    Ok(all)
}

#[cycle(conditions)]
pub(crate) fn in_condition<'a>(
    alloc: Global,
    found: Vec<Found<'a>>,
    condition: &'a Cond,
) -> Result<Vec<Found<'a>>, AllocError>
    ensures { IfOk result (λ all. found_uses all.items ≡ found_uses found.entry.items ++ cond_uses (cond_tree condition.now)) }
{
    match condition {
        Cond::Text(template) => in_template(alloc, found, template),
        Cond::And(conditions) => in_conditions(alloc, found, conditions.as_slice()),
        Cond::Or(conditions) => in_conditions(alloc, found, conditions.as_slice()),
        Cond::Not(condition) => in_condition(alloc, found, condition),
        Cond::Compare {
            fun: _,
            left,
            right,
        } => {
            let all = in_tree(alloc, found, left)?;
            in_tree(alloc, all, right)
        }
    }
}

#[cycle(conditions)]
fn in_conditions<'a>(
    alloc: Global,
    found: Vec<Found<'a>>,
    conditions: &'a [Cond],
) -> Result<Vec<Found<'a>>, AllocError>
    ensures { IfOk result (λ all. found_uses all.items
        ≡ found_uses found.entry.items ++ conds_uses (cond_trees (map cond_tree conditions.now))) }
{
    let mut all = found;
    for condition in conditions {
        all = in_condition(alloc, all, condition)?;
    }
    Ok(all)
}
