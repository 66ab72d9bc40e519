//! A graph as it is drawn.
ghost use Rattle.std.specs.Prelude.{◌≡◌, IfOk, map, option_map};
ghost use Rattle.wf_def.specs.ActionSeen.{action_tree, cases_seen, graph_tree, kind_tree};
ghost use Rattle.wf_def.specs.ActionTree.{case_trees};
ghost use Rattle.wf_drawn.specs.Drawn.{case_word, cases_pieces, graph_pieces, heading, held, inside, kind_pieces, level_piece};
ghost use Rattle.wf_drawn.specs.Drawn.{level_pieces};
ghost use Rattle.wf_drawn.specs.Views.{view_tree};
ghost use Rattle.wf_html.specs.Html.{with_text, written};
ghost use Rattle.wf_record.specs.Seen.{record_tree, row_tree};
ghost use Rattle.wf_val.specs.Seen.{tree};

use crate::after::afters;
use crate::kind::{closes, kind_word};
use crate::levels::{depth, level_at};
use crate::view::View;
use std::alloc::{AllocError, Global};
use wf_def::{Action, Afters, Cases, Graph, Kind};
use wf_html::{Tag, close, open, say_bytes, say_in};
use wf_record::{Record, Row};
use wf_shown::{look_of_rows, rows_of, show_rows};
use wf_val::{Name, Val};

// The name of a case, and its value.
fn case_word(alloc: Global, name: &Name, value: &Val) -> Result<Vec<u8>, AllocError>
    ensures { IfOk result (λ text. text.items ≡ case_word name.now (tree value.now)) }
{
    let mut text = name.as_str().as_bytes().to_vec(alloc)?;
    text.extend_from_slice(b": ")?;
    wf_json::write_to(&mut text, value)?;
    Ok(text)
}

fn case_in(bytes: Vec<u8>, word: &[u8]) -> Result<Vec<u8>, AllocError>
    ensures { IfOk result (λ b. b.items ≡ written bytes.items (with_text Tag.Case word.now)) }
{
    let bytes = open(bytes, Tag::Case)?;
    let bytes = say_bytes(bytes, word)?;
    close(bytes, Tag::Case)
}

// What is drawn of an action beside the graphs that it holds; `rows` are its own.
fn heading(
    alloc: Global,
    bytes: Vec<u8>,
    earlier: Option<&Record>,
    name: &Name,
    after: &Afters,
    kind: &Kind,
    rows: &[Row],
) -> Result<Vec<u8>, AllocError>
    ensures { IfOk result (λ b. b.items ≡ written bytes.items (heading (option_map (λ r. (record_tree r.now).rows) earlier.entry) name.now
        after.now (kind_tree kind.now) (map row_tree rows.now))) }
{
    let bytes = say_in(bytes, Tag::Name, name.as_str())?;
    let bytes = say_in(bytes, Tag::Kind, kind_word(kind))?;
    let bytes = afters(bytes, after)?;
    show_rows(alloc, bytes, closes(kind), earlier, rows)
}

// The levels of a graph, from the first on.
#[cycle(draw)]
#[tactic(auto, using(wf_html::proofs::PieceLemmas::written_append))]
pub fn in_graph(
    alloc: Global,
    bytes: Vec<u8>,
    view: &View,
    graph: &Graph,
) -> Result<Vec<u8>, AllocError>
    ensures { IfOk result (λ b. b.items ≡ written bytes.items (graph_pieces (view_tree view.now) (graph_tree graph.now))) }
{
    let mut bytes = open(bytes, Tag::Graph)?;
    let count = depth(view.levels, &graph.actions);
    for k in 0..count {
        bytes = open(bytes, Tag::Level)?;
        bytes = in_level(alloc, bytes, view, k, graph)?;
        bytes = close(bytes, Tag::Level)?;
    }
    close(bytes, Tag::Graph)
}

// The actions of a graph that stand on a level.
#[cycle(draw)]
#[tactic(auto, using(wf_html::proofs::PieceLemmas::written_append))]
fn in_level(
    alloc: Global,
    bytes: Vec<u8>,
    view: &View,
    k: u64,
    graph: &Graph,
) -> Result<Vec<u8>, AllocError>
    ensures { IfOk result (λ b. b.items ≡ written bytes.items (level_pieces (view_tree view.now) k (graph_tree graph.now))) }
{
    let mut bytes = bytes;
    for action in graph.actions.as_slice() {
        bytes = in_action(alloc, bytes, view, k, action)?;
    }
    Ok(bytes)
}

// An action, where it stands on the level.
#[cycle(draw)]
#[tactic(auto, using(wf_html::proofs::PieceLemmas::written_append))]
fn in_action(
    alloc: Global,
    bytes: Vec<u8>,
    view: &View,
    k: u64,
    action: &Action,
) -> Result<Vec<u8>, AllocError>
    ensures { IfOk result (λ b. b.items ≡ written bytes.items (level_piece (view_tree view.now) k (action_tree action.now))) }
{
    if level_at(view.levels, action.number) != k {
        return Ok(bytes);
    }
    let rows = rows_of(&view.log.rows, &action.name);
    let look = look_of_rows(rows);
    let bytes = open(bytes, Tag::Box(look))?;
    let bytes = heading(
        alloc,
        bytes,
        view.earlier,
        &action.name,
        &action.after,
        &action.kind,
        rows,
    )?;
    let bytes = in_kind(alloc, bytes, view, &action.kind)?;
    close(bytes, Tag::Box(look))
}

// The graphs that an action holds.
#[cycle(draw)]
#[tactic(auto, using(wf_html::proofs::PieceLemmas::written_append))]
fn in_kind(alloc: Global, bytes: Vec<u8>, view: &View, kind: &Kind) -> Result<Vec<u8>, AllocError>
    ensures { IfOk result (λ b. b.items ≡ written bytes.items (kind_pieces (view_tree view.now) (kind_tree kind.now))) }
{
    match kind {
        Kind::Scope { graph } => in_one(alloc, bytes, view, b"inside", graph),
        Kind::If { test: _, yes, no } => {
            let bytes = open(bytes, Tag::Branches)?;
            let bytes = in_held(alloc, bytes, view, b"where the test holds", yes)?;
            let bytes = in_held(alloc, bytes, view, b"else", no)?;
            close(bytes, Tag::Branches)
        }
        Kind::Switch {
            on: _,
            cases,
            default,
        } => {
            let bytes = open(bytes, Tag::Branches)?;
            let bytes = in_cases(alloc, bytes, view, cases)?;
            match default {
                Some(graph) => {
                    let bytes = in_held(alloc, bytes, view, b"default", graph)?;
                    close(bytes, Tag::Branches)
                }
                None => close(bytes, Tag::Branches),
            }
        }
        Kind::Foreach {
            list: _,
            repetitions: _,
            graph,
        } => in_one(alloc, bytes, view, b"for each item", graph),
        Kind::Until {
            test: _,
            count: _,
            fails: _,
            graph,
        } => in_one(alloc, bytes, view, b"until the test holds", graph),
        _ => Ok(bytes),
    }
}

// The only graph that a container holds.
#[cycle(draw)]
#[tactic(auto, using(wf_html::proofs::PieceLemmas::written_append))]
fn in_one(
    alloc: Global,
    bytes: Vec<u8>,
    view: &View,
    word: &[u8],
    graph: &Graph,
) -> Result<Vec<u8>, AllocError>
    ensures { IfOk result (λ b. b.items ≡ written bytes.items
        (inside Tag.Branches (held word.now (graph_pieces (view_tree view.now) (graph_tree graph.now))))) }
{
    let bytes = open(bytes, Tag::Branches)?;
    let bytes = in_held(alloc, bytes, view, word, graph)?;
    close(bytes, Tag::Branches)
}

// A graph that a container holds, and when it is taken.
#[cycle(draw)]
#[tactic(auto, using(wf_html::proofs::PieceLemmas::written_append))]
fn in_held(
    alloc: Global,
    bytes: Vec<u8>,
    view: &View,
    word: &[u8],
    graph: &Graph,
) -> Result<Vec<u8>, AllocError>
    ensures { IfOk result (λ b. b.items ≡ written bytes.items
        (held word.now (graph_pieces (view_tree view.now) (graph_tree graph.now)))) }
{
    let bytes = open(bytes, Tag::Branch)?;
    let bytes = case_in(bytes, word)?;
    let bytes = in_graph(alloc, bytes, view, graph)?;
    close(bytes, Tag::Branch)
}

#[cycle(draw)]
#[tactic(auto, using(wf_html::proofs::PieceLemmas::written_append))]
fn in_cases(
    alloc: Global,
    bytes: Vec<u8>,
    view: &View,
    cases: &Cases,
) -> Result<Vec<u8>, AllocError>
    ensures { IfOk result (λ b. b.items ≡ written bytes.items (cases_pieces (view_tree view.now) (case_trees (cases_seen cases.now)))) }
{
    let mut bytes = bytes;
    for case in cases.as_slice() {
        let word = case_word(alloc, &case.name, &case.value)?;
        bytes = in_held(alloc, bytes, view, &word, &case.graph)?;
    }
    Ok(bytes)
}
