//! A definition from the value of a file.
ghost use Rattle.std.specs.Prelude.{◌≡◌, ◌≢◌, Some, None, IfOk, IfErr, OnOk, codes, map, option_map};
ghost use Rattle.sha2.specs.Sha256.{sha256};
ghost use Rattle.wf_val.specs.Get.{get, name_of};
ghost use Rattle.wf_val.specs.Seen.{tree, member};
ghost use Rattle.wf_form.specs.Json.{json};
ghost use Rattle.wf_form.specs.Fault.{fault_of};
ghost use Rattle.wf_def.specs.ActionSeen.{action_tree, graph_tree};
ghost use Rattle.wf_def.specs.Names.{find_in};
ghost use Rattle.wf_reading.specs.Meant.{definition_in, definition_of, given_at, names_of, top_at};
ghost use Rattle.wf_reading.specs.Numbers.{number_among};
ghost use Rattle.wf_reading.specs.Read.{IsRead, tree_of_parts};
ghost use Rattle.wf_reading.specs.ReadSeen.{def_tree, fault_in};
ghost use Rattle.wf_reading.specs.declared.definition.RuleFault.{RuleFault};

use crate::afters::entries;
use crate::definition::{Def, RuleFault};
use crate::graphs::{graph_of, no_actions};
use crate::numbers::Numbers;
use crate::sections::{given_in, outputs_of, parameters_of, triggers_of};
use sha2::{Digest as _, Sha256};
use std::alloc::{AllocError, Global};
use wf_def::{Action, Graph, Outputs, Params, Triggers};
use wf_val::{Digest, Fields, Name, Text, Val};

// The parts of a definition that may break any rule.
#[derive(Drop)]
struct Parts {
    digest: Digest,
    parameters: Params,
    given: Fields,
    triggers: Triggers,
    top: Graph,
    outputs: Outputs,
}

fn digest_of(alloc: Global, definition: &Val) -> Result<Digest, AllocError>
    ensures { IfOk result (λ d. d.bytes ≡ sha256 (json (tree definition.now))) }
{
    let text = wf_form::write(alloc, definition)?;
    Ok(Digest {
        bytes: Sha256::digest(text.as_slice()),
    })
}

fn names_of<'a>(alloc: Global, definition: &'a Val) -> Result<Vec<&'a Name>, AllocError>
    ensures { IfOk result (λ names. map (λ n. n.now) names.items ≡ names_of (tree definition.now)) }
{
    let actions = wf_form::actions_of(alloc, definition)?;
    names_among(alloc, &actions)
}

fn names_among<'a>(alloc: Global, actions: &[&'a (Text, Val)]) -> Result<Vec<&'a Name>, AllocError>
    ensures { IfOk result (λ names. map (λ n. n.now) names.items ≡ map name_of (map (λ m. member m.now) actions.now)) }
{
    let mut names = Vec::new(alloc);
    for action in actions {
        names.push(&action.0)?;
    }
    Ok(names)
}

fn top_at(alloc: Global, numbers: &Numbers<'_>, value: Option<&Val>) -> Result<Graph, AllocError>
    ensures { IfOk result (λ g. graph_tree g ≡ top_at (number_among numbers.now) (option_map (λ v. tree v.now) value.entry)) }
{
    match value {
        None => Ok(no_actions(alloc)),
        Some(value) => graph_of(alloc, numbers, "/actions", value),
    }
}

fn top_of(alloc: Global, definition: &Val) -> Result<Graph, AllocError>
    ensures { IfOk result (λ g. graph_tree g ≡ top_at (number_among (names_of (tree definition.now))) (get (codes "actions") (tree definition.now))) }
{
    let numbers = Numbers::of(names_of(alloc, definition)?)?;
    top_at(alloc, &numbers, definition.member("actions"))
}

// The values that a wrapper gives.
fn given_at(alloc: Global, file: &Val) -> Result<Fields, AllocError>
    ensures { IfOk result (λ given. given ≡ given_at (get (codes "definition") (tree file.now)) (tree file.now)) }
{
    match file.member("definition") {
        None => Ok(Fields::new(alloc)),
        Some(_) => given_in(alloc, entries(file.member("parameters"))),
    }
}

fn parts_of(alloc: Global, file: &Val, definition: &Val) -> Result<Parts, AllocError>
    ensures { IfOk result (λ p. tree_of_parts p.digest p.parameters p.given p.triggers p.top p.outputs ≡ definition_in (tree file.now) (tree definition.now)) }
{
    Ok(Parts {
        digest: digest_of(alloc, definition)?,
        parameters: parameters_of(alloc, entries(definition.member("parameters")))?,
        given: given_at(alloc, file)?,
        triggers: triggers_of(alloc, entries(definition.member("triggers")))?,
        top: top_of(alloc, definition)?,
        outputs: outputs_of(alloc, entries(definition.member("outputs")))?,
    })
}

/// The definition that the value of a file means, or the first rule that it breaks with the least pointer. The file is the definition, or
/// an object whose member `definition` it is.
pub fn read_def(alloc: Global, file: &Val) -> Result<Def, RuleFault>
    // What is read is what the file means.
    ensures means { IfOk result (λ d. def_tree d ≡ definition_of (tree file.now)) }
    // It breaks no rule.
    ensures holds { OnOk result (fault_of (tree file.now) ≡ None) }
    // Each other answer but want of memory is the fault of the file.
    ensures fault { IfErr result (λ f. f ≢ RuleFault.Memory → fault_in (tree file.now) ≡ Some f) }
{
    file.always_well_formed();
    match wf_form::fault_of(alloc, file)? {
        Some((rule, pointer)) => Err(RuleFault::Rule { rule, pointer }),
        None => {
            let parts = parts_of(alloc, file, wf_form::inner(file))?;
            Ok(Def {
                digest: parts.digest,
                parameters: parts.parameters,
                given: parts.given,
                triggers: parts.triggers,
                top: parts.top,
                outputs: parts.outputs,
            })
        }
    }
}

impl Def {
    /// Tells a caller that the definition was read, from which the laws of this crate go on, and does nothing.
    pub fn always_read(&self)
        ensures { IsRead (def_tree self.now) }
    {
        let _ = &self.top;
    }

    /// The action of a name. It walks the graphs once at most.
    pub fn action(&self, name: &Name) -> Option<&Action>
        ensures { option_map (λ a. action_tree a.now) result ≡ find_in name.now (def_tree self.now).top }
    {
        self.top.find(name)
    }
}
