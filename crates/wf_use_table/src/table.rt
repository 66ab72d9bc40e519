//! The uses of all sites.
ghost use Rattle.std.specs.Prelude.{◌≡◌, ◌<◌, ℕ, IfOk, Some, None, length, map, nat_eq, option_map, slice_get, if◌then◌else◌};
ghost use Rattle.std.specs.List.{find};
ghost use Rattle.std.specs.Option.{option_or};
ghost use Rattle.wf_def.specs.ActionSeen.{action_tree};
ghost use Rattle.wf_def.specs.DefSeen.{output_tree, trigger_tree};
ghost use Rattle.wf_refs.specs.ReadSeen.{def_tree};
ghost use Rattle.wf_def.specs.AllActions.{has_number};
ghost use Rattle.wf_refs.specs.UsesSeen.{uses_seen};
ghost use Rattle.wf_use_table.specs.Seen.{action_at, action_uses_seen, is_free, kept_at, uses_at};
ghost use Rattle.wf_refs.specs.Sites.{action_uses, uses_at_output, uses_at_trigger, uses_of};
ghost use Rattle.wf_refs.specs.declared.site.Site.{Site};

use std::alloc::{AllocError, Global};
use wf_def::{Action, Output, Trigger, all_actions};
use wf_refs::{Def, Site, Uses, at_inputs, at_items, at_output, at_test, at_tracked, at_trigger};

/// The uses of an action's sites.
#[derive(Drop)]
pub(crate) struct ActionUses<'a> {
    pub(crate) inputs: Uses<'a>,
    pub(crate) items: Option<Uses<'a>>,
    pub(crate) test: Option<Uses<'a>>,
    pub(crate) tracked: Uses<'a>,
}

/// The uses of all sites of a definition, from which their names are borrowed.
#[derive(Drop)]
pub struct UseTable<'a> {
    // By their numbers.
    actions: Vec<Option<ActionUses<'a>>>,
    outputs: Vec<Uses<'a>>,
    triggers: Vec<Uses<'a>>,
}

fn of_action<'a>(alloc: Global, action: &'a Action) -> Result<ActionUses<'a>, AllocError>
    ensures { IfOk result (λ uses. action_uses_seen uses ≡ action_uses (action_tree action.now)) }
{
    Ok(ActionUses {
        inputs: at_inputs(alloc, action)?,
        items: at_items(alloc, action)?,
        test: at_test(alloc, action)?,
        tracked: at_tracked(alloc, action)?,
    })
}

// The table with room for a number.
fn grown<T: Drop>(table: Vec<Option<T>>, number: usize) -> Result<Vec<Option<T>>, AllocError>
    ensures room { IfOk result (λ all. number < length all.items) }
    ensures same { IfOk result (λ all. (n : ℕ) → kept_at all.items n ≡ kept_at table.items n) }
{
    let mut all = table;
    while all.len() <= number {
        all.push(None)?;
    }
    Ok(all)
}

fn is_free<T: Drop>(table: &[Option<T>], number: usize) -> bool
    ensures { result ≡ is_free (kept_at table.now number) }
{
    match table.get(number) {
        Some(Some(_)) => false,
        _ => true,
    }
}

// The table with a value at a number, where that is free.
#[tactic(auto, using(crate::proofs::TableLemmas::put_free, crate::proofs::TableLemmas::put_taken))]
fn put<T: Drop>(
    table: Vec<Option<T>>,
    number: usize,
    value: T,
) -> Result<Vec<Option<T>>, AllocError>
    ensures { IfOk result (λ all. (n : ℕ) → kept_at all.items n
        ≡ option_or (kept_at table.items n) (if nat_eq n number then Some value else None)) }
{
    let mut all = grown(table, number)?;
    if !is_free(&all, number) {
        return Ok(all);
    }
    all[number] = Some(value);
    Ok(all)
}

// The uses of actions, by their numbers.
fn of_actions<'a>(
    alloc: Global,
    actions: &[&'a Action],
) -> Result<Vec<Option<ActionUses<'a>>>, AllocError>
    ensures { IfOk result (λ all. (n : ℕ) → action_at all.items n
        ≡ option_map action_uses (find (has_number n) (map (λ a. action_tree a.now) actions.now))) }
{
    let mut all = Vec::with_capacity(alloc, actions.len())?;
    for action in actions {
        let uses = of_action(alloc, action)?;
        all = put(all, action.number as usize, uses)?;
    }
    Ok(all)
}

fn of_outputs<'a>(alloc: Global, outputs: &'a [Output]) -> Result<Vec<Uses<'a>>, AllocError>
    ensures { IfOk result (λ all. map uses_seen all.items ≡ map uses_at_output (map output_tree outputs.now)) }
{
    let mut all = Vec::with_capacity(alloc, outputs.len())?;
    for output in outputs {
        all.push(at_output(alloc, output)?)?;
    }
    Ok(all)
}

fn of_triggers<'a>(alloc: Global, triggers: &'a [Trigger]) -> Result<Vec<Uses<'a>>, AllocError>
    ensures { IfOk result (λ all. map uses_seen all.items ≡ map uses_at_trigger (map trigger_tree triggers.now)) }
{
    let mut all = Vec::with_capacity(alloc, triggers.len())?;
    for trigger in triggers {
        all.push(at_trigger(alloc, trigger)?)?;
    }
    Ok(all)
}

/// What is asked for at each site of a definition.
pub fn refs<'a>(alloc: Global, def: &'a Def) -> Result<UseTable<'a>, AllocError>
    ensures { IfOk result (λ table. (site : Site) → uses_at table site ≡ uses_of (def_tree def.now) site) }
{
    let actions = all_actions(alloc, &def.top)?;
    Ok(UseTable {
        actions: of_actions(alloc, &actions)?,
        outputs: of_outputs(alloc, def.outputs.as_slice())?,
        triggers: of_triggers(alloc, def.triggers.as_slice())?,
    })
}

impl<'a> UseTable<'a> {
    fn action(&self, number: u32) -> Option<&ActionUses<'a>>
        ensures { option_map (λ a. action_uses_seen a.now) result ≡ action_at self.now.actions.items number }
    {
        match self.actions.get(number as usize) {
            Some(Some(uses)) => Some(uses),
            _ => None,
        }
    }

    /// The uses of a site; none where the definition has no such site. It takes as long for each.
    pub fn at(&self, site: Site) -> Option<&Uses<'a>>
        ensures { option_map (λ u. uses_seen u.now) result ≡ uses_at self.now site }
    {
        match site {
            Site::Inputs(number) => Some(&self.action(number)?.inputs),
            Site::Items(number) => self.action(number)?.items.as_ref(),
            Site::Test(number) => self.action(number)?.test.as_ref(),
            Site::Tracked(number) => Some(&self.action(number)?.tracked),
            Site::Outputs(place) => self.outputs.get(place as usize),
            Site::Trigger(place) => self.triggers.get(place as usize),
        }
    }
}
