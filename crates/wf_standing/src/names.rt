//! The actions of a definition by their names.
ghost use Rattle.std.specs.List.{find};
ghost use Rattle.std.specs.Option.{option_or};
ghost use Rattle.std.specs.Prelude.{◌≡◌, ℕ, List, Some, None, IfOk, OnOk, bytes_eq, cond, map, option_map};
ghost use Rattle.wf_standing.specs.Seen.{action_found, standing_tree};
ghost use Rattle.wf_standing.specs.Whole.{has_name};

use crate::standing::Standing;
use std::alloc::{AllocError, Global};
use wf_lists::{Keyed, Sorted};
use wf_val::Name;

/// An action under its name.
#[derive(Drop)]
pub(crate) struct Named<'b, 'a> {
    pub(crate) name: &'a Name,
    pub(crate) standing: &'b Standing<'a>,
}

impl<'b, 'a: 'b> Keyed for Named<'b, 'a> {
    type Key = Name;

    ghost key_of = { λ n. n.name.now };

    fn key(&self) -> &Name {
        self.name
    }
}

/// Actions by their names.
pub(crate) type Names<'b, 'a> = Sorted<Named<'b, 'a>>;

/// The action that is kept for a name.
pub(crate) fn action_found<'b, 'a: 'b>(
    names: &Names<'b, 'a>,
    name: &Name,
) -> Option<&'b Standing<'a>>
    ensures { option_map (λ s. standing_tree s.now) result ≡ action_found names.now name.now }
{
    match names.get(name) {
        Some(named) => Some(named.standing),
        None => None,
    }
}

// Keeps an action for its name, where there is none yet.
fn add<'b, 'a: 'b>(
    names: &mut Names<'b, 'a>,
    name: &'a Name,
    standing: &'b Standing<'a>,
) -> Result<(), AllocError>
    ensures { OnOk result ((k : List ℕ) → action_found names.new k
        ≡ option_or (action_found names.old k) (cond (bytes_eq k name.now) (Some (standing_tree standing.now)) None)) }
{
    match action_found(names, name) {
        Some(_) => Ok(()),
        None => {
            names.put(Named { name, standing })?;
            Ok(())
        }
    }
}

/// The first of these actions that has each name.
pub(crate) fn names_of<'b, 'a: 'b>(
    alloc: Global,
    standings: &'b [Standing<'a>],
) -> Result<Names<'b, 'a>, AllocError>
    ensures { IfOk result (λ names. (k : List ℕ) → action_found names k ≡ find (has_name k) (map standing_tree standings.now)) }
{
    let mut names = Sorted::new(alloc);
    for standing in standings {
        add(&mut names, &standing.action.name, standing)?;
    }
    Ok(names)
}
