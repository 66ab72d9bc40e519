//! What is asked for at one site.
ghost use Rattle.std.specs.Prelude.{◌≡◌, IfOk, [], map};
ghost use Rattle.wf_uses.specs.Named.{names_by};
ghost use Rattle.wf_uses.specs.Seen.{found_uses, uses_seen};
ghost use Rattle.wf_uses.specs.UsesTree.{ordered, uses_tree};

use crate::found::{Found, asks_for, names_by};
use crate::named::{Asked, Named};
use crate::names::Names;
use std::alloc::{AllocError, Global};
use wf_val::Text;

/// What the expressions of one site ask for.
#[derive(Drop)]
pub struct Uses<'a> {
    /// The actions that `actions`, `outputs` and `body` name.
    pub names: Names<'a>,
    /// The actions that `result` names.
    pub results: Names<'a>,
    /// The variables that `variables` names.
    pub reads: Names<'a>,
    /// The variables that the action initialises or writes. They stand at its inputs alone.
    pub writes: Names<'a>,
    pub parameters: Names<'a>,
    /// The loops that `items` names.
    pub items: Names<'a>,
    /// The loops that `iterationIndexes` names.
    pub indexes: Names<'a>,
    /// Whether `item` is called.
    pub item: bool,
    /// Whether `action` is called.
    pub own: bool,
    /// Whether `guid` or `rand` is called.
    pub words: bool,
    /// Whether `utcNow`, `getFutureTime` or `getPastTime` is called.
    pub moment: bool,
    /// Whether `workflow` is called.
    pub run: bool,
}

fn named<'a>(alloc: Global, named: Named, found: &[Found<'a>]) -> Result<Names<'a>, AllocError>
    ensures { IfOk result (λ names. names ≡ ordered (names_by named (found_uses found.now))) }
{
    Names::of(alloc, names_by(alloc, named, found)?)
}

impl<'a> Uses<'a> {
    /// What was found at a site that writes these variables.
    pub fn of(
        alloc: Global,
        writes: Vec<&'a Text>,
        found: &[Found<'a>],
    ) -> Result<Uses<'a>, AllocError>
        ensures { IfOk result (λ uses. uses_seen uses ≡ uses_tree (map (λ n. n.now) writes.entry.items) (found_uses found.now)) }
    {
        Ok(Uses {
            names: named(alloc, Named::Row, found)?,
            results: named(alloc, Named::Result, found)?,
            reads: named(alloc, Named::Variable, found)?,
            writes: Names::of(alloc, writes)?,
            parameters: named(alloc, Named::Parameter, found)?,
            items: named(alloc, Named::Item, found)?,
            indexes: named(alloc, Named::Index, found)?,
            item: asks_for(Asked::Item, found),
            own: asks_for(Asked::Own, found),
            words: asks_for(Asked::Words, found),
            moment: asks_for(Asked::Moment, found),
            run: asks_for(Asked::Run, found),
        })
    }

    /// What was found at a site that writes nothing.
    pub fn reading(alloc: Global, found: &[Found<'a>]) -> Result<Uses<'a>, AllocError>
        ensures { IfOk result (λ uses. uses_seen uses ≡ uses_tree [] (found_uses found.now)) }
    {
        Uses::of(alloc, Vec::new(alloc), found)
    }
}
