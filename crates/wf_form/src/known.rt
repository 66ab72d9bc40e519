//! What is known of the whole definition, wherever a rule looks.
ghost use Rattle.std.specs.Prelude.{◌≡◌, ℕ, List, bytes_eq, map, nat_lt, option_map, IfOk};
ghost use Rattle.wf_val.specs.Seen.{tree, member};
ghost use Rattle.wf_form.specs.KnownSeen.{is_listed, whole_seen};
ghost use Rattle.wf_form.specs.Whole.{count_named, count_variables, variables_by, variables_in, whole_among, whole_of};
ghost use Rattle.wf_texts.specs.ActionType.{type_of};

use crate::actions::actions_of;
use std::alloc::{AllocError, Global};
use std::collections::BTreeSet;
use wf_texts::{ActionType, input};
use wf_val::{Text, Val};

const MOST_VARIABLES: u64 = 250;

/// How many actions there are, whether there are too many variables, and which names more than one action has.
#[derive(Drop)]
pub(crate) struct Known<'a> {
    actions: usize,
    has_too_many_variables: bool,
    repeated: BTreeSet<&'a str>,
}

#[tactic(auto, using(wf_val::proofs::ValueTreeLemmas::listed))]
fn variables_in(value: Option<&Val>) -> u64
    ensures { result ≡ variables_in (option_map (λ v. tree v.now) value.entry) }
{
    match value {
        Some(Val::List(variables)) => variables.len(),
        _ => 0,
    }
}

// How many variables an action makes.
fn variables_by(action: &Val) -> u64
    ensures { result ≡ variables_by (type_of (tree action.now)) (tree action.now) }
{
    match ActionType::of(action) {
        Some(ActionType::InitializeVariable) => variables_in(input(action, "variables")),
        _ => 0,
    }
}

fn make_too_many_variables(actions: &[&(Text, Val)]) -> bool
    ensures { result ≡ nat_lt 250 (count_variables (map (λ m. member m.now) actions.now)) }
{
    let mut left = MOST_VARIABLES;
    for action in actions {
        let made = variables_by(&action.1);
        if made > left {
            return true;
        }
        left -= made;
    }
    false
}

// The names that stand again.
fn repeated<'a>(alloc: Global, actions: &[&'a (Text, Val)]) -> Result<BTreeSet<&'a str>, AllocError>
    ensures { IfOk result (λ names. (name : List ℕ) → is_listed name (map (λ k. k.now) names.keys)
        ≡ nat_lt 1 (count_named name (map (λ m. member m.now) actions.now))) }
{
    let mut seen = BTreeSet::new(alloc);
    let mut again = BTreeSet::new(alloc);
    for action in actions {
        if seen.insert(action.0.as_str())? {
            continue;
        }
        let _is_second = again.insert(action.0.as_str())?;
    }
    Ok(again)
}

impl<'a> Known<'a> {
    fn among(alloc: Global, actions: &[&'a (Text, Val)]) -> Result<Known<'a>, AllocError>
        ensures { IfOk result (λ known. whole_seen known ≡ whole_among (map (λ m. member m.now) actions.now)) }
    {
        Ok(Known {
            actions: actions.len(),
            has_too_many_variables: make_too_many_variables(actions),
            repeated: repeated(alloc, actions)?,
        })
    }

    /// What is to be known of a definition.
    pub(crate) fn of(alloc: Global, definition: &'a Val) -> Result<Known<'a>, AllocError>
        ensures { IfOk result (λ known. whole_seen known ≡ whole_of (tree definition.now)) }
    {
        let actions = actions_of(alloc, definition)?;
        Known::among(alloc, &actions)
    }

    pub(crate) fn actions(&self) -> usize
        ensures { result ≡ (whole_seen self.now).actions }
    {
        self.actions
    }

    pub(crate) fn has_too_many_variables(&self) -> bool
        ensures { result ≡ (whole_seen self.now).has_too_many_variables }
    {
        self.has_too_many_variables
    }

    /// Whether more than one action has the name.
    pub(crate) fn repeats(&self, name: &str) -> bool
        ensures { result ≡ (whole_seen self.now).repeats name.now }
    {
        self.repeated.contains(name)
    }
}
