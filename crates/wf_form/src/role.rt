//! What a value of a definition stands for.
ghost use Rattle.std.specs.Prelude.{◌≡◌};
ghost use Rattle.wf_form.specs.Role.{child, deeper, graph_at, held, holder_of, section};
ghost use Rattle.wf_texts.specs.ActionType.{type_of};
ghost use Rattle.wf_val.specs.Seen.{tree};

use wf_texts::ActionType;
use wf_val::Val;

/// What a value stands for that rules look at. A level is that of the actions there: 1 for those of the definition's own graph, 9
/// for all that lie deeper than 8.
#[derive(Clone, Copy, PartialEq, Eq)]
pub enum Role {
    Definition,
    Parameters,
    Triggers,
    Outputs,
    Parameter,
    Trigger,
    Output,
    Graph(u32),
    Action(u32),
    Branch(u32),
    Cases(u32),
    Case(u32),
}

/// Which members of an action hold graphs.
#[derive(Clone, Copy, PartialEq, Eq)]
pub enum Holder {
    Nothing,
    /// `actions`.
    One,
    /// `actions` and `else`.
    Two,
    /// `cases` and `default`.
    Many,
}

fn deeper(level: u32) -> u32
    ensures { result ≡ deeper level }
{
    if level < 9 { level + 1 } else { 9 }
}

impl Holder {
    pub(crate) fn of(value: &Val) -> Holder
        ensures { result ≡ holder_of (tree value.now) }
    {
        match ActionType::of(value) {
            Some(ActionType::Scope) | Some(ActionType::Foreach) | Some(ActionType::Until) =>
                Holder::One,
            Some(ActionType::If) => Holder::Two,
            Some(ActionType::Switch) => Holder::Many,
            _ => Holder::Nothing,
        }
    }
}

fn section(key: &str) -> Option<Role>
    ensures { result ≡ section key.now }
{
    match key {
        "actions" => Some(Role::Graph(1)),
        "parameters" => Some(Role::Parameters),
        "triggers" => Some(Role::Triggers),
        "outputs" => Some(Role::Outputs),
        _ => None,
    }
}

fn graph_at(level: u32, key: &str) -> Option<Role>
    ensures { result ≡ graph_at level key.now }
{
    match key {
        "actions" => Some(Role::Graph(deeper(level))),
        _ => None,
    }
}

impl Holder {
    fn held(self, level: u32, key: &str) -> Option<Role>
        ensures { result ≡ held self level key.now }
    {
        match (self, key) {
            (Holder::One, _) => graph_at(level, key),
            (Holder::Two, "else") => Some(Role::Branch(level)),
            (Holder::Two, _) => graph_at(level, key),
            (Holder::Many, "cases") => Some(Role::Cases(level)),
            (Holder::Many, "default") => Some(Role::Branch(level)),
            _ => None,
        }
    }
}

impl Role {
    /// What a member stands for; the rules look at no other member.
    pub(crate) fn child(self, holder: Holder, key: &str) -> Option<Role>
        ensures { result ≡ child self holder key.now }
    {
        match self {
            Role::Definition => section(key),
            Role::Parameters => Some(Role::Parameter),
            Role::Triggers => Some(Role::Trigger),
            Role::Outputs => Some(Role::Output),
            Role::Parameter | Role::Trigger | Role::Output => None,
            Role::Graph(level) => Some(Role::Action(level)),
            Role::Action(level) => holder.held(level, key),
            Role::Branch(level) | Role::Case(level) => graph_at(level, key),
            Role::Cases(level) => Some(Role::Case(level)),
        }
    }
}
