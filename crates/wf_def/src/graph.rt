//! Graphs of actions.
ghost use Rattle.std.specs.Prelude.{◌≡◌, ◌<◌, ◌^◌, [], ◌∷◌, ◌++◌, length, map, option_map, slice_get, OnOk, OnErr};
ghost use Rattle.wf_def.specs.ActionTree.{action_trees};
ghost use Rattle.wf_def.specs.ActionSeen.{action_tree, actions_seen, case_tree, cases_seen, graph_tree};

use crate::after::Afters;
use crate::sort::Initials;
use std::alloc::{AllocError, Global};
use wf_retry::Policy;
use wf_schema::Schema;
use wf_template::{Cond, Template, Tree, TreeFields};
use wf_val::{Name, Text, Val};

/// The members of one `actions` object.
#[cycle(graph)]
#[derive(Drop)]
pub struct Graph {
    pub actions: Actions,
}

/// An action of a graph.
#[cycle(graph)]
#[derive(Drop)]
pub struct Action {
    pub name: Name,
    /// Its place among the actions of the whole definition in byte order of their names, counted from 0.
    pub number: u32,
    /// Where it stands in the definition (RFC 6901).
    pub pointer: Text,
    /// The member `runAfter`.
    pub after: Afters,
    pub kind: Kind,
    /// The member `trackedProperties`.
    pub tracked: TreeFields,
}

/// What an action does ("Schema reference guide for trigger and action types").
#[cycle(graph)]
#[derive(Drop)]
pub enum Kind {
    Compose {
        inputs: Tree,
    },
    /// Http and the seven other types that call out; `retryPolicy` is taken out of the inputs.
    Connector {
        inputs: Tree,
        policy: Policy,
    },
    Wait {
        inputs: Tree,
    },
    Response {
        inputs: Tree,
    },
    Terminate {
        inputs: Tree,
    },
    Select {
        from: Tree,
        select: Tree,
    },
    /// `filter` is the member `where`.
    Query {
        from: Tree,
        filter: Template,
    },
    /// `with` is the member `joinWith`.
    Join {
        from: Tree,
        with: Tree,
    },
    /// What is read has to be as the schema asks, where there is one.
    ParseJson {
        content: Tree,
        schema: Option<Schema>,
    },
    Initialize {
        variables: Initials,
    },
    Set {
        name: Text,
        value: Tree,
    },
    /// Without a value by 1.
    Increment {
        name: Text,
        value: Option<Tree>,
    },
    Decrement {
        name: Text,
        value: Option<Tree>,
    },
    AppendArray {
        name: Text,
        value: Tree,
    },
    AppendString {
        name: Text,
        value: Tree,
    },
    Scope {
        graph: Graph,
    },
    If {
        test: Cond,
        yes: Graph,
        no: Graph,
    },
    /// Of the cases the one is taken whose value is that of `on`, else the default.
    Switch {
        on: Template,
        cases: Cases,
        default: Option<Graph>,
    },
    /// At most `repetitions` iterations go at a time, 1 to 50; one after the other where they are 1.
    Foreach {
        list: Tree,
        repetitions: u32,
        graph: Graph,
    },
    /// At most `count` iterations, 1 to 5,000; `fails` says whether it fails as the count is reached.
    Until {
        test: Cond,
        count: u32,
        fails: bool,
        graph: Graph,
    },
}

/// A case of a Switch. Its value is a text, which is no template, or a number.
#[cycle(graph)]
#[derive(Drop)]
pub struct Case {
    pub name: Name,
    pub value: Val,
    pub graph: Graph,
}

/// The actions of one graph, in byte order of their names; seen as the list of their trees.
#[cycle(graph)]
#[derive(Drop)]
pub struct Actions {
    items: Vec<Action>,
}

/// Cases in byte order of their names; seen as the list of their trees.
#[cycle(graph)]
#[derive(Drop)]
pub struct Cases {
    items: Vec<Case>,
}

impl Actions {
    /// No actions.
    pub fn new(alloc: Global) -> Self
        ensures { actions_seen result ≡ [] }
    {
        Actions {
            items: Vec::new(alloc),
        }
    }

    /// How many actions there are.
    pub fn len(&self) -> u64
        ensures count { result ≡ length (actions_seen self.now) }
        ensures in_range { result < 2 ^ 63 }
    {
        self.items.len() as u64
    }

    /// The action at a place, counted from 0.
    pub fn at(&self, place: u64) -> Option<&Action>
        ensures { option_map (λ a. action_tree a.now) result ≡ slice_get (actions_seen self.now) place }
    {
        self.items.get(place as usize)
    }

    /// The actions, for a loop.
    pub fn as_slice(&self) -> &[Action]
        ensures { map action_tree result.now ≡ actions_seen self.now }
    {
        &self.items
    }

    /// Adds an action behind the others.
    pub fn push(&mut self, item: Action) -> Result<(), AllocError>
        ensures ok { OnOk result (actions_seen self.new ≡ actions_seen self.old ++ action_tree item ∷ []) }
        ensures err { OnErr result (actions_seen self.new ≡ actions_seen self.old) }
    {
        self.items.push(item)?;
        Ok(())
    }
}

impl Cases {
    /// No cases.
    pub fn new(alloc: Global) -> Self
        ensures { cases_seen result ≡ [] }
    {
        Cases {
            items: Vec::new(alloc),
        }
    }

    /// How many cases there are.
    pub fn len(&self) -> u64
        ensures count { result ≡ length (cases_seen self.now) }
        ensures in_range { result < 2 ^ 63 }
    {
        self.items.len() as u64
    }

    /// The case at a place, counted from 0.
    pub fn at(&self, place: u64) -> Option<&Case>
        ensures { option_map (λ c. case_tree c.now) result ≡ slice_get (cases_seen self.now) place }
    {
        self.items.get(place as usize)
    }

    /// The cases, for a loop.
    pub fn as_slice(&self) -> &[Case]
        ensures { map case_tree result.now ≡ cases_seen self.now }
    {
        &self.items
    }

    /// Adds a case behind the others.
    pub fn push(&mut self, item: Case) -> Result<(), AllocError>
        ensures ok { OnOk result (cases_seen self.new ≡ cases_seen self.old ++ case_tree item ∷ []) }
        ensures err { OnErr result (cases_seen self.new ≡ cases_seen self.old) }
    {
        self.items.push(item)?;
        Ok(())
    }
}

impl Graph {
    /// The graph of these actions.
    pub fn of(actions: Actions) -> Graph
        ensures { graph_tree result ≡ action_trees (actions_seen actions) }
    {
        Graph { actions }
    }
}
