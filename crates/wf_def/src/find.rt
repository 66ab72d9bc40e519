//! The action of a name, at every depth of a graph.
ghost use Rattle.std.specs.Prelude.{◌≡◌, option_map};
ghost use Rattle.wf_def.specs.ActionTree.{case_trees};
ghost use Rattle.wf_def.specs.ActionSeen.{action_tree, cases_seen, graph_tree, kind_tree};
ghost use Rattle.wf_def.specs.Names.{find_at, find_cases, find_in, find_inside, first_of};

use crate::graph::{Action, Cases, Graph, Kind};
use wf_val::Name;

impl Graph {
    /// The first action that has the name, in the graph or at any depth inside it. It walks the whole graph once at most.
    #[cycle(find)]
    pub fn find<'a>(&'a self, name: &Name) -> Option<&'a Action>
        ensures { option_map (λ a. action_tree a.now) result ≡ find_in name.now (graph_tree self.now) }
    {
        for action in self.actions.as_slice() {
            if let Some(found) = action.find(name) {
                return Some(found);
            }
        }
        None
    }
}

impl Action {
    #[cycle(find)]
    fn find<'a>(&'a self, name: &Name) -> Option<&'a Action>
        ensures { option_map (λ a. action_tree a.now) result ≡ find_at name.now (action_tree self.now) }
    {
        if name.as_str() == self.name.as_str() {
            Some(self)
        } else {
            self.kind.find(name)
        }
    }
}

impl Kind {
    #[cycle(find)]
    fn find<'a>(&'a self, name: &Name) -> Option<&'a Action>
        ensures { option_map (λ a. action_tree a.now) result ≡ find_inside name.now (kind_tree self.now) }
    {
        match self {
            Kind::Scope { graph } => graph.find(name),
            Kind::If { test: _, yes, no } => first_of(yes.find(name), no.find(name)),
            Kind::Switch {
                on: _,
                cases,
                default,
            } => match default {
                Some(graph) => first_of(cases.find(name), graph.find(name)),
                None => cases.find(name),
            },
            Kind::Foreach {
                list: _,
                repetitions: _,
                graph,
            } => graph.find(name),
            Kind::Until {
                test: _,
                count: _,
                fails: _,
                graph,
            } => graph.find(name),
            _ => None,
        }
    }
}

impl Cases {
    #[cycle(find)]
    fn find<'a>(&'a self, name: &Name) -> Option<&'a Action>
        ensures { option_map (λ a. action_tree a.now) result ≡ find_cases name.now (case_trees (cases_seen self.now)) }
    {
        for case in self.as_slice() {
            if let Some(found) = case.graph.find(name) {
                return Some(found);
            }
        }
        None
    }
}

fn first_of<'a>(one: Option<&'a Action>, other: Option<&'a Action>) -> Option<&'a Action>
    ensures { option_map (λ a. action_tree a.now) result
        ≡ first_of (option_map (λ a. action_tree a.now) one.entry) (option_map (λ a. action_tree a.now) other.entry) }
{
    match one {
        Some(action) => Some(action),
        None => other,
    }
}
