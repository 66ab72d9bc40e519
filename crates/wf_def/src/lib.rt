//! The parts of a workflow definition: its graph of actions, and its parameters, triggers and outputs.
//!
//! A definition of Azure Logic Apps (Workflow Definition Language, schema 2016-06-01) is a graph of named actions. An action has a kind,
//! which says what it does, and waits for actions of its own graph by `runAfter`. Containers (Scope, If, Switch, Foreach, Until) hold
//! graphs of their own. The types here are what a definition is to all that order, check and run it: texts are parsed templates, options
//! are read, each action has its number and the pointer to its place in the file.
//!
//! A graph holds actions which hold graphs, so contracts see each as a tree over plain lists and numbers (`specs/ActionTree.antt`), and
//! `specs/ActionSeen.antt` says which tree it is. `layered` of `specs/Layered.antt` is the graph of `wf_layers` that a definition is to
//! the laws of order and meaning: actions by their numbers, and of each kind what matters there.
//!
//! This crate reads no value (`wf_reading` does), and promises nothing of a graph: any graph may be put together by hand. What is known of
//! a definition that was read, such as that names stand once, is told by `wf_reading::Def`. What takes memory takes its allocator, and
//! answers an error where none is left, with everything that it was lent as before; what the call was given by value is then dropped.
#![tactic(auto)]

mod actions;
mod after;
mod find;
mod graph;
mod names;
mod section;
mod sort;

pub use actions::all_actions;
pub use after::{After, Afters, Statuses};
pub use graph::{Action, Actions, Case, Cases, Graph, Kind};
pub use section::{Output, Outputs, Param, Params, Templates, Trigger, Triggers};
pub use sort::{Initial, Initials, Sort};
