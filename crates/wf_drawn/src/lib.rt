//! The page of a definition and a record of one of its runs.
//!
//! A definition is drawn as its graphs are: actions in levels from top to bottom, each below all that it waits for, those of one level side
//! by side, and containers as boxes round the graphs that they hold. Each action has its rows with it (`wf_shown`), and looks as they do.
//!
//! `specs/Drawn.antt` says which pieces a page has (`wf_html`), `specs/Levels.antt` on which level an action stands.
#![tactic(auto)]

mod after;
mod graph;
mod kind;
mod laws;
mod levels;
mod page;
mod view;

pub use laws::{
    a_page_is_nested, actions_stand_below_what_they_wait_for, each_action_is_drawn_once,
    each_row_is_drawn_once,
};
pub use page::draw;
