//! Which texts of a definition are bad where a template is asked, and the least pointer (RFC 6901) to one.
//!
//! In some members of an action every text is a template (Workflow Definition Language, "Expressions"): which they are goes
//! by the action's type. Such a text is bad where it spells no template, or where one of its calls, however deep inside, is of
//! no function, has more or fewer arguments than its function takes, or tells a function such as `outputs` or `variables` a
//! name that would have to be computed. `bad_texts_of_action`, `bad_texts_of_trigger` and `bad_texts_of_output` look for the
//! least pointer to such a text, from the action, the trigger or the output on. All other texts stand for themselves.
//!
//! It builds no templates for a run, and doesn't ask whether what a call names is there. It looks at one action alone, not at
//! the actions inside it.
#![tactic(auto)]

mod bad;
mod calls;
mod laws;
mod members;
mod sound;

pub use laws::pointers_lead_to_bad_texts;
pub use members::{bad_texts_of_action, bad_texts_of_output, bad_texts_of_trigger};
pub use sound::is_bad;
pub use wf_kinds::{
    ActionType, action_has_members, input, output_has_members, trigger_has_members,
};
