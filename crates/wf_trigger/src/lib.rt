//! Which runs start.
//!
//! A run is started by the trigger that its inputs name, else by the only one of its definition, else by none. The
//! declared parameters get their values, from the inputs, from the wrapper round the definition, or their defaults. A
//! trigger's `splitOn` starts one run for each item of a list, and where one of its `conditions` doesn't hold none
//! starts. `runs` says all that, or the first of eight faults.
//!
//! `Starts` keeps once what its runs share. A split may start 100,000 runs, so the trigger's outputs are kept without
//! the body that each run replaces by its item, and `Starts::start` makes one start at a time.
//!
//! `specs/Runs.antt` is the whole rule, in its order; `specs/WorkedRows` of the proofs has it at worked values. An
//! expression of a trigger sees the trigger, the parameters, the inputs' run name and the moment, and nothing else
//! (`specs/TriggerLook.antt`). `Outside` is what any expression sees that stands in no loop, for the crates above too: they say which
//! actions it sees (`Views`).
//!
//! This crate runs nothing: what a start leads to is for the machine above to say.
#![tactic(auto)]

mod choosing;
mod fault;
mod laws;
mod look;
mod outside;
mod parameters;
mod splitting;
mod starting;
mod starts;

pub use fault::TriggerFault;
pub use laws::{a_body_is_replaced, none_start_exactly_where, the_least_parameter_is_named};
pub use outside::{Outside, Views};
pub use starting::runs;
pub use starts::{Start, Starts};
