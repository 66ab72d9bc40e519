//! Where the actions of a definition stand to one another: before, inside, or in another branch.
//!
//! What a run sees of other actions rests on three relations (`specs/Order`). An action is *before* another where it, or a
//! container round it, is an ancestor by `runAfter` of the other or of a container round that; both ends of such a path stand
//! in one graph. An action *contains* another that stands in its graphs, at any depth. Two actions are *exclusive* where they
//! stand in different branches of one If or Switch, so that no run takes both. And an action is *redone* with another that is
//! resubmitted where it is that action, stands inside it, or comes after it.
//!
//! `Order::make` fills tables by the numbers of actions in one walk over the graph; each question is then a look at two short
//! lists. `order_is_exact` says that the answers are the relations, wherever entries of `runAfter` name actions of their own
//! graph and numbers are below their count, which is so in every definition that was read.
//!
//! Of iterations it says how many loops are round two actions (`specs/Indexes`): where the indexes in these are the same, what is before is
//! seen in the sense of `wf_layers`; of two iterations of one loop the loop itself decides. So where all loops round a writer of a variable
//! go one iteration after the other (`specs/Turns`), accesses that are ordered or exclude each other as actions are so at all their
//! addresses. It judges no definition.
#![tactic(auto)]

mod instances;
mod laws;
mod order;
mod place;
mod walk;

pub use instances::{accesses_are_in_order, branches_exclude, no_loop_is_round_two, turns_decide};
pub use laws::{
    before_is_an_order, order_is_exact, what_a_container_sees_is_seen_inside,
    what_is_before_is_seen, what_stands_inside_goes_along,
};
pub use order::Order;
