//! In which order a run takes what may happen next.

use wf_lists::Series;

/// The numbers by which a run chooses among the events that may come next, turn by turn. Any list is one: a number
/// counts modulo how many events there are to choose from.
pub type Schedule = Series<u32>;
