//! What a trace tells.
ghost use Rattle.std.specs.Prelude.{◌≡◌, ℕ, IfOk, List, option_map};
ghost use Rattle.wf_layers.specs.Machine.{Event};
ghost use Rattle.wf_layers.specs.Meaning.{meaning};
ghost use Rattle.wf_scheduled.specs.Happened.{HasHappened};
ghost use Rattle.wf_asks.specs.Known.{open_tree};
ghost use Rattle.wf_metered.specs.Tables.{event_tree, leaf_tree};
ghost use Rattle.wf_making.specs.Standing.{standing};

use std::alloc::{AllocError, Global};
use wf_asks::{Acts, OpenAt};
use wf_metered::{EventAt, LeafAt};

/// Actions of which a trace has something to tell.
pub trait Tells: Acts {
    // what is told of an event of a number
    ghost told: { Self → Event → ℕ → List ℕ };

    /// What is told of an event that has just happened, by what stands at its instance now. The number of an attempt is that of the
    /// attempts which the leaf has made, and the index of an iteration is one below that of the container's next.
    fn tell(
        &self,
        alloc: Global,
        event: &EventAt,
        row: Option<&Self::Row>,
        leaf: Option<&LeafAt<Self::Begun>>,
        container: Option<&OpenAt<Self::Decision, Self::Verdict>>,
    ) -> Result<Vec<u8>, AllocError>
        ensures { IfOk result (λ line. (number : ℕ) → HasHappened (Self.source self.now)
            (meaning (Self.source self.now) (Self.depth self.now) (Self.graph self.now))
            (standing (option_map (λ r. Self.row_tree r.now) row.entry) (option_map (λ l. leaf_tree Self.begun_tree l.now) leaf.entry)
            (option_map (λ o. open_tree Self.decision_tree Self.verdict_tree o.now) container.entry))
            (event_tree event.now) number → line.items ≡ told self.now (event_tree event.now) number) };
}
