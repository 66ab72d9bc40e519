//! A state with its cost that is put aside, without the actions and the plan that it borrows.
ghost use Rattle.std.specs.Prelude.{◌≡◌};

use crate::sums::Sums;
use std::marker::Model;
use wf_steps::Rest;

/// What a state with its cost has of its own: what the state has, and its sums. It goes on with actions that price as the old ones did.
pub struct MeteredRest<R, B, D, V> {
    pub(crate) rest: Rest<R, B, D, V>,
    pub(crate) sums: Sums,
}

// By hand, as that of `Metered`.
impl<R: Drop, B: Drop, D: Drop, V: Drop> Drop for MeteredRest<R, B, D, V> {
    fn drop(self) {
        let MeteredRest { rest: _, sums: _ } = self;
    }
}

impl<R, B, D, V> Model for MeteredRest<R, B, D, V> {
    ghost use Rattle.std.specs.Prelude.{List};
    ghost use Rattle.wf_asks.specs.declared.known.OpenAt.{OpenAt};
    ghost use Rattle.wf_asks.specs.declared.known.RowAt.{RowAt};
    ghost use Rattle.wf_asks.specs.declared.known.WriterAt.{WriterAt};
    ghost use Rattle.wf_meter.specs.CountAt.{CountAt};
    ghost use Rattle.wf_meter.specs.EventAt.{EventAt};
    ghost use Rattle.wf_meter.specs.LeafAt.{LeafAt};
    ghost use Rattle.wf_metered.specs.declared.sums.Sums.{Sums};

    ghost Value = { ((List (RowAt R) × (List (LeafAt B) × (List (OpenAt D V) × List WriterAt)))
        × (List CountAt × (List CountAt × List EventAt))) × Sums };

    ghost view = { λ r. (r.rest, r.sums) };
}

impl<R, B, D, V> MeteredRest<R, B, D, V> {
    // What the state has, and its sums.
    pub(crate) fn into_parts(self) -> (Rest<R, B, D, V>, Sums)
        ensures { result ≡ self }
    {
        let MeteredRest { rest, sums } = self;
        (rest, sums)
    }
}
