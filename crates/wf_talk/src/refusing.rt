//! A talk that doesn't begin.
ghost use Rattle.std.specs.Prelude.{◌≡◌, ◌≢◌, ◌<◌, List, Option, ℕ};
ghost use Rattle.wf_answers.specs.Inputs.{InputsTree};
ghost use Rattle.wf_outside.specs.Outside.{Rose};
ghost use Rattle.wf_talk.specs.Standing.{TooLarge};
ghost use Rattle.wf_talk.specs.Talks.{Talks};

use crate::put::close;
use crate::stand::{Stand, StandFault};
use wf_outside::Sink;

/// Says why a run doesn't come to stand at first: it costs too much, or memory ran out. The source isn't asked.
pub fn refuse<S: Stand, O: Sink>(out: &mut O, fault: StandFault) -> u8
    ensures talks { (o : S.Origin) (inputs : InputsTree) (left : Option (List ℕ)) → (fault ≢ StandFault.Memory → S.stands o inputs TooLarge)
        → Talks (S.stands o) inputs left left (O.taken out.old) (O.taken out.new) result }
    ensures only { result ≡ 4 → Rose (O.faults out.old) (O.faults out.new) }
    ensures always { O.faults out.old < O.faults out.new → result ≡ 4 }
    ensures others { result ≢ 3 }
{
    match fault {
        StandFault::TooLarge => close(out, 8, b"too large\n"),
        StandFault::Memory => close(out, 5, b"out of memory\n"),
    }
}
