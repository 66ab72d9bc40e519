//! Where a run stands is one, by the answers that are there.
//!
//! `wf_stands` says where a run may stand: attempts wait for their answers, or it has left its record, or it costs too much. It says so of
//! some moment to which the run comes, and a run comes to its moments in many orders. Here is shown that no order makes a difference: the
//! moment to which the run comes last is one (`wf_one_quiet`), so the attempts that wait there are the same, and in the same order; and a
//! moment that costs too much is followed by none that costs less (`wf_dearer`), so that a run which costs too much on one way does on all.
//!
//! It has no code: its function has an empty body but for the laws that it calls, and its contract is a law.
#![tactic(auto)]

ghost use Rattle.std.specs.Prelude.{◌≡◌, None};
ghost use Rattle.wf_answers.specs.Inputs.{InputsTree};
ghost use Rattle.wf_def.specs.DefTree.{DefTree};
ghost use Rattle.wf_reading.specs.Read.{IsRead};
ghost use Rattle.wf_stands.specs.Broken.{broken_of};
ghost use Rattle.wf_stands.specs.Stands.{Stands};
ghost use Rattle.wf_talk.specs.Standing.{Standing};
ghost use Rattle.wf_trigger.specs.Starts.{StartTree};

/// A definition that was read and breaks no rule stands at one point, however its run was started and whichever answers are there: what is
/// said of it in a talk is told by the definition, the start and the inputs alone.
pub fn where_a_run_stands_is_one()
    ensures { (d : DefTree) → IsRead d → broken_of d ≡ None → (start : StartTree) (inputs : InputsTree) (one other : Standing)
        → Stands d start inputs one → Stands d start inputs other → one ≡ other }
{
    wf_paying::a_definition_is_an_instance();
    wf_paying::meant_rows_are_whole();
    wf_paying::rows_pay_their_parts();
    wf_paying::the_record_tells_what_rows_cost();
    wf_paying::a_meaning_costs_its_rows();
}
