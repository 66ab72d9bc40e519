//! What is known of a record that may be resubmitted. Each call tells a caller so, and does nothing.
ghost use Rattle.std.specs.Prelude.{◌≡◌, List, None, ℕ};
ghost use Rattle.wf_layers.specs.Resubmission.{IsOldTable};
ghost use Rattle.wf_layers.specs.Shape.{HasShape};
ghost use Rattle.wf_lists.specs.KeyOrder.{IsInKeyOrder};
ghost use Rattle.wf_val.specs.Address.{address_cmp};
ghost use Rattle.wf_def.specs.DefTree.{DefTree};
ghost use Rattle.wf_shaped.specs.Environment.{Environment};
ghost use Rattle.wf_shaped.specs.Points.{graph_of};
ghost use Rattle.wf_shaped.specs.Record.{depth_of, meaning};
ghost use Rattle.wf_shaped.specs.Resubmitted.{recalled, rows_by};
ghost use Rattle.wf_shaped.specs.Source.{source, table_of};
ghost use Rattle.wf_meant_laws.specs.Answered.{GiveWhatTheyWrite};
ghost use Rattle.wf_meant_laws.specs.Tables.{AreWhole};
ghost use Rattle.wf_shaped.specs.Read.{IsRead};
ghost use Rattle.wf_record.specs.Record.{RecordTree, address_of};
ghost use Rattle.wf_resubmit.specs.Chosen.{MayBeRedone};
ghost use Rattle.wf_resubmit.specs.declared.fault.ResubmitFault.{ResubmitFault};
ghost use Rattle.wf_meant_laws.specs.Broken.{broken_of};
ghost use Rattle.wf_shaped.specs.Failing.{IsLeastFailing};
ghost use Rattle.wf_shaped.specs.Reading.{reading};
ghost use Rattle.wf_prepare.specs.Old.{EachRowFits, OneOrTheOther, from_names, is_closed_again, is_redone};
ghost use Rattle.wf_prepare.specs.Prepared.{IsRefused, MayBeResubmitted};

/// One fault is told of a record, and none where it may be resubmitted.
pub fn one_fault_is_told()
    ensures one { (d : DefTree) (r : RecordTree) (names : List (List ℕ)) (f g : ResubmitFault) → IsRefused d r names f
        → IsRefused d r names g → f ≡ g }
    ensures none { (d : DefTree) (r : RecordTree) (names : List (List ℕ)) (f : ResubmitFault) → MayBeResubmitted d r names
        → IsRefused d r names f → ⊥ }
{}

/// A record whose rows are in order is refused, or it may be resubmitted.
pub fn a_record_is_refused_or_not()
    ensures { (d : DefTree) → IsRead d → (r : RecordTree) → IsInKeyOrder address_cmp address_of r.rows → (names : List (List ℕ))
        → OneOrTheOther d r names }
{
    wf_shaped::names_stand_once();
    wf_shaped::numbers_stand_once();
    wf_shaped::read_actions_have_their_numbers();
    wf_shaped::numbers_have_the_kinds_of_their_actions();
}

/// The actions from which a record may be resubmitted are there, and none of them stands in a loop.
pub fn what_is_chosen_stands_in_no_loop()
    ensures { (d : DefTree) → IsRead d → (r : RecordTree) (names : List (List ℕ)) → MayBeResubmitted d r names
        → MayBeRedone (graph_of d) (from_names d names) }
{
    wf_shaped::numbers_stand_once();
    wf_shaped::numbers_are_below();
    wf_resubmit::what_is_chosen_may_be_redone();
}

/// The rows of a record that may be resubmitted stand at exactly the addresses that they call for.
pub fn record_has_the_right_shape()
    ensures { (d : DefTree) → IsRead d → (r : RecordTree) (names : List (List ℕ)) → MayBeResubmitted d r names
        → (e : Environment) → HasShape (graph_of d) (source d e) (reading d) (rows_by d r.rows) }
{
    wf_form::the_first_fault();
    wf_shaped::names_stand_once();
    wf_shaped::numbers_stand_once();
    wf_shaped::read_actions_have_their_numbers();
    wf_shaped::a_skipped_row_says_nothing();
    wf_shaped::numbers_have_the_kinds_of_their_actions();
}

/// And a resubmission may go on from them.
pub fn record_is_an_old_table()
    ensures { (d : DefTree) → IsRead d → (r : RecordTree) (names : List (List ℕ)) → MayBeResubmitted d r names
        → (e : Environment) → IsOldTable (graph_of d) (source d e) (is_redone d names) (is_closed_again d names) (rows_by d r.rows)
        (recalled d r.rows) }
{
    wf_meant_laws::depths_are_how_many_are_before();
    wf_shaped::names_stand_once();
    wf_shaped::numbers_stand_once();
    wf_shaped::entries_stay_in_their_graph();
    wf_shaped::read_actions_have_their_numbers();
    wf_shaped::numbers_have_the_kinds_of_their_actions();
    wf_layers::a_set_has_its_parts();
    what_is_chosen_stands_in_no_loop();
    record_has_the_right_shape();
}

/// Each of its rows is one that its action may have.
pub fn each_row_fits()
    ensures { (d : DefTree) → IsRead d → (r : RecordTree) (names : List (List ℕ)) → MayBeResubmitted d r names
        → EachRowFits d (rows_by d r.rows) }
{
    wf_form::the_first_fault();
    wf_shaped::names_stand_once();
    wf_shaped::numbers_stand_once();
    wf_shaped::read_actions_have_their_numbers();
    wf_shaped::numbers_have_the_kinds_of_their_actions();
}

/// Each stands at an instance, in iterations of which the rows of the loops round it tell.
pub fn kept_rows_are_whole()
    ensures { (d : DefTree) → IsRead d → (r : RecordTree) (names : List (List ℕ)) → MayBeResubmitted d r names
        → AreWhole d (rows_by d r.rows) }
{
    wf_form::the_first_fault();
    wf_shaped::names_stand_once();
    wf_shaped::numbers_stand_once();
    wf_shaped::read_actions_have_their_numbers();
    wf_shaped::numbers_have_the_kinds_of_their_actions();
}

/// And that of an action which Succeeded gives each variable that the action writes a value.
pub fn kept_rows_give_what_they_write()
    ensures { (d : DefTree) → IsRead d → (r : RecordTree) (names : List (List ℕ)) → MayBeResubmitted d r names
        → GiveWhatTheyWrite d (rows_by d r.rows) }
{
    wf_form::the_first_fault();
    wf_shaped::names_stand_once();
    wf_shaped::numbers_stand_once();
    wf_shaped::read_actions_have_their_numbers();
    wf_shaped::numbers_have_the_kinds_of_their_actions();
    wf_shaped::what_is_given_is_found();
}

/// Each row that an accepted definition means is one that its action may have.
pub fn each_meant_row_fits()
    ensures { (d : DefTree) → IsRead d → broken_of d ≡ None → (e : Environment) → EachRowFits d (table_of d e (depth_of d)) }
{
    wf_meant_laws::the_first_broken_rule();
    wf_meant_laws::standings_are_the_actions();
    wf_shaped::names_are_those_named();
    wf_order::order_is_exact();
    wf_order::before_is_an_order();
    wf_shaped::names_stand_once();
    wf_shaped::loops_may_turn();
    wf_shaped::numbers_stand_once();
    wf_shaped::numbers_are_below();
    wf_shaped::entries_stay_in_their_graph();
    wf_shaped::read_actions_have_their_numbers();
    wf_shaped::what_is_initialized_is_given();
    wf_shaped::what_is_written_keeps_its_type();
    wf_shaped::what_is_given_is_found();
    wf_meant_laws::a_definition_is_an_instance();
    wf_shaped::numbers_have_the_kinds_of_their_actions();
    wf_shaped::rows_tell_what_was_decided();
}

/// And the record has these rows and no others: so what a definition means is read off its record again.
pub fn a_meaning_keeps_its_rows()
    ensures { (d : DefTree) → IsRead d → broken_of d ≡ None → (e : Environment)
        → rows_by d (meaning d e).rows ≡ table_of d e (depth_of d) }
{
    wf_form::the_first_fault();
    wf_shaped::names_stand_once();
    wf_shaped::numbers_stand_once();
    wf_shaped::read_actions_have_their_numbers();
    wf_shaped::numbers_have_the_kinds_of_their_actions();
    wf_meant_laws::meant_rows_are_whole();
    wf_meant_laws::listed_rows_stand_for_the_table();
}

/// The rows of an accepted definition stand at exactly the addresses that they call for.
pub fn rows_have_the_right_shape()
    ensures { (d : DefTree) → IsRead d → broken_of d ≡ None → (e : Environment)
        → HasShape (graph_of d) (source d e) (reading d) (table_of d e (depth_of d)) }
{
    wf_meant_laws::a_definition_is_an_instance();
    wf_shaped::rows_tell_what_was_decided();
}

/// So what an accepted definition means in any environment fails nowhere: its record may be resubmitted from all actions that ran, outside
/// of loops.
pub fn a_meaning_has_no_failing_address()
    ensures { (d : DefTree) → IsRead d → broken_of d ≡ None → (e : Environment) → IsLeastFailing d (meaning d e).rows None }
{
    wf_form::the_first_fault();
    wf_shaped::names_stand_once();
    wf_shaped::numbers_stand_once();
    wf_shaped::read_actions_have_their_numbers();
    wf_shaped::a_skipped_row_says_nothing();
    wf_shaped::numbers_have_the_kinds_of_their_actions();
    rows_have_the_right_shape();
    wf_meant_laws::meant_rows_are_whole();
    wf_meant_laws::listed_rows_stand_for_the_table();
    each_meant_row_fits();
}
