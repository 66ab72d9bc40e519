//! What the definitions of records that are read say, in other words. Each call tells a caller so, and does nothing.
ghost use Rattle.std.specs.Prelude.{◌≡◌, Ok, map};
ghost use Rattle.wf_lists.specs.KeyOrder.{IsInKeyOrder};
ghost use Rattle.wf_record.specs.Record.{RecordTree, address_of};
ghost use Rattle.wf_record_form.specs.Fitting.{FittingIsOfForm};
ghost use Rattle.wf_record_form.specs.OfVal.{of_val};
ghost use Rattle.wf_record_form.specs.ReadBack.{HasFewAttempts, IsInRange, IsOfForm, IsReadAsUntold, IsReadBack};
ghost use Rattle.wf_record_form.specs.Reading.{row_of, rows_in};
ghost use Rattle.wf_val.specs.Address.{address_cmp};
ghost use Rattle.wf_val.specs.ValueTree.{ValueTree};

/// The value of a record whose value is of the form is read as that record.
pub fn a_record_is_read_back()
    ensures { (r : RecordTree) → IsInRange r → IsOfForm r → IsReadBack r }
{}

/// The value of a record is of the form where its names, words and numbers are in range, all it holds fits, and its rows stand in order.
pub fn a_fitting_record_is_of_the_form()
    ensures { (r : RecordTree) → FittingIsOfForm r }
{}

/// A value of form 1 is read as the record of whose attempts nothing is known but their number.
pub fn form_one_is_read_as_untold()
    ensures { (r : RecordTree) → IsInRange r → HasFewAttempts r → IsReadAsUntold r }
{}

/// The rows of a value that is a record stand in the order of their addresses.
pub fn rows_are_read_in_order()
    ensures { (t : ValueTree) (r : RecordTree) → of_val t ≡ Ok r → IsInKeyOrder address_cmp address_of (map row_of (rows_in t)) }
{}
