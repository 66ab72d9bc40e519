//! What the definitions of records say, in other words. Each call tells a caller so, and does nothing.
ghost use Rattle.std.specs.List.{Contains};
ghost use Rattle.std.specs.Prelude.{◌≡◌, ◌+◌, ◌*◌, ◌↔◌, List, [], Some, length, sum_by};
ghost use Rattle.wf_lists.specs.KeyOrder.{IsInKeyOrder};
ghost use Rattle.wf_val.specs.Address.{address_cmp};
ghost use Rattle.wf_val.specs.ValueTree.{members, object, weight};
ghost use Rattle.wf_val.specs.declared.address.Address.{Address};
ghost use Rattle.wf_record.specs.Cost.{cost, row_iterations, row_weight};
ghost use Rattle.wf_record.specs.Line.{joined, record_pieces};
ghost use Rattle.wf_record.specs.Record.{RecordTree, RowTree, address_of, find_row, record_line};

/// The row of an address is the one among the rows that has the address.
pub fn a_row_is_found_by_its_address()
    ensures { (rows : List RowTree) (r : RowTree) (a : Address) → IsInKeyOrder address_cmp address_of rows
        → (find_row a rows ≡ Some r) ↔ (Contains rows r × (r.address ≡ a)) }
{}

/// A line is its pieces in a row: the names of its members and what stands behind each.
pub fn a_line_is_its_pieces()
    ensures { (r : RecordTree) → record_line r ≡ joined [] (record_pieces r) }
{}

/// A run costs 64 for itself, for each row, for each attempt and for each iteration, and the weights of what it holds.
pub fn cost_by_counts()
    ensures { (r : RecordTree) → cost r ≡
        64 * (1 + length r.rows + sum_by (λ row. length row.row.attempts) r.rows + sum_by row_iterations r.rows)
        + (weight r.trigger + weight (object (members r.parameters)) + weight r.outputs + sum_by row_weight r.rows) }
{}
