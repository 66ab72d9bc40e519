//! What the definitions of rows on a page say, in other words. Each call tells a caller so, and does nothing.
ghost use Rattle.std.specs.Prelude.{◌≡◌, ◌-◌, ℕ, Bool, List, Option, drop, length, take};
ghost use Rattle.std.specs.List.{AllByRecursion};
ghost use Rattle.wf_html.specs.Behind.{is_place, said_behind};
ghost use Rattle.wf_html.specs.Nested.{IsNested};
ghost use Rattle.wf_record.specs.Record.{RowTree};
ghost use Rattle.wf_shown.specs.Once.{counted_in_all, owned, owners, places};
ghost use Rattle.wf_shown.specs.Rows.{most_shown, rows_pieces};

/// What is shown of rows closes each tag that it opens.
pub fn rows_are_nested()
    ensures { (closes : Bool) (earlier : Option (List RowTree)) (rs : List RowTree) → IsNested (rows_pieces closes earlier rs) }
{}

/// Each row of an action is shown or counted, and none is both: the first hundred are shown, in order and by where they stand, and how many
/// have each status comes to the number of the others.
pub fn each_row_is_shown_or_counted()
    ensures shown { (closes : Bool) (earlier : Option (List RowTree)) (rs : List RowTree) →
        said_behind is_place (rows_pieces closes earlier rs) ≡ places (take most_shown rs) }
    ensures counted { (rs : List RowTree) → counted_in_all (drop most_shown rs) ≡ length rs - most_shown }
{}

/// Where each row is of one of these names, the rows of the names together are as many as all: none is left out, and none is taken twice.
pub fn rows_are_split_by_names()
    ensures { (names : List (List ℕ)) (rows : List RowTree) → AllByRecursion (λ r. owners names r ≡ 1) rows
        → owned names rows ≡ length rows }
{}
