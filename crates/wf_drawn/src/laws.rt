//! What the definitions of pages say, in other words. Each call tells a caller so, and does nothing.
ghost use Rattle.std.specs.Prelude.{◌≡◌, ◌<◌, ◌^◌, ℕ, Bool, List, Option, count_by, flat_map, length, map, take};
ghost use Rattle.std.specs.List.{AllByRecursion};
ghost use Rattle.wf_def.specs.ActionTree.{ActionTrees, action_after, action_name, action_number};
ghost use Rattle.wf_def.specs.AllActions.{all_actions};
ghost use Rattle.wf_drawn.specs.Below.{AreOrdered};
ghost use Rattle.wf_drawn.specs.Levels.{below_all, level_at, levels};
ghost use Rattle.wf_drawn.specs.Page.{page_pieces};
ghost use Rattle.wf_html.specs.Behind.{is_name, is_place, said_behind};
ghost use Rattle.wf_html.specs.Nested.{IsNested};
ghost use Rattle.wf_record.specs.Record.{RecordTree};
ghost use Rattle.wf_shown.specs.Once.{places};
ghost use Rattle.wf_shown.specs.Rows.{most_shown, rows_of};

/// A page closes each tag that it opens, the last first.
pub fn a_page_is_nested()
    ensures { (graph : ActionTrees) (r : RecordTree) (earlier : Option RecordTree) → IsNested (page_pieces graph r earlier) }
{}

/// Each action is drawn once, at whatever depth it stands: whatever is asked of names, as many names of a page have it as actions do. That
/// there are fewer than 2 ^ 32 keeps levels within a u64; a definition that was read has 500 at most.
pub fn each_action_is_drawn_once()
    ensures { (graph : ActionTrees) (r : RecordTree) (earlier : Option RecordTree) (asked : List ℕ → Bool)
        → length (all_actions graph) < 2 ^ 32
        → count_by asked (said_behind is_name (page_pieces graph r earlier)) ≡ count_by asked (map action_name (all_actions graph)) }
{}

/// Of each action the first hundred rows are drawn, each once, and no others: whatever is asked of the iterations that a row is of, as many
/// rows of a page have it as there are among these.
pub fn each_row_is_drawn_once()
    ensures { (graph : ActionTrees) (r : RecordTree) (earlier : Option RecordTree) (asked : List ℕ → Bool)
        → length (all_actions graph) < 2 ^ 32
        → count_by asked (said_behind is_place (page_pieces graph r earlier))
        ≡ count_by asked (flat_map (λ a. places (take most_shown (rows_of (action_name a) r.rows))) (all_actions graph)) }
{}

/// Where no action waits for itself, over whatever others, each action stands one below the lowest of those that it waits for, or on the
/// first level: so it is below them all.
pub fn actions_stand_below_what_they_wait_for()
    ensures exact { (graph : ActionTrees) (rank : ℕ → ℕ) → AreOrdered rank (all_actions graph)
        → AllByRecursion (λ a. level_at (levels graph) (action_number a) ≡ below_all (levels graph) (action_after a)) (all_actions graph) }
    ensures below { (graph : ActionTrees) (rank : ℕ → ℕ) → AreOrdered rank (all_actions graph) → length (all_actions graph) < 2 ^ 32
        → AllByRecursion (λ a. AllByRecursion (λ e. level_at (levels graph) e.number < level_at (levels graph) (action_number a))
        (action_after a)) (all_actions graph) }
{}
