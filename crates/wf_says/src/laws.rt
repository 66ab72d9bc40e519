//! What holds of all rows that fit. Each call tells a caller so, and does nothing.
ghost use Rattle.std.specs.Prelude.{Option};
ghost use Rattle.wf_def.specs.ActionTree.{KindTree};
ghost use Rattle.wf_def.specs.declared.sort.Sort.{Sort};
ghost use Rattle.wf_data.specs.Record.{Row};
ghost use Rattle.wf_says.specs.Laws.{SkippedSaysNothing};

/// Only a Skipped row fits where one has to be Skipped, and a Skipped row that fits a loop says no iteration.
pub fn a_skipped_row_says_nothing()
    ensures { (sort : Option Sort) (kind : KindTree) (r : Row) → SkippedSaysNothing sort kind r }
{}
