//! What is made of arguments as they come. Each call tells a caller so, and does nothing.
ghost use Rattle.std.specs.List.{AllByRecursion};
ghost use Rattle.std.specs.Prelude.{◌≡◌, List, true};
ghost use Rattle.wf_val.specs.ValueTree.{Fits, ValueTree};
ghost use Rattle.wf_val.specs.declared.function.Fun.{Fun};
ghost use Rattle.wf_functions.specs.Rows.{strict_row};
ghost use Rattle.wf_folds.specs.Paired.{paired_answer, paired_of};
ghost use Rattle.wf_folds.specs.Pairing.{is_pairing};
ghost use Rattle.wf_folds.specs.United.{united_answer, united_of};

/// Arguments that are taken two by two come to what the function gives of all of them, its faults and their places too.
pub fn pairs_are_the_row()
    ensures { (f : Fun) (ts : List ValueTree) → is_pairing f ≡ true → AllByRecursion Fits ts → paired_answer (paired_of f ts)
        ≡ strict_row f ts }
{}

/// Arguments that are put together one by one come to their union, whatever they are.
pub fn unions_are_the_row()
    ensures { (ts : List ValueTree) → united_answer (united_of ts) ≡ strict_row Fun.Union ts }
{}
