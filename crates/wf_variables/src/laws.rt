//! What is known of the outputs of actions on variables.
ghost use Rattle.std.specs.Prelude.{◌≡◌, ℕ, List, Ok, Some, codes};
ghost use Rattle.wf_val.specs.ValueTree.{ValueTree};
ghost use Rattle.wf_def.specs.ActionTree.{InitialTree};
ghost use Rattle.wf_data.specs.Told.{Told};
ghost use Rattle.wf_data.specs.Made.{MadeTree, one_member};
ghost use Rattle.wf_variables.specs.Given.{gives};
ghost use Rattle.wf_variables.specs.Initials.{given_item, made_initialize};
ghost use Rattle.wf_variables.specs.Rows.{GivesAll, KeepsType};
ghost use Rattle.wf_variables.specs.Writing.{decremented, incremented, set_to, with_item, with_text};

/// An action that makes variables gives them all out in their order, each with a value of its type.
pub fn what_is_initialized_is_given()
    ensures { (l : Told) → (is : List InitialTree) → (n : ℕ) → (m : MadeTree) → (made_initialize l is n).0 ≡ Ok m → GivesAll is m.outputs }
{}

/// An action that changes a variable gives it out with a value of the type that its value had.
pub fn what_is_written_keeps_its_type()
    ensures set { KeepsType set_to }
    ensures increment { KeepsType incremented }
    ensures decrement { KeepsType decremented }
    ensures item { KeepsType with_item }
    ensures text { KeepsType with_text }
{}

/// In outputs that give out one variable, its value is found by its name.
pub fn what_is_given_is_found()
    ensures { (k : List ℕ) → (v : ValueTree) → gives k (one_member (codes "body") (given_item k v)) ≡ Some v }
{}
