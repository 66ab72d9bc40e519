ghost use Rattle.std.specs.Prelude.{◌≡◌, ◌↔◌, ◌≤◌, ℕ, List, [], Some, None, Ok, Contains};
ghost use Rattle.serde_json.specs.Data as json_tree;
ghost use Rattle.wf_val.specs.ValueTree.{ValueTree, depth};
ghost use Rattle.wf_val.specs.WellFormed.{IsWellFormed};
ghost use Rattle.wf_json.specs.Follow.{LeadsToFlaw};
ghost use Rattle.wf_json.specs.Json.{json};
ghost use Rattle.wf_json.specs.Pointer.{least, IsLeast};
ghost use Rattle.wf_json.specs.Read.{flawed_places, read_value};
ghost use Rattle.wf_json.specs.declared.fault.Flaw.{Flaw};

/// Reading what was written gives the value again, where it nests no deeper than a file may.
/// Every `Val` is well formed.
pub fn reads_back()
    ensures { (t : ValueTree) → IsWellFormed t → depth t ≤ 120
        → read_value (json t) ≡ Ok t }
{}

/// A value that was read nests at most 120 deep, so a walk over it that recurses needs no more of
/// the stack.
pub fn read_is_shallow()
    ensures { (bytes : List ℕ) → (t : ValueTree) → read_value bytes ≡ Ok t → depth t ≤ 120 }
{}

/// The least of pointers is one of them and none is below it, and there is none only where there
/// is no pointer.
pub fn least_is_least()
    ensures some { (ps : List (List ℕ)) → (p : List ℕ)
        → least ps ≡ Some p → IsLeast ps p }
    ensures none { (ps : List (List ℕ)) → least ps ≡ None → ps ≡ [] }
{}

/// The pointers of a flaw are those that lead, step by step from the root, to a value that has it
/// there.
pub fn pointers_lead_to_flaws()
    ensures { (flaw : Flaw) → (room : ℕ) → (d : json_tree.Data) → (p : List ℕ)
        → Contains (flawed_places flaw room d) p ↔ LeadsToFlaw flaw room d p }
{}
