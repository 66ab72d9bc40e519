//! What the definitions of this crate say, in other words. A call tells a caller so, and does nothing.
ghost use Rattle.std.specs.Prelude.{◌≡◌, ◌++◌, ℕ, List, codes};
ghost use Rattle.wf_val.specs.ValueTree.{ValueTree};
ghost use Rattle.wf_val.specs.declared.fault.EvalFault.{EvalFault};
ghost use Rattle.wf_json.specs.FaultText.{fault_text};
ghost use Rattle.wf_json.specs.Json.{json};
ghost use Rattle.wf_retry.specs.declared.policy.Policy.{Policy};
ghost use Rattle.wf_done.specs.Made.{MadeTree};
ghost use Rattle.wf_done.specs.Done.{faulted, mismatched, succeeded};
ghost use Rattle.wf_done.specs.Leaf.{acted, calling};
ghost use Rattle.wf_trace.specs.Texts.{start_text};

/// What is told of a leaf as it starts is its inputs, also where what it gives out isn't as its schema asks, and else why they have no
/// value.
pub fn what_inputs_came_to_is_told()
    ensures makes { (m : MadeTree) → start_text (acted (succeeded m)) ≡ json m.inputs }
    ensures faults { (f : EvalFault) → start_text (acted (faulted f)) ≡ codes "!" ++ fault_text f }
    ensures mismatches { (inputs : ValueTree) (pointer : List ℕ) → start_text (acted (mismatched inputs pointer)) ≡ json inputs }
    ensures calls { (inputs : ValueTree) (policy : Policy) → start_text (calling inputs policy) ≡ json inputs }
{}
