//! What the pointers to bad texts are, as promises of a function that does nothing.
ghost use Rattle.std.specs.Prelude.{◌↔◌, ℕ, List, Contains};
ghost use Rattle.wf_val.specs.ValueTree.{ValueTree};
ghost use Rattle.wf_texts.specs.Members.{action_ways, bad_texts_of_action, bad_texts_of_output, bad_texts_of_trigger, output_ways, trigger_ways};
ghost use Rattle.wf_texts.specs.Reached.{LeadsToBadText};

/// The pointers are exactly those that lead, step by step, to a bad text where a template is asked. So the least of them,
/// which is found, leads to one, and where none is found each template is sound.
pub fn pointers_lead_to_bad_texts()
    ensures action { (t : ValueTree) (p : List ℕ) → Contains (bad_texts_of_action t) p ↔ LeadsToBadText (action_ways t) t p }
    ensures trigger { (t : ValueTree) (p : List ℕ) → Contains (bad_texts_of_trigger t) p ↔ LeadsToBadText trigger_ways t p }
    ensures output { (t : ValueTree) (p : List ℕ) → Contains (bad_texts_of_output t) p ↔ LeadsToBadText output_ways t p }
{}
