//! What is known of the definitions beside worked values.
ghost use Rattle.std.specs.Prelude.{◌≡◌, Ok};
ghost use Rattle.wf_val.specs.ValueTree.{ValueTree, Fits, text};
ghost use Rattle.wf_val.specs.WellFormed.{IsWellFormed};
ghost use Rattle.wf_json.specs.Json.{json};
ghost use Rattle.wf_data.specs.Parsed.{parsed};

/// ParseJson reads the JSON text of each value that fits as that value. Every `Val` is well formed.
pub fn json_texts_are_undone()
    ensures { (t : ValueTree) → IsWellFormed t → Fits t → parsed (text (json t)) ≡ Ok t }
{
    wf_json::reads_back();
}
