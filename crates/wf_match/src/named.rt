//! What a test may name.
ghost use Rattle.std.specs.Prelude.{◌≡◌};
ghost use Rattle.wf_match.specs.Names.{is_named, record_names, row_names};

/// Whether a test may expect something under the name of a record: its members, but for those that say what made it, and
/// `actions` in place of its rows.
pub fn is_record_member(name: &str) -> bool
    ensures { result ≡ is_named name.now record_names }
{
    matches!(
        name,
        "actions" | "error" | "outputs" | "parameters" | "response" | "run" | "status" | "trigger"
    )
}

/// Whether a test may expect something under the name of a row: any of its members.
pub fn is_row_member(name: &str) -> bool
    ensures { result ≡ is_named name.now row_names }
{
    matches!(
        name,
        "at" | "attempts" | "code" | "error" | "inputs" | "name" | "outputs" | "status" | "tracked"
    )
}
