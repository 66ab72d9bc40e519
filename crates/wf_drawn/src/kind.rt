//! What an action does, in a word.
ghost use Rattle.std.specs.Prelude.{◌≡◌};
ghost use Rattle.wf_def.specs.ActionSeen.{kind_tree};
ghost use Rattle.wf_drawn.specs.Kinds.{closes, kind_word};

use wf_def::Kind;

/// What an action does: the word that its type has in a definition, but for those of connectors, which are many.
pub fn kind_word(kind: &Kind) -> &'static str
    ensures { result.now ≡ kind_word (kind_tree kind.now) }
{
    match kind {
        Kind::Compose { .. } => "Compose",
        Kind::Connector { .. } => "Connector",
        Kind::Wait { .. } => "Wait",
        Kind::Response { .. } => "Response",
        Kind::Terminate { .. } => "Terminate",
        Kind::Select { .. } => "Select",
        Kind::Query { .. } => "Query",
        Kind::Join { .. } => "Join",
        Kind::ParseJson { .. } => "ParseJson",
        Kind::Initialize { .. } => "InitializeVariable",
        Kind::Set { .. } => "SetVariable",
        Kind::Increment { .. } => "IncrementVariable",
        Kind::Decrement { .. } => "DecrementVariable",
        Kind::AppendArray { .. } => "AppendToArrayVariable",
        Kind::AppendString { .. } => "AppendToStringVariable",
        Kind::Scope { .. } => "Scope",
        Kind::If { .. } => "If",
        Kind::Switch { .. } => "Switch",
        Kind::Foreach { .. } => "Foreach",
        Kind::Until { .. } => "Until",
    }
}

/// Whether it is a Scope, an If or a Switch.
pub fn closes(kind: &Kind) -> bool
    ensures { result ≡ closes (kind_tree kind.now) }
{
    matches!(
        kind,
        Kind::Scope { .. } | Kind::If { .. } | Kind::Switch { .. }
    )
}
