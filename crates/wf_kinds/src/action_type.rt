//! The types of actions.
ghost use Rattle.std.specs.Prelude.{◌≡◌};
ghost use Rattle.wf_val.specs.Seen.{tree};
ghost use Rattle.wf_kinds.specs.ActionType.{is_named, type_named, type_of};

use wf_val::Val;

/// The type of an action (Workflow Definition Language, "Action types"). What calls a service, under one of eight names, is
/// a connector.
#[derive(Clone, Copy, PartialEq, Eq, Debug)]
pub enum ActionType {
    Compose,
    Connector,
    Wait,
    Response,
    Terminate,
    // of lists and texts
    Select,
    Query,
    Join,
    ParseJson,
    // of variables
    InitializeVariable,
    SetVariable,
    IncrementVariable,
    DecrementVariable,
    AppendToArrayVariable,
    AppendToStringVariable,
    // containers
    Scope,
    If,
    Switch,
    Foreach,
    Until,
}

const TYPES: [ActionType; 20] = [
    ActionType::Compose,
    ActionType::Connector,
    ActionType::Wait,
    ActionType::Response,
    ActionType::Terminate,
    ActionType::Select,
    ActionType::Query,
    ActionType::Join,
    ActionType::ParseJson,
    ActionType::InitializeVariable,
    ActionType::SetVariable,
    ActionType::IncrementVariable,
    ActionType::DecrementVariable,
    ActionType::AppendToArrayVariable,
    ActionType::AppendToStringVariable,
    ActionType::Scope,
    ActionType::If,
    ActionType::Switch,
    ActionType::Foreach,
    ActionType::Until,
];

fn is_connector(name: &str) -> bool
    ensures { result ≡ is_named name.now ActionType.Connector }
{
    name.eq_ignore_ascii_case("Http")
        || name.eq_ignore_ascii_case("ApiConnection")
        || name.eq_ignore_ascii_case("ApiConnectionWebhook")
        || name.eq_ignore_ascii_case("HttpWebhook")
        || name.eq_ignore_ascii_case("Function")
        || name.eq_ignore_ascii_case("Workflow")
        || name.eq_ignore_ascii_case("ApiManagement")
        || name.eq_ignore_ascii_case("ServiceProvider")
}

impl ActionType {
    fn is_named(self, name: &str) -> bool
        ensures { result ≡ is_named name.now self }
    {
        match self {
            ActionType::Compose => name.eq_ignore_ascii_case("Compose"),
            ActionType::Connector => is_connector(name),
            ActionType::Wait => name.eq_ignore_ascii_case("Wait"),
            ActionType::Response => name.eq_ignore_ascii_case("Response"),
            ActionType::Terminate => name.eq_ignore_ascii_case("Terminate"),
            ActionType::Select => name.eq_ignore_ascii_case("Select"),
            ActionType::Query => name.eq_ignore_ascii_case("Query"),
            ActionType::Join => name.eq_ignore_ascii_case("Join"),
            ActionType::ParseJson => name.eq_ignore_ascii_case("ParseJson"),
            ActionType::InitializeVariable => name.eq_ignore_ascii_case("InitializeVariable"),
            ActionType::SetVariable => name.eq_ignore_ascii_case("SetVariable"),
            ActionType::IncrementVariable => name.eq_ignore_ascii_case("IncrementVariable"),
            ActionType::DecrementVariable => name.eq_ignore_ascii_case("DecrementVariable"),
            ActionType::AppendToArrayVariable => name.eq_ignore_ascii_case("AppendToArrayVariable"),
            ActionType::AppendToStringVariable => name.eq_ignore_ascii_case(
                "AppendToStringVariable",
            ),
            ActionType::Scope => name.eq_ignore_ascii_case("Scope"),
            ActionType::If => name.eq_ignore_ascii_case("If"),
            ActionType::Switch => name.eq_ignore_ascii_case("Switch"),
            ActionType::Foreach => name.eq_ignore_ascii_case("Foreach"),
            ActionType::Until => name.eq_ignore_ascii_case("Until"),
        }
    }

    fn named(name: &str) -> Option<ActionType>
        ensures { result ≡ type_named name.now }
    {
        TYPES
            .iter()
            .copied()
            .find(|action_type| action_type.is_named(name))
    }

    /// The type of the action that a value may be: what its member `type` names, without letter case in ASCII.
    #[tactic(auto, unfolding(crate::specs::ActionType::type_of))]
    pub fn of(value: &Val) -> Option<ActionType>
        ensures { result ≡ type_of (tree value.now) }
    {
        match value.member("type") {
            Some(Val::Text(text)) => ActionType::named(text.as_str()),
            _ => None,
        }
    }
}
