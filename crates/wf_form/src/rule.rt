//! The rules that a definition is read by.
ghost use Rattle.std.specs.Prelude.{◌≡◌};
ghost use Rattle.wf_form.specs.Fault.{rule_number};

/// A rule on the form of a definition.
#[derive(Clone, Copy, PartialEq, Eq, Debug)]
pub enum Rule {
    /// V1: what has to be an object, a list or a text is one.
    Form,
    /// V2: the schema is that of 2016-06-01.
    Schema,
    /// V3: there are no more actions, variables, parameters, triggers, outputs and cases than the limits allow, and no deeper actions.
    Limits,
    /// V4: names have their form, and an action's stands once.
    Names,
    /// V5: the types of actions, triggers and parameters are known.
    Types,
    /// V6: each action, trigger and output has the members of its type.
    Members,
    /// V7: each text that is a template spells one, whose calls are right.
    Expressions,
    /// V8: `runAfter` names other actions of the graph, and no action waits for itself.
    RunAfter,
}

impl Rule {
    /// As in its name, V1 to V8.
    pub fn number(self) -> u8
        ensures { result ≡ rule_number self }
    {
        match self {
            Rule::Form => 1,
            Rule::Schema => 2,
            Rule::Limits => 3,
            Rule::Names => 4,
            Rule::Types => 5,
            Rule::Members => 6,
            Rule::Expressions => 7,
            Rule::RunAfter => 8,
        }
    }
}
