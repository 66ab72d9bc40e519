//! What uses name, and what else they ask for.
ghost use Rattle.std.specs.Prelude.{◌≡◌};
ghost use Rattle.wf_uses.specs.Named.{is_named_by};

use wf_val::Fun;

/// What a name that is handed to a function is the name of.
#[derive(Clone, Copy)]
pub(crate) enum Named {
    /// An action of which the row is asked.
    Row,
    /// A container of which the result is asked.
    Result,
    Variable,
    Parameter,
    /// A loop of which the item is asked.
    Item,
    /// A loop of which the index is asked.
    Index,
}

/// What is asked for without a name.
#[derive(Clone, Copy)]
pub(crate) enum Asked {
    Item,
    Own,
    Words,
    Moment,
    Run,
}

impl Named {
    /// Whether it is what the function names.
    pub(crate) fn is_by(self, function: Fun) -> bool
        ensures { result ≡ is_named_by self function }
    {
        match self {
            Named::Row => matches!(function, Fun::Actions | Fun::Outputs | Fun::Body),
            Named::Result => matches!(function, Fun::Result),
            Named::Variable => matches!(function, Fun::Variables),
            Named::Parameter => matches!(function, Fun::Parameters),
            Named::Item => matches!(function, Fun::Items),
            Named::Index => matches!(function, Fun::IterationIndexes),
        }
    }
}
