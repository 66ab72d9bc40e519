//! Places of a definition.

/// A place of a definition whose expressions are evaluated together. Actions go by their numbers, outputs and triggers by their places in
/// byte order of names.
#[derive(Clone, Copy, PartialEq, Eq, Debug)]
pub enum Site {
    /// All of an action's inputs, condition, expression or list but what `Items` and `Test` are. Every action has it.
    Inputs(u32),
    /// What a Select makes of each item, or what a Query tests of each.
    Items(u32),
    /// The expression of an Until.
    Test(u32),
    /// The tracked properties. Every action has it.
    Tracked(u32),
    /// A member of the section `outputs`.
    Outputs(u32),
    /// What a trigger splits, and its conditions.
    Trigger(u32),
}
