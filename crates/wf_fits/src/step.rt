//! The steps of a way.

/// How what stands in a container is reached from it.
#[derive(Clone, Copy)]
pub enum Into {
    /// Into the graph of a Scope.
    Whole,
    /// Into the branch of an If or a Switch that has the number, counted from 1.
    Branch(u64),
    /// Into an iteration of a Foreach.
    Item,
    /// Into an iteration of an Until.
    Round,
}

/// Into a container, by its number.
#[derive(Clone, Copy)]
pub struct Step {
    pub container: u32,
    pub into: Into,
}
