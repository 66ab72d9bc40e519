//! The sections of a definition beside its actions.
use crate::sort::Sort;
use wf_lists::Series;
use wf_template::{Template, Tree};
use wf_val::{Name, Val, Vals};

/// A declared parameter. Texts in its values are no templates.
#[derive(Drop)]
pub struct Param {
    pub name: Name,
    pub sort: Sort,
    /// The member `defaultValue`; null is a value.
    pub default: Option<Val>,
    /// The member `allowedValues`.
    pub allowed: Option<Vals>,
}

/// Parameters, in byte order of their names.
pub type Params = Series<Param>;

/// Templates in a row.
pub type Templates = Series<Template>;

/// A trigger: what splits its outputs into several runs, and the conditions that all have to hold.
#[derive(Drop)]
pub struct Trigger {
    pub name: Name,
    /// The member `splitOn`.
    pub split: Option<Template>,
    /// The member `expression` of each of `conditions`.
    pub conditions: Templates,
}

/// Triggers, in byte order of their names.
pub type Triggers = Series<Trigger>;

/// A member of the section `outputs`.
#[derive(Drop)]
pub struct Output {
    pub name: Name,
    pub value: Tree,
}

/// Outputs, in byte order of their names.
pub type Outputs = Series<Output>;
