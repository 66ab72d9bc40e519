//! What a page is drawn from beside the definition.
use wf_record::Record;

/// A record, an earlier one where there is one, and the levels of the actions by their numbers.
#[derive(Clone, Copy)]
pub struct View<'a> {
    pub log: &'a Record,
    pub earlier: Option<&'a Record>,
    pub levels: &'a [u64],
}
