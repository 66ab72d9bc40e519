//! What a trace tells of the actions of a run.
use crate::acting::setting;
use crate::actions::Actions;
use crate::opened::are_answered;
use std::alloc::{AllocError, Global};
use wf_asks::OpenAt;
use wf_catalog::Begun;
use wf_opening::{Decision, Verdict};
use wf_paying::Tells;
use wf_record::Row;
use wf_tables::{EventAt, LeafAt};

impl<'a> Tells for Actions<'a> {
    ghost use Rattle.wf_actions.specs.Meant as meant;

    ghost told = { meant.told };

    fn tell(
        &self,
        alloc: Global,
        event: &EventAt,
        row: Option<&Row>,
        leaf: Option<&LeafAt<Begun>>,
        container: Option<&OpenAt<Decision, Verdict>>,
    ) -> Result<Vec<u8>, AllocError> {
        are_answered(self);
        let line = wf_telling::tell(alloc, &setting(self), event, row, leaf, container)?;
        Ok(line)
    }
}
