//! What holds talks of runs.
use crate::conversing::converse;
use std::alloc::Global;
use wf_answers::Inputs;
use wf_outside::{Sink, Source};
use wf_stands::{Checked, Converses};
use wf_trigger::Start;

/// Holds the talk of a run by a session, which makes it as its answers come.
#[derive(Clone, Copy)]
pub struct Talker;

impl Converses for Talker {
    fn converse<I: Source, O: Sink>(
        &self,
        alloc: Global,
        checked: &Checked,
        start: Start,
        inputs: Inputs,
        input: &mut I,
        out: &mut O,
    ) -> u8 {
        converse(alloc, checked, start, inputs, input, out)
    }
}
