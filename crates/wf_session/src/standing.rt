//! The run as a talk asks for it.
ghost use Rattle.std.specs.Prelude.{◌≡◌, ◌≢◌, ◌<◌, ◌≤◌, IfErr, IfOk, false, true};
ghost use Rattle.wf_reading.specs.ReadSeen.{def_tree};
ghost use Rattle.wf_trigger.specs.StartsSeen.{start_tree};
ghost use Rattle.wf_answers.specs.InputsSeen.{inputs_tree};
ghost use Rattle.wf_stands.specs.Stands as stands;
ghost use Rattle.wf_record.specs.Cost.{cost};
ghost use Rattle.wf_record.specs.Seen.{record_tree};
ghost use Rattle.wf_talk.specs.Standing.{TooLarge};

use crate::accept::add;
use crate::session::{Given, Session, begun, gone_on};
use std::alloc::{AllocError, Global};
use wf_answers::{Answer, Inputs};
use wf_record::{Record, record_line};
use wf_runnable::Runnable;
use wf_talk::{Stand, StandFault, Want};
use wf_trigger::Start;
use wf_val::Address;
use wf_waits::Waits;

fn copy_of(alloc: Global, start: &Start) -> Result<Start, AllocError>
    ensures { IfOk result (λ s. start_tree s ≡ start_tree start.now) }
{
    Ok(Start {
        run: start.run.copy(alloc)?,
        seed: start.seed.copy(alloc)?,
        trigger: start.trigger.copy(alloc)?,
        parameters: start.parameters.copy(alloc)?,
    })
}

fn costs_too_much(record: &Record) -> bool
    ensures dear { result ≡ true → 67108864 < cost (record_tree record.now) }
    ensures within { result ≡ false → cost (record_tree record.now) ≤ 67108864 }
{
    record.cost() > 67108864
}

impl<'a> Session<'a> {
    /// A run that begins, and goes on until it needs an answer that isn't there.
    pub(crate) fn begin(
        alloc: Global,
        runnable: &'a Runnable<'a>,
        given: Given,
    ) -> Result<Session<'a>, StandFault>
        ensures definition { IfOk result (λ s. s.0 ≡ runnable.now.checked.now) }
        ensures start { IfOk result (λ s. s.1.0 ≡ given.start) }
        ensures inputs { IfOk result (λ s. s.1.1.0 ≡ given.inputs) }
        ensures dear { IfErr result (λ f. f ≢ StandFault.Memory
            → stands.Stands (def_tree runnable.now.checked.now.def) (start_tree given.start) (inputs_tree given.inputs) TooLarge) }
    {
        let mut waits = Waits::new(alloc);
        let rest = begun(alloc, runnable, &given.start, &given.inputs, &mut waits)?;
        Ok(Session {
            runnable,
            given,
            waits,
            rest: Some(rest),
        })
    }
}

impl<'a> Stand for Session<'a> {
    ghost use Rattle.std.specs.Prelude.{◌≡◌};
    ghost use Rattle.wf_answers.specs.InputsSeen.{inputs_tree};
    ghost use Rattle.wf_def.specs.DefTree.{DefTree};
    ghost use Rattle.wf_reading.specs.ReadSeen.{def_tree};
    ghost use Rattle.wf_stands.specs.Stands as stands;
    ghost use Rattle.wf_trigger.specs.Starts.{StartTree};
    ghost use Rattle.wf_trigger.specs.StartsSeen.{start_tree};
    ghost use Rattle.wf_session.specs.Stood.{wanted_in};

    ghost Origin = { DefTree × StartTree };

    ghost stands = { λ o. stands.Stands o.0 o.1 };

    ghost origin = { λ s. (def_tree s.0.def, start_tree s.1.0) };

    ghost inputs = { λ s. inputs_tree s.1.1.0 };

    ghost wanted = { λ s. wanted_in s.1.1.1.1 s.1.1.1.0 };

    fn is_waiting(&self) -> bool {
        self.waits.is_in_order();
        self.rest.is_some() && self.waits.len() > 0
    }

    fn record_line(&mut self, alloc: Global) -> Result<Vec<u8>, StandFault> {
        let Some(rest) = self.rest.take() else {
            return Err(StandFault::Memory);
        };
        let start = copy_of(alloc, &self.given.start)?;
        let record = self
            .runnable
            .finished(alloc, start, &self.given.inputs, rest)?;
        if costs_too_much(&record) {
            return Err(StandFault::TooLarge);
        }
        let line = record_line(alloc, &record)?;
        Ok(line)
    }

    fn wants(&self, alloc: Global) -> Result<Vec<Want>, AllocError> {
        if self.rest.is_some() {
            self.waits.wants(alloc)
        } else {
            Ok(Vec::new(alloc))
        }
    }

    fn is_wanted(&self, address: &Address, attempt: u32) -> bool {
        self.rest.is_some() && self.waits.is_wanted(address, attempt as u64)
    }

    fn accept(&mut self, alloc: Global, answer: Answer) -> Result<Vec<Want>, StandFault> {
        let Some(rest) = self.rest.take() else {
            unreachable!()
        };
        self.waits.is_in_order();
        wf_stands::one_more_answer_is_known();
        wf_stands::answers_stay_answered();
        add(alloc, &mut self.given.inputs, &mut self.waits, answer)?;
        let rest = gone_on(
            alloc,
            self.runnable,
            &self.given.start,
            &self.given.inputs,
            rest,
            &mut self.waits,
        )?;
        let wants = self.waits.fresh(alloc)?;
        self.rest = Some(rest);
        Ok(wants)
    }
}
