//! What a run leaves.
ghost use Rattle.std.specs.Prelude.{◌≡◌, ◌+◌, [], IfOk, OnOk, map, option_map, sum_by};
ghost use Rattle.wf_answers.specs.InputsSeen.{inputs_tree};
ghost use Rattle.wf_asks.specs.Known.{store_in};
ghost use Rattle.wf_def.specs.ActionTree.{actions_in};
ghost use Rattle.wf_catalog.specs.Ending.{section};
ghost use Rattle.wf_catalog.specs.Environment.{fresh, last_facts};
ghost use Rattle.wf_catalog.specs.Containers.{is_terminate};
ghost use Rattle.wf_catalog.specs.Look.{told_to_outputs};
ghost use Rattle.wf_catalog.specs.Record.{ending_of, first_succeeded, is_response, plain_ending, record_of_table, responded, rows_of};
ghost use Rattle.wf_catalog.specs.Status.{graph_status};
ghost use Rattle.wf_catalog.specs.ReadSeen.{def_tree};
ghost use Rattle.wf_record.specs.Cost.{cost, row_cost};
ghost use Rattle.wf_record.specs.Seen.{record_tree, row_tree};
ghost use Rattle.wf_sight_laws.specs.Tables.{AreWhole};
ghost use Rattle.wf_sight_laws.specs.Laws.{run_of};
ghost use Rattle.wf_sight_laws.specs.Seen.{row_content, rows_seen};
ghost use Rattle.wf_sight_laws.specs.SightSightSeen.{run_tree};
ghost use Rattle.wf_catalog.specs.StartsSeen.{start_tree};
ghost use Rattle.wf_val.specs.Seen.{tree};
ghost use Rattle.wf_val.specs.ValueTree.{weight};
ghost use Rattle.wf_ended.specs.Ended.{HasEnded};
ghost use Rattle.wf_ended.specs.Found.{cost_of};
ghost use Rattle.wf_ended.specs.Left.{left_by, recorded, first_cost};
ghost use Rattle.wf_ended.specs.LeftSeen.{ending_tree, left_tree};

use crate::ending::{Ending, by_graph, by_terminate};
use crate::ends::Ends;
use crate::first::first_succeeded;
use crate::outputs::values_in;
use crate::rows::rows_of;
use std::alloc::{AllocError, Global};
use wf_answers::Inputs;
use wf_asks::{Known, Opens, Rows, Store};
use wf_catalog::Start;
use wf_record::{Record, Row, Status};
use wf_sight_laws::{Run, Sight};
use wf_val::{Digest, EvalFault, Fields, Indexes, Val};

/// What a run leaves beside what it was started with.
#[derive(Drop)]
pub struct Left {
    pub ending: Ending,
    /// What it answered its caller, or null.
    pub response: Val,
    pub rows: wf_record::Rows,
}

impl Left {
    /// The record of the run that was started so.
    pub fn record(self, digest: Digest, start: Start) -> Record
        ensures record { record_tree result ≡ recorded digest.bytes (start_tree start) (left_tree self) }
        ensures cost { cost (record_tree result) ≡ first_cost (start_tree start) + weight (left_tree self).ending.outputs
            + sum_by row_cost (left_tree self).rows }
    {
        let Left {
            ending,
            response,
            rows,
        } = self;
        let Ending {
            status,
            error,
            outputs,
        } = ending;
        Record {
            run: start.run,
            digest,
            trigger: start.trigger,
            parameters: start.parameters,
            status,
            error,
            response,
            outputs,
            rows,
        }
    }
}

fn run<'r>(start: &'r Start, inputs: &Inputs) -> Run<'r>
    ensures { run_tree result ≡ run_of (fresh (start_tree start.now) (inputs_tree inputs.now))
        (last_facts (fresh (start_tree start.now) (inputs_tree inputs.now))) }
{
    Run {
        start,
        name: &start.run,
        seed: &start.seed,
        moment: inputs.moment,
    }
}

impl<'a> Ends<'a> {
    // How the graph at the top ended.
    fn status(&self, alloc: Global, rows: &Rows<Row>) -> Result<Status, AllocError>
        ensures { IfOk result (λ s. s ≡ graph_status (actions_in (def_tree self.now.checked.now.def).top) [] (rows_seen rows.now.0)) }
    {
        self.checked.def.always_read();
        wf_closing::steps_give_the_status();
        wf_catalog::numbers_stand_once();
        wf_catalog::entries_stay_in_their_graph();
        wf_catalog::actions_have_depths();
        let status = self.top.status(alloc, &Indexes::new(alloc), rows)?;
        Ok(status)
    }

    // The values of the section `outputs`, or the first fault. Where there are none, nothing has to be seen for them.
    fn outputs(
        &self,
        alloc: Global,
        start: &Start,
        inputs: &Inputs,
        rows: &Rows<Row>,
        store: &Store,
    ) -> Result<Result<Fields, EvalFault>, AllocError>
        requires { HasEnded (def_tree self.now.checked.now.def) (fresh (start_tree start.now) (inputs_tree inputs.now))
            (rows_seen rows.now.0) (store_in store.now.0) }
        ensures { IfOk result (λ s. s ≡ section (told_to_outputs (def_tree self.now.checked.now.def)
            (fresh (start_tree start.now) (inputs_tree inputs.now)) (rows_seen rows.now.0)) (def_tree self.now.checked.now.def).outputs) }
    {
        if self.checked.def.outputs.as_slice().is_empty() {
            return Ok(Ok(Fields::new(alloc)));
        }
        let values = self.values(alloc, start, inputs, rows, store)?;
        Ok(values)
    }

    // The same, of any section.
    fn values(
        &self,
        alloc: Global,
        start: &Start,
        inputs: &Inputs,
        rows: &Rows<Row>,
        store: &Store,
    ) -> Result<Result<Fields, EvalFault>, AllocError>
        requires { HasEnded (def_tree self.now.checked.now.def) (fresh (start_tree start.now) (inputs_tree inputs.now))
            (rows_seen rows.now.0) (store_in store.now.0) }
        ensures { IfOk result (λ s. s ≡ section (told_to_outputs (def_tree self.now.checked.now.def)
            (fresh (start_tree start.now) (inputs_tree inputs.now)) (rows_seen rows.now.0)) (def_tree self.now.checked.now.def).outputs) }
    {
        self.checked.def.always_read();
        self.checked.always_checked();
        wf_sight_laws::outputs_see_the_last_writers();
        let opens = Opens::new(alloc);
        let known = Known {
            rows,
            opens: &opens,
            store,
        };
        let mut sight = Sight::by_outputs(alloc, self.places, &run(start, inputs), known)?;
        let values = values_in(alloc, self.checked.def.outputs.as_slice(), &mut sight)?;
        Ok(values)
    }

    // How the run ends without a Terminate.
    fn plain_ending(
        &self,
        alloc: Global,
        start: &Start,
        inputs: &Inputs,
        rows: &Rows<Row>,
        store: &Store,
    ) -> Result<Ending, AllocError>
        requires { HasEnded (def_tree self.now.checked.now.def) (fresh (start_tree start.now) (inputs_tree inputs.now))
            (rows_seen rows.now.0) (store_in store.now.0) }
        ensures { IfOk result (λ e. ending_tree e ≡ plain_ending (def_tree self.now.checked.now.def)
            (fresh (start_tree start.now) (inputs_tree inputs.now)) (rows_seen rows.now.0)) }
    {
        let status = self.status(alloc, rows)?;
        let outputs = self.outputs(alloc, start, inputs, rows, store)?;
        let ending = by_graph(alloc, status, outputs)?;
        Ok(ending)
    }

    // How the run ends: by the first Terminate that Succeeded, if there is one.
    fn ending(
        &self,
        alloc: Global,
        start: &Start,
        inputs: &Inputs,
        rows: &Rows<Row>,
        store: &Store,
    ) -> Result<Ending, AllocError>
        requires { HasEnded (def_tree self.now.checked.now.def) (fresh (start_tree start.now) (inputs_tree inputs.now))
            (rows_seen rows.now.0) (store_in store.now.0) }
        ensures { IfOk result (λ e. ending_tree e ≡ ending_of (def_tree self.now.checked.now.def)
            (fresh (start_tree start.now) (inputs_tree inputs.now)) (rows_seen rows.now.0)) }
    {
        match self.terminate(rows) {
            Some(row) => {
                let ending = by_terminate(alloc, &row.inputs)?;
                Ok(ending)
            }
            None => {
                let ending = self.plain_ending(alloc, start, inputs, rows, store)?;
                Ok(ending)
            }
        }
    }

    // The row of the first Terminate that Succeeded.
    fn terminate<'r>(&self, rows: &'r Rows<Row>) -> Option<&'r Row>
        ensures { option_map (λ r. row_content r.now) result
            ≡ first_succeeded (def_tree self.now.checked.now.def) is_terminate (rows_seen rows.now.0) }
    {
        self.checked.always_checked();
        first_succeeded(&self.checked.order, rows, &self.terminates)
    }

    // And of the first Response.
    fn respond<'r>(&self, rows: &'r Rows<Row>) -> Option<&'r Row>
        ensures { option_map (λ r. row_content r.now) result
            ≡ first_succeeded (def_tree self.now.checked.now.def) is_response (rows_seen rows.now.0) }
    {
        self.checked.always_checked();
        first_succeeded(&self.checked.order, rows, &self.responses)
    }

    // What the run answered its caller.
    fn response(&self, alloc: Global, rows: &Rows<Row>) -> Result<Val, AllocError>
        ensures { IfOk result (λ v. tree v
            ≡ responded (first_succeeded (def_tree self.now.checked.now.def) is_response (rows_seen rows.now.0))) }
    {
        match self.respond(rows) {
            Some(row) => row.outputs.copy(alloc),
            None => Ok(Val::Null),
        }
    }

    // The rows at their addresses, in order.
    fn rows(&self, alloc: Global, rows: &mut Rows<Row>) -> Result<wf_record::Rows, AllocError>
        requires { AreWhole (def_tree self.now.checked.now.def) (rows_seen rows.old.0) }
        ensures rows { IfOk result (λ there. map row_tree there ≡ rows_of (def_tree self.now.checked.now.def) (rows_seen rows.old.0)) }
        ensures cost { IfOk result (λ there. sum_by row_cost (map row_tree there) ≡ sum_by cost_of rows.old.0) }
        ensures none { OnOk result (rows.new.0 ≡ []) }
    {
        self.checked.def.always_read();
        wf_sight_laws::listed_rows_stand_for_the_table();
        wf_catalog::numbers_are_places();
        wf_catalog::numbers_are_had();
        let _count = rows.len();
        let items = rows.take_all(alloc)?;
        let there = rows_of(alloc, self.places, items)?;
        Ok(there)
    }

    /// What a run leaves that was started so, once nothing may happen any more, whether it was started anew or made from an older one: from
    /// its rows, which are taken out of their list, and from who wrote last to each variable. After an error they may be gone.
    pub fn left(
        &self,
        alloc: Global,
        start: &Start,
        inputs: &Inputs,
        rows: &mut Rows<Row>,
        store: &Store,
    ) -> Result<Left, AllocError>
        requires { HasEnded (def_tree self.now.checked.now.def) (fresh (start_tree start.now) (inputs_tree inputs.now))
            (rows_seen rows.old.0) (store_in store.now.0) }
        ensures left { IfOk result (λ l. left_tree l ≡ left_by (def_tree self.now.checked.now.def)
            (fresh (start_tree start.now) (inputs_tree inputs.now)) (rows_seen rows.old.0)) }
        ensures record { IfOk result (λ l. recorded (def_tree self.now.checked.now.def).digest (start_tree start.now) (left_tree l)
            ≡ record_of_table (def_tree self.now.checked.now.def) (fresh (start_tree start.now) (inputs_tree inputs.now))
            (rows_seen rows.old.0)) }
        ensures cost { IfOk result (λ l. sum_by row_cost (left_tree l).rows ≡ sum_by cost_of rows.old.0) }
        ensures none { OnOk result (rows.new.0 ≡ []) }
    {
        let ending = self.ending(alloc, start, inputs, &*rows, store)?;
        let response = self.response(alloc, &*rows)?;
        let there = self.rows(alloc, rows)?;
        Ok(Left {
            ending,
            response,
            rows: there,
        })
    }
}
