//! Inputs, read from their value.
ghost use Rattle.std.specs.Prelude.{◌≡◌, ◌≢◌, IfOk, IfErr, Ok, Err};
ghost use Rattle.wf_answers.specs.Inputs.{inputs_of};
ghost use Rattle.wf_answers.specs.InputsSeen.{inputs_tree};
ghost use Rattle.wf_answers.specs.declared.fault.InputsFault.TheVariants.{Memory};
ghost use Rattle.wf_val.specs.Seen.{tree};

use crate::fault::InputsFault;
use crate::gather::{Gather, gathered, in_order};
use crate::inputs::Inputs;
use crate::members::{items_or_none, members_or_none, text_or_empty, text_or_none, value_or};
use crate::part::Part;
use std::alloc::Global;
use wf_fn_time::read_time;
use wf_places::least_place;
use wf_val::{Text, Val};

/// The inputs that a value is, or why it is none.
pub fn read_inputs(alloc: Global, value: &Val) -> Result<Inputs, InputsFault>
    ensures inputs { IfOk result (λ i. inputs_of (tree value.now) ≡ Ok (inputs_tree i)) }
    ensures fault { IfErr result (λ f. f ≢ Memory → inputs_of (tree value.now) ≡ Err f) }
{
    if let Some(pointer) = least_place(alloc, Part::Whole, value)? {
        let pointer = Text::from_string(pointer);
        return Err(InputsFault::Form { pointer });
    }
    let Gather { kept, twice } = gathered(alloc, items_or_none(value.member("answers")))?;
    if let Some(answer) = twice {
        let address = answer.address.text(alloc)?;
        let attempt = answer.attempt;
        return Err(InputsFault::Twice { address, attempt });
    }
    let moment = match read_time(text_or_empty(alloc, value.member("moment"))?.as_str()) {
        Some(moment) => moment,
        None => return Err(InputsFault::Moment),
    };
    Ok(Inputs {
        run: text_or_empty(alloc, value.member("run"))?,
        seed: text_or_empty(alloc, value.member("seed"))?,
        moment,
        trigger: text_or_none(alloc, value.member("trigger"))?,
        outputs: value_or(alloc, Val::Null, value.member("outputs"))?,
        parameters: members_or_none(alloc, value.member("parameters"))?,
        answers: in_order(alloc, kept)?,
    })
}
