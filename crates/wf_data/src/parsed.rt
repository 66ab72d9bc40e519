//! ParseJson: the value that a text spells.
ghost use Rattle.std.specs.Prelude.{◌≡◌};
ghost use Rattle.wf_val.specs.Arguments.{Gives, seen};
ghost use Rattle.wf_val.specs.Seen.{tree};
ghost use Rattle.wf_template.specs.DataSeen.{data_tree};
ghost use Rattle.wf_data.specs.Made.{Comes};
ghost use Rattle.wf_data.specs.MadeSeen.{made_seen};
ghost use Rattle.wf_data.specs.Parsed.{made_of_content, made_parse_json, parsed};

use crate::made::{Made, fitting, one_member};
use std::alloc::Global;
use wf_eval::{Look, eval_tree};
use wf_json::JsonFault;
use wf_template::Tree;
use wf_val::{EvalFault, Fun, Val, bounded};

// A text is read; any other value, null too, is itself.
fn parsed(alloc: Global, content: &Val) -> Result<Val, EvalFault>
    ensures { Gives (seen result) (parsed (tree content.now)) }
{
    match content {
        Val::Text(text) => match wf_json::read(alloc, text.as_str().as_bytes()) {
            Ok(value) => bounded(value),
            Err(JsonFault::Memory) => Err(EvalFault::Memory),
            Err(_) => Err(EvalFault::BadText {
                function: Fun::ParseJson,
            }),
        },
        _ => Ok(content.copy(alloc)?),
    }
}

// What a ParseJson keeps.
fn made_of_content(alloc: Global, content: Val) -> Result<Made, EvalFault>
    ensures { Gives (made_seen result) (made_of_content (tree content)) }
{
    let value = parsed(alloc, &content)?;
    let inputs = one_member(alloc, "content", content)?;
    let outputs = one_member(alloc, "body", value)?;
    fitting(inputs, outputs)
}

/// ParseJson gives out the value that its content spells. Whether that is as a schema asks isn't judged here.
pub fn parse_json<L: Look>(alloc: Global, content: &Tree, look: &mut L) -> Result<Made, EvalFault>
    ensures made { Comes (made_seen result)
        (made_parse_json (L.told look.old) (data_tree content.now) (L.drawn look.old)) (L.drawn look.new) }
    ensures same { L.told look.new ≡ L.told look.old }
    ensures held { L.held look.new ≡ L.held look.old }
{
    let content = eval_tree(alloc, content, look)?;
    made_of_content(alloc, content)
}
