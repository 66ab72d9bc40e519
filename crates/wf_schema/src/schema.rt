//! Schemas.
ghost use Rattle.std.specs.Prelude.{◌≡◌, ◌≢◌, IfOk, IfErr, Ok, Err, false, true};
ghost use Rattle.wf_schema.specs.Keywords.{is_schema};
ghost use Rattle.wf_schema.specs.Reading.{schema_of, schema_tree};
ghost use Rattle.wf_schema.specs.declared.fault.SchemaFault.TheVariants.{Memory};
ghost use Rattle.wf_val.specs.Seen.{tree};

use crate::fault::SchemaFault;
use crate::part::Part;
use std::alloc::Global;
use wf_places::least_place;
use wf_val::{Text, Val};

/// A schema, kept as the value that it is; seen as that value's tree.
#[derive(Drop)]
pub struct Schema {
    pub(crate) value: Val,
}

impl Schema {
    /// The schema that a value is, or the least place at which it is none.
    #[tactic(auto, using(crate::proofs::FlawLemmas::taken))]
    pub fn read(alloc: Global, value: &Val) -> Result<Schema, SchemaFault>
        ensures exact { IfOk result (λ s. schema_of (tree value.now) ≡ Ok (schema_tree s)) }
        ensures taken { IfOk result (λ s. is_schema (tree value.now) ≡ true) }

        ensures fault { IfErr result (λ f. f ≢ Memory → schema_of (tree value.now) ≡ Err f) }
        ensures refused { IfErr result (λ f. f ≢ Memory → is_schema (tree value.now) ≡ false) }
    {
        match least_place(alloc, Part::Schema, value)? {
            Some(pointer) => Err(SchemaFault::Form {
                pointer: Text::from_string(pointer),
            }),
            None => Ok(Schema {
                value: value.copy(alloc)?,
            }),
        }
    }
}
