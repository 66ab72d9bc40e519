//! How a definition is made ready.
ghost use Rattle.std.specs.Prelude.{◌≡◌, IfOk};

use crate::actions::Ready;
use std::alloc::{AllocError, Global};
use wf_catalog::Places;
use wf_paying::terminates;
use wf_sight_laws::Checked;

impl<'a> Ready<'a> {
    /// Makes a definition ready. It walks its graphs a few times.
    pub fn of(alloc: Global, checked: &'a Checked) -> Result<Ready<'a>, AllocError>
        ensures { IfOk result (λ r. r.checked.now ≡ checked.now) }
    {
        let places = Places::of(alloc, &checked.def)?;
        let terminates = terminates(alloc, &checked.def.top)?;
        Ok(Ready {
            checked,
            places,
            terminates,
        })
    }
}
