//! Last writers of variables, as a row gives some of them values.
ghost use Rattle.std.specs.Prelude.{◌≡◌, ◌<◌, ◌≤◌, ◌+◌, ℕ, IfOk, Some, cond, length, nat_eq};
ghost use Rattle.wf_tables.specs.Instances.{address_of};
ghost use Rattle.wf_tables.specs.Known.{store_in};
ghost use Rattle.wf_events.specs.Written.{put_each, writers_of};

use std::alloc::{AllocError, Global};
use wf_tables::{Instance, Store, WriterAt};

/// An instance as the last writer of each of these variables.
pub fn writers(
    alloc: Global,
    variables: &[u32],
    place: &Instance,
) -> Result<Vec<WriterAt>, AllocError>
    ensures { IfOk result (λ writers. writers.items ≡ writers_of place.now variables.now) }
{
    let mut writers = Vec::with_capacity(alloc, variables.len())?;
    for variable in variables {
        writers.push(WriterAt {
            variable: *variable,
            instance: place.copy(alloc)?,
        })?;
    }
    Ok(writers)
}

fn put_writer(store: &mut Store, writer: WriterAt)
    requires { 0 < store.old.1 }
    ensures store { (v : ℕ) → store_in store.new.0 v
        ≡ cond (nat_eq writer.variable v) (Some (address_of writer.instance)) (store_in store.old.0 v) }
    ensures room { store.old.1 ≤ store.new.1 + 1 }
{
    store.put(writer);
}

/// Puts several last writers, one after the other. No memory is taken.
pub fn put_writers(store: &mut Store, writers: Vec<WriterAt>)
    requires { length writers.items ≤ store.old.1 }
    ensures { (v : ℕ) → store_in store.new.0 v ≡ put_each writers.items (store_in store.old.0) v }
{
    for writer in writers {
        put_writer(store, writer);
    }
}
