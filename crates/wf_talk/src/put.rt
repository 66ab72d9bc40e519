//! The writing of a whole text.
ghost use Rattle.std.specs.Prelude.{◌≡◌, ◌≢◌, ◌<◌, OnOk, OnErr};
ghost use Rattle.std.specs.Io.KnownBytes.{Appends};
ghost use Rattle.wf_outside.specs.Outside.{HasCause, Rose};
ghost use Rattle.wf_talk.specs.Written.{AppendsPrefix, Writes};

use wf_outside::{Failed, Sink};

/// Writes all of a text. Each `put` is handed the whole rest.
pub fn put_all<O: Sink>(out: &mut O, text: &[u8]) -> Result<(), Failed>
    ensures ok { OnOk result (Appends (O.taken out.old) (O.taken out.new) text.now) }
    ensures err { OnErr result (AppendsPrefix (O.taken out.old) (O.taken out.new) text.now) }
    ensures cause { HasCause (O.faults out.old) (O.faults out.new) result }
{
    let mut done = 0;
    while done < text.len() {
        done += out.put(&text[done..])?;
    }
    Ok(())
}

/// Writes a text, and answers its status; or 4, where the sink failed.
pub fn close<O: Sink>(out: &mut O, status: u8, text: &[u8]) -> u8
    requires { status ≢ 4 }
    ensures writes { Writes (O.taken out.old) (O.taken out.new) status text.now result }
    ensures only { result ≡ 4 → Rose (O.faults out.old) (O.faults out.new) }
    ensures always { O.faults out.old < O.faults out.new → result ≡ 4 }
{
    match put_all(out, text) {
        Ok(()) => status,
        Err(Failed) => 4,
    }
}
