// How a call goes: what its words ask for is done, and what comes of it is written.
ghost use Rattle.std.specs.Prelude.{◌≡◌, ◌≢◌, ◌<◌, List, ℕ, Some, IfOk};
ghost use Rattle.wf_outside.specs.Outside.{Held, Rose};
ghost use Rattle.wf_top.specs.Commands.{plan_of};
ghost use Rattle.wf_top.specs.Conversed.{IsServed};
ghost use Rattle.wf_top.specs.Plan.{Plan};
ghost use Rattle.wf_top.specs.Served.{Follows, Serves, cannot_read};
ghost use Rattle.wf_top.specs.Words.{command_of};

use crate::commands::follow;
use crate::load::Stop;
use crate::said::Said;
use crate::session::{Opened, session};
use crate::words::{Command, parse_words};
use std::alloc::{AllocError, Global};
use wf_outside::{Files, Sink, Source};
use wf_stands::Converses;
use wf_talk::close;
use wf_told::Engine;
use wf_val::Text;

const USAGE: &[u8] =
    b"usage: wflow check DEF | run DEF INPUTS [SCHEDULE] | trace DEF INPUTS SCHEDULE | resubmit DEF HISTORY RUN ACTION INPUTS [SCHEDULE] | resubmit-set DEF HISTORY RUN INPUTS SCHEDULE ACTION... | list HISTORY | drill N | session DEF INPUTS | fires DEF TRIGGER FROM N\n";

const OUT_OF_MEMORY: &[u8] = b"out of memory\n";

fn unread_line(alloc: Global, name: Text) -> Result<Vec<u8>, AllocError>
    ensures { IfOk result (λ line. line.items ≡ cannot_read name) }
{
    let mut line = b"cannot read ".to_vec(alloc)?;
    wf_json::quote_to(&mut line, name.as_str())?;
    line.push(b'\n')?;
    Ok(line)
}

// Ends a call by what following its plan gave.
fn tell<O: Sink>(alloc: Global, followed: Result<Said, Stop>, out: &mut O) -> u8
    ensures serves { (held : Held) → (plan : Plan) → (failed later : List (List ℕ)) → Follows held plan failed later followed
        → Serves held (Some plan) failed later (O.taken out.old) (O.taken out.new) result }
    ensures only { result ≡ 4 → Rose (O.faults out.old) (O.faults out.new) }
    ensures always { O.faults out.old < O.faults out.new → result ≡ 4 }
{
    match followed {
        Ok(said) => close(out, said.verdict.number(), &said.text),
        Err(Stop::CannotRead(name)) => match unread_line(alloc, name) {
            Ok(line) => close(out, 3, &line),
            Err(_) => close(out, 5, OUT_OF_MEMORY),
        },
        Err(Stop::Memory) => close(out, 5, OUT_OF_MEMORY),
    }
}

// Does what the words ask for, where they are another command than `session`.
fn other_command<F: Files, O: Sink, E: Engine>(
    alloc: Global,
    words: &[Text],
    command: Command,
    files: &mut F,
    engine: &E,
    out: &mut O,
) -> u8
    requires names { command_of words.now ≡ Some command }
    requires other { command ≢ Command.Session }
    ensures outcome { Serves (F.held files.old) (plan_of words.now) (F.failed files.old) (F.failed files.new) (O.taken out.old)
        (O.taken out.new) result }
    ensures only { result ≡ 4 → Rose (O.faults out.old) (O.faults out.new) }
    ensures always { O.faults out.old < O.faults out.new → result ≡ 4 }
    ensures same { F.held files.new ≡ F.held files.old }
{
    let followed = follow(alloc, words, command, files, engine);
    tell(alloc, followed, out)
}

// Does what the words of `session` ask for.
fn talk<F: Files, I: Source, O: Sink, T: Converses>(
    alloc: Global,
    words: &[Text],
    files: &mut F,
    talker: &T,
    input: &mut I,
    out: &mut O,
) -> u8
    requires { command_of words.now ≡ Some Command.Session }
    ensures served { IsServed (F.held files.old) words.now (F.failed files.old) (F.failed files.new) (I.faults input.old)
        (I.faults input.new) (I.left input.old) (I.left input.new) (O.taken out.old) (O.taken out.new) result }
    ensures only { result ≡ 4 → Rose (O.faults out.old) (O.faults out.new) }
    ensures always { O.faults out.old < O.faults out.new → result ≡ 4 }
    ensures same { F.held files.new ≡ F.held files.old }
{
    match session(alloc, files, &words[1], &words[2]) {
        Ok(
            Opened::Talk {
                checked,
                start,
                inputs,
            },
        ) => talker.converse(alloc, &checked, start, inputs, input, out),
        Ok(Opened::Said(said)) => tell(alloc, Ok(said), out),
        Err(stop) => tell(alloc, Err(stop), out),
    }
}

/// Does what words ask for, and answers the status that the program ends with.
pub fn obey<F: Files, I: Source, O: Sink, E: Engine, T: Converses>(
    alloc: Global,
    words: &[Text],
    files: &mut F,
    engine: &E,
    talker: &T,
    input: &mut I,
    out: &mut O,
) -> u8
    ensures served { IsServed (F.held files.old) words.now (F.failed files.old) (F.failed files.new) (I.faults input.old)
        (I.faults input.new) (I.left input.old) (I.left input.new) (O.taken out.old) (O.taken out.new) result }
    ensures only { result ≡ 4 → Rose (O.faults out.old) (O.faults out.new) }
    ensures always { O.faults out.old < O.faults out.new → result ≡ 4 }
    ensures same { F.held files.new ≡ F.held files.old }
{
    match parse_words(words) {
        None => close(out, 2, USAGE),
        Some(Command::Session) => talk(alloc, words, files, talker, input, out),
        Some(other) => other_command(alloc, words, other, files, engine, out),
    }
}
