// The top call.
ghost use Rattle.std.specs.Prelude.{◌≡◌, ◌⊎◌, ◌<◌, IfOk, IfSome, None};
ghost use Rattle.wf_outside.specs.Outside.{IsCalm, Rose};
ghost use Rattle.wf_page.specs.Answered.{Tells, outcome_of};
ghost use Rattle.wf_page.specs.Judged.{SaidTree};
ghost use Rattle.wf_page.specs.Seen.{asked_tree};
ghost use Rattle.wf_page.specs.Served.{Reaches, Serves, cannot_read};
ghost use Rattle.wf_page.specs.Whole.{IsSaid, Judges};
ghost use Rattle.wf_page.specs.Words.{asked_of};

use crate::judging::judge;
use crate::loading::{Stop, load_all};
use crate::said::Said;
use crate::words::{Asked, parse_words};
use std::alloc::{AllocError, Global};
use wf_outside::{Files, Sink};
use wf_talk::close;
use wf_val::Text;

const USAGE: &[u8] = b"usage: wfpage DEF [EARLIER] RECORD\n";

const OUT_OF_MEMORY: &[u8] = b"out of memory\n";

fn unread_line(alloc: Global, name: Text) -> Result<Vec<u8>, AllocError>
    ensures { IfOk result (λ line. line.items ≡ cannot_read name) }
{
    let mut line = b"cannot read ".to_vec(alloc)?;
    wf_json::quote_to(&mut line, name.as_str())?;
    line.push(b'\n')?;
    Ok(line)
}

// Reads the files that are asked for, and judges them.
fn answer<F: Files>(alloc: Global, files: &mut F, asked: &Asked) -> Result<Said, Stop>
    ensures reaches { Reaches (F.held files.old) (asked_tree asked.now) (F.failed files.old) (F.failed files.new) (outcome_of result) }
    ensures same { F.held files.new ≡ F.held files.old }
{
    match load_all(alloc, files, asked) {
        Err(stop) => Err(stop),
        Ok(given) => match judge(alloc, given) {
            Ok(said) => Ok(said),
            Err(_) => Err(Stop::Memory),
        },
    }
}

// Writes what an answer came to.
fn tell<O: Sink>(alloc: Global, answered: Result<Said, Stop>, out: &mut O) -> u8
    ensures writes { Tells answered (O.taken out.old) (O.taken out.new) result }
    ensures only { result ≡ 4 → Rose (O.faults out.old) (O.faults out.new) }
    ensures always { O.faults out.old < O.faults out.new → result ≡ 4 }
{
    match answered {
        Ok(said) => close(out, said.status, &said.text),
        Err(Stop::CannotRead(name)) => match unread_line(alloc, name) {
            Ok(line) => close(out, 3, &line),
            Err(_) => close(out, 5, OUT_OF_MEMORY),
        },
        Err(Stop::Memory) => close(out, 5, OUT_OF_MEMORY),
    }
}

/// Writes the page of a definition and a record, or why there is none, and answers the status that the program ends with.
pub fn serve_page<F: Files, O: Sink>(
    alloc: Global,
    words: &[Text],
    files: &mut F,
    out: &mut O,
) -> u8
    // The call comes to one outcome, whose status is answered and whose text is written, or with 4 a prefix of the text: 0 and the page; 1
    // and the fault of the definition; 2 and the usage, where the words are another number; 3 and the name of a file that couldn't be read;
    // 5 for want of memory; 7 and why a file has no record of this definition.
    ensures outcome { Serves (F.held files.old) words.now (F.failed files.old) (F.failed files.new) (O.taken out.old) (O.taken out.new)
        result }

    // Where the files tell, no read failed and the sink took all, what the files say that the words ask for is written; or memory ran out.
    ensures said { IfSome (F.held files.old) (λ bytes_of. (said : SaidTree) → Judges bytes_of words.now said →
        F.failed files.new ≡ F.failed files.old → IsCalm (O.faults out.old) (O.faults out.new) →
        IsSaid said (O.taken out.old) (O.taken out.new) result) }

    // 2 comes where the words are another number, and always there, 4 apart.
    ensures misused { asked_of words.now ≡ None → (result ≡ 2) ⊎ (result ≡ 4) }

    // 4 comes where the sink's count rose, and always there.
    ensures four { result ≡ 4 → Rose (O.faults out.old) (O.faults out.new) }
    ensures unwritten { O.faults out.old < O.faults out.new → result ≡ 4 }

    // What the files hold stays as it was.
    ensures files_held { F.held files.new ≡ F.held files.old }
{
    match parse_words(words) {
        None => close(out, 2, USAGE),
        Some(asked) => {
            let answered = answer(alloc, files, &asked);
            tell(alloc, answered, out)
        }
    }
}
