// The commands: each function follows the plan of its name, and reads at most one file.
ghost use Rattle.std.specs.Prelude.{◌≡◌, ◌≢◌, Some, IfOk, IfErr};
ghost use Rattle.wf_reading.specs.ReadSeen.{def_tree};
ghost use Rattle.wf_top.specs.Commands.{accepted, accepted_line, defined, plan};
ghost use Rattle.wf_top.specs.Plan.{Says};
ghost use Rattle.wf_top.specs.Served.{Follows};
ghost use Rattle.wf_top.specs.Words.{command_of};

use crate::DEFINITION_LIMIT;
use crate::accepted::accepted_line;
use crate::drilling::drilled;
use crate::listing::list;
use crate::load::{Stop, load};
use crate::recurring::fired;
use crate::resubmitting::resubmit;
use crate::runs::run;
use crate::said::{Said, Verdict, say_fault};
use crate::words::{Command, one_asked, schedule_word, set_asked};
use std::alloc::Global;
use wf_files::{Checked, definition_form};
use wf_outside::Files;
use wf_told::Engine;
use wf_val::Text;

// Says that a definition is accepted.
fn say_accepted(alloc: Global, checked: &Checked) -> Result<Said, Stop>
    ensures said { IfOk result (λ said. Says Verdict.Done (accepted_line (def_tree checked.now.def)) ≡ Says said.verdict said.text.items) }
    ensures stopped { IfErr result (λ stop. stop ≡ Stop.Memory) }
{
    Ok(Said {
        verdict: Verdict::Done,
        text: accepted_line(alloc, &checked.def)?,
    })
}

// Does what a command does with an accepted definition.
fn accepted<F: Files, E: Engine>(
    alloc: Global,
    words: &[Text],
    command: Command,
    files: &mut F,
    engine: &E,
    checked: &Checked,
) -> Result<Said, Stop>
    requires { command_of words.now ≡ Some command }
    ensures follows { Follows (F.held files.old) (accepted command words.now (def_tree checked.now.def)) (F.failed files.old)
        (F.failed files.new) result }
    ensures same { F.held files.new ≡ F.held files.old }
{
    let schedule = schedule_word(words);
    match command {
        Command::Check
        | Command::List
        | Command::Fires { .. }
        | Command::Drill { .. }
        | Command::Session => say_accepted(alloc, checked),
        Command::Run => run(alloc, files, engine, false, &words[2], schedule, checked),
        Command::Trace => run(alloc, files, engine, true, &words[2], schedule, checked),
        Command::Resubmit => resubmit(alloc, files, engine, one_asked(words), checked),
        Command::ResubmitSet => resubmit(alloc, files, engine, set_asked(words), checked),
    }
}

// Reads and judges a definition, and does what a command does with it.
fn defined<F: Files, E: Engine>(
    alloc: Global,
    words: &[Text],
    command: Command,
    files: &mut F,
    engine: &E,
    definition: &Text,
) -> Result<Said, Stop>
    requires { command_of words.now ≡ Some command }
    ensures follows { Follows (F.held files.old) (defined definition.now command words.now) (F.failed files.old)
        (F.failed files.new) result }
    ensures same { F.held files.new ≡ F.held files.old }
{
    let file = load(alloc, files, definition, DEFINITION_LIMIT)?;
    match definition_form(alloc, file) {
        Err(fault) => say_fault(alloc, Verdict::Definition, b"definition ", fault),
        Ok(checked) => accepted(alloc, words, command, files, engine, &checked),
    }
}

/// Follows the plan of the command that the words are, which isn't `session`.
#[tactic(auto, unfolding(crate::specs::Commands::plan))]
pub fn follow<F: Files, E: Engine>(
    alloc: Global,
    words: &[Text],
    command: Command,
    files: &mut F,
    engine: &E,
) -> Result<Said, Stop>
    requires names { command_of words.now ≡ Some command }
    requires other { command ≢ Command.Session }
    ensures follows { Follows (F.held files.old) (plan command words.now) (F.failed files.old) (F.failed files.new) result }
    ensures same { F.held files.new ≡ F.held files.old }
{
    match command {
        Command::List => list(alloc, files, &words[1]),
        Command::Check | Command::Run | Command::Trace | Command::Resubmit | Command::ResubmitSet =>
            { defined(alloc, words, command, files, engine, &words[1]) }
        Command::Fires { from, count } => fired(alloc, files, &words[1], &words[2], from, count),
        Command::Drill { size } => drilled(alloc, engine, size),
        Command::Session => unreachable!(),
    }
}
