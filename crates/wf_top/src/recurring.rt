// The command that lists the next moments of a trigger: it reads the definition alone.
ghost use Rattle.std.specs.Prelude.{◌≡◌, ◌++◌, IfOk, IfErr, OnOk, Ok, None, option_map};
ghost use Rattle.wf_fn_time.specs.Times.{print_time_row};
ghost use Rattle.wf_recur.specs.Moments.{moments_due};
ghost use Rattle.wf_recur.specs.Reading.{recurrence_of};
ghost use Rattle.wf_top.specs.Commands.{fired, recurs, triggered};
ghost use Rattle.wf_top.specs.Fires.{moment_line, moments_text, recurrence_line, recurrence_words, text_in, trigger_in};
ghost use Rattle.wf_top.specs.Plan.{Says};
ghost use Rattle.wf_top.specs.Served.{Follows};
ghost use Rattle.wf_val.specs.Seen.{tree};

use crate::DEFINITION_LIMIT;
use crate::load::{Stop, load};
use crate::said::{Said, Verdict, say_fault};
use std::alloc::{AllocError, Global};
use wf_files::{value_form, with_text};
use wf_fn_time::{Ticks, print_time};
use wf_outside::Files;
use wf_recur::{Recurrence, RecurrenceFault, fires};
use wf_val::{EvalFault, Fun, Text, Val};

fn recurrence_words(alloc: Global, fault: RecurrenceFault) -> Result<Vec<u8>, AllocError>
    ensures { IfOk result (λ bytes. bytes.items ≡ recurrence_words fault) }
{
    match fault {
        RecurrenceFault::NotRecurrence => Ok(b"NotRecurrence".to_vec(alloc)?),
        RecurrenceFault::Form { pointer } => with_text(alloc, b"Form ", &pointer),
        RecurrenceFault::Zone { name } => with_text(alloc, b"Zone ", &name),
        RecurrenceFault::Memory => Ok(Vec::new(alloc)),
    }
}

// The line of a refusal.
#[tactic(auto, unfolding(crate::specs::Fires::recurrence_line))]
fn recurrence_line(alloc: Global, words: &[u8]) -> Result<Vec<u8>, AllocError>
    ensures { IfOk result (λ line. line.items ≡ recurrence_line words.now) }
{
    let mut line = b"recurrence ".to_vec(alloc)?;
    line.extend_from_slice(words)?;
    line.push(b'\n')?;
    Ok(line)
}

// A moment as it is printed where no pattern is given.
fn printed(alloc: Global, moment: Ticks) -> Result<Val, AllocError>
    ensures { IfOk result (λ value. text_in (Ok (tree value)) ≡ text_in (print_time_row moment None Fun.FormatDateTime)) }
{
    match print_time(alloc, moment, None, Fun::FormatDateTime) {
        Ok(value) => Ok(value),
        Err(EvalFault::Memory) => Err(AllocError),
        Err(_fault) => Ok(Val::Null),
    }
}

// The line of a moment.
fn push_moment(alloc: Global, text: &mut Vec<u8>, moment: Ticks) -> Result<(), AllocError>
    ensures { OnOk result (text.new.items ≡ text.old.items ++ moment_line moment) }
{
    let value = printed(alloc, moment)?;
    if let Val::Text(printed) = &value {
        text.extend_from_slice(printed.as_str().as_bytes())?;
    }
    text.push(b'\n')?;
    Ok(())
}

#[tactic(auto, unfolding(crate::specs::Fires::moments_text))]
fn moments_text(alloc: Global, moments: &[Ticks]) -> Result<Vec<u8>, AllocError>
    ensures { IfOk result (λ text. text.items ≡ moments_text moments.now) }
{
    if moments.is_empty() {
        return Ok(b"# none\n".to_vec(alloc)?);
    }
    let mut text = Vec::new(alloc);
    for moment in moments {
        push_moment(alloc, &mut text, *moment)?;
    }
    Ok(text)
}

// The next moments of a recurrence, from a moment in ticks on; there are none behind the year 9999.
fn next_moments(
    alloc: Global,
    recurrence: &Recurrence,
    from: u64,
    count: u32,
) -> Result<Vec<Ticks>, AllocError>
    ensures { IfOk result (λ moments. moments.items ≡ moments_due recurrence.now from count) }
{
    match Ticks::of(from) {
        Some(from) => fires(alloc, recurrence, from, count),
        None => Ok(Vec::new(alloc)),
    }
}

// The next moments of a trigger.
fn recurs(alloc: Global, trigger: &Val, from: u64, count: u32) -> Result<Said, Stop>
    ensures said { IfOk result (λ said. recurs from count (recurrence_of (tree trigger.now)) ≡ Says said.verdict said.text.items) }
    ensures stopped { IfErr result (λ stop. stop ≡ Stop.Memory) }
{
    match Recurrence::read(alloc, trigger) {
        Ok(recurrence) => Ok(Said {
            verdict: Verdict::Done,
            text: moments_text(alloc, &next_moments(alloc, &recurrence, from, count)?)?,
        }),
        Err(RecurrenceFault::Memory) => Err(Stop::Memory),
        Err(fault) => Ok(Said {
            verdict: Verdict::Inputs,
            text: recurrence_line(alloc, &recurrence_words(alloc, fault)?)?,
        }),
    }
}

// The trigger of a name in the file of a definition.
fn trigger_in<'a>(file: &'a Val, name: &str) -> Option<&'a Val>
    ensures { option_map (λ v. tree v.now) result ≡ trigger_in name.now (tree file.now) }
{
    let definition = match file.member("definition") {
        Some(inner) => inner,
        None => file,
    };
    definition.member("triggers")?.member(name)
}

fn triggered(alloc: Global, trigger: Option<&Val>, from: u64, count: u32) -> Result<Said, Stop>
    ensures said { IfOk result (λ said. triggered from count (option_map (λ v. tree v.now) trigger.entry)
        ≡ Says said.verdict said.text.items) }
    ensures stopped { IfErr result (λ stop. stop ≡ Stop.Memory) }
{
    match trigger {
        Some(trigger) => recurs(alloc, trigger, from, count),
        None => Ok(Said {
            verdict: Verdict::Inputs,
            text: recurrence_line(alloc, b"NoTrigger")?,
        }),
    }
}

/// Lists the next moments of the trigger of a name in the definition of a file.
pub fn fired<F: Files>(
    alloc: Global,
    files: &mut F,
    definition: &Text,
    name: &Text,
    from: u64,
    count: u32,
) -> Result<Said, Stop>
    ensures follows { Follows (F.held files.old) (fired definition.now name.now from count) (F.failed files.old)
        (F.failed files.new) result }
    ensures same { F.held files.new ≡ F.held files.old }
{
    let file = load(alloc, files, definition, DEFINITION_LIMIT)?;
    match value_form(alloc, file) {
        Err(fault) => say_fault(alloc, Verdict::Definition, b"definition ", fault),
        Ok(file) => triggered(alloc, trigger_in(&file, name.as_str()), from, count),
    }
}
