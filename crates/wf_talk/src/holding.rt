//! The talk, byte after byte.
ghost use Rattle.std.specs.Prelude.{◌≡◌, ◌≢◌, ◌⊎◌, ◌<◌, ◌≤◌, ◌+◌, ◌^◌, [], IfOk, IfSome, List, ℕ, Option, OnErr, None, Some};
ghost use Rattle.std.specs.Io.KnownBytes.{Appends, Keeps};
ghost use Rattle.wf_answers.specs.Inputs.{InputsTree};
ghost use Rattle.wf_outside.specs.Outside.{HasCause, Rose};
ghost use Rattle.wf_talk.specs.Byte.{EndsLine, Gives, HearsByte, Listens, SinkDid, SourceDid, StopsAtByte, StopsAtEnd};
ghost use Rattle.wf_talk.specs.Byte.{StopsAtLine, StopsSo, TakesByte};
ghost use Rattle.wf_talk.specs.Seen.{hearing, status_of};
ghost use Rattle.wf_talk.specs.Talks.{Talks};
ghost use Rattle.wf_talk.specs.Written.{Writes};

use crate::put::{close, put_all};
use crate::said::{Last, Said};
use crate::stand::Stand;
use crate::talk::Talk;
use std::alloc::Global;
use wf_outside::{Failed, Sink, Source};

const CANNOT_READ_INPUT: &[u8] = b"cannot read input\n";

const OUT_OF_MEMORY: &[u8] = b"out of memory\n";

// The next byte, asked for alone. None: the input has ended.
fn next_byte<I: Source>(input: &mut I) -> Result<Option<u8>, Failed>
    ensures gives { IfOk result (λ byte. Gives (I.left input.old) (I.left input.new) byte) }
    ensures err { OnErr result (Keeps (I.left input.old) (I.left input.new)) }
    ensures cause { HasCause (I.faults input.old) (I.faults input.new) result }
{
    let mut byte = [0u8; 1];
    let count = input.next(&mut byte)?;
    if count == 0 {
        Ok(None)
    } else {
        Ok(Some(byte[0]))
    }
}

// Writes what is said. None: the talk goes on.
fn say<O: Sink>(out: &mut O, said: &Said) -> Option<u8>
    ensures goes { result ≡ None → (said.now.over ≡ None) × Appends (O.taken out.old) (O.taken out.new) said.now.text.items }
    ensures stops { IfSome result (λ status. Writes (O.taken out.old) (O.taken out.new) (status_of said.now.over) said.now.text.items
        status) }
    ensures sink { SinkDid (O.faults out.old) (O.faults out.new) result }
    ensures read { IfSome result (λ status. status ≢ 3) }
{
    match said.over {
        Some(end) => Some(close(out, end.number(), &said.text)),
        None => match put_all(out, &said.text) {
            Ok(()) => None,
            Err(Failed) => Some(4),
        },
    }
}

// Says what a line comes to that its line feed has ended.
fn end_line<S: Stand, O: Sink>(
    alloc: Global,
    talk: &mut Talk<S>,
    line: &[u8],
    out: &mut O,
) -> Option<u8>
    requires { talk.old.number < 2 ^ 32 }
    ensures same { result ≡ None → S.origin talk.new.stand ≡ S.origin talk.old.stand }
    ensures counted { result ≡ None → talk.new.number ≡ talk.old.number + 1 }
    ensures goes { result ≡ None → EndsLine (S.stands (S.origin talk.old.stand)) (hearing S.inputs S.wanted talk.old) line.now
        (O.taken out.old) (O.taken out.new) (hearing S.inputs S.wanted talk.new) }
    ensures stops { IfSome result (λ status. StopsAtLine (S.stands (S.origin talk.old.stand)) (hearing S.inputs S.wanted talk.old) line.now
        (O.taken out.old) (O.taken out.new) status) }
    ensures sink { SinkDid (O.faults out.old) (O.faults out.new) result }
    ensures read { IfSome result (λ status. status ≢ 3) }
{
    match talk.hear(alloc, line) {
        Ok(said) => say(out, &said),
        Err(_) => Some(close(out, 5, OUT_OF_MEMORY)),
    }
}

// Says what is left to say as the input ends behind these bytes of a line.
fn end_input<S: Stand, O: Sink>(alloc: Global, talk: &mut Talk<S>, rest: &[u8], out: &mut O) -> u8
    requires { talk.old.number < 2 ^ 32 }
    ensures stops { StopsAtEnd (S.stands (S.origin talk.old.stand)) (hearing S.inputs S.wanted talk.old) rest.now
        (O.taken out.old) (O.taken out.new) result }
    ensures only { result ≡ 4 → Rose (O.faults out.old) (O.faults out.new) }
    ensures always { O.faults out.old < O.faults out.new → result ≡ 4 }
    ensures read { result ≢ 3 }
{
    match talk.finish(alloc, rest) {
        Ok(Last { end, text }) => close(out, end.number(), &text),
        Err(_) => close(out, 5, OUT_OF_MEMORY),
    }
}

// Says what a byte comes to: it ends a line, or belongs to one. None: the talk goes on.
fn hear_byte<S: Stand, O: Sink>(
    alloc: Global,
    talk: &mut Talk<S>,
    rest: &mut Vec<u8>,
    byte: u8,
    out: &mut O,
) -> Option<u8>
    requires { talk.old.number < 2 ^ 32 }
    ensures same { result ≡ None → S.origin talk.new.stand ≡ S.origin talk.old.stand }
    ensures counted { result ≡ None → talk.new.number ≤ talk.old.number + 1 }
    ensures goes { result ≡ None → HearsByte (S.stands (S.origin talk.old.stand)) (hearing S.inputs S.wanted talk.old) rest.old.items byte
        (O.taken out.old) (O.taken out.new) (hearing S.inputs S.wanted talk.new) rest.new.items }
    ensures stops { IfSome result (λ status. StopsAtByte (S.stands (S.origin talk.old.stand)) (hearing S.inputs S.wanted talk.old)
        rest.old.items byte (O.taken out.old) (O.taken out.new) status) }
    ensures sink { SinkDid (O.faults out.old) (O.faults out.new) result }
    ensures read { IfSome result (λ status. status ≢ 3) }
{
    if byte == 10 {
        let stopped = end_line(alloc, talk, rest, out);
        rest.clear();
        stopped
    } else {
        match rest.push(byte) {
            Ok(()) => None,
            Err(_) => Some(close(out, 5, OUT_OF_MEMORY)),
        }
    }
}

// Takes one byte more, and says what it comes to. None: the talk goes on.
fn take_byte<S: Stand, I: Source, O: Sink>(
    alloc: Global,
    talk: &mut Talk<S>,
    rest: &mut Vec<u8>,
    input: &mut I,
    out: &mut O,
) -> Option<u8>
    requires { talk.old.number < 2 ^ 32 }
    ensures same { result ≡ None → S.origin talk.new.stand ≡ S.origin talk.old.stand }
    ensures counted { result ≡ None → talk.new.number ≤ talk.old.number + 1 }
    ensures goes { result ≡ None → TakesByte (S.stands (S.origin talk.old.stand)) (hearing S.inputs S.wanted talk.old) rest.old.items
        (I.left input.old) (I.left input.new) (O.taken out.old) (O.taken out.new) (hearing S.inputs S.wanted talk.new) rest.new.items }
    ensures stops { IfSome result (λ status. StopsSo (S.stands (S.origin talk.old.stand)) (hearing S.inputs S.wanted talk.old)
        rest.old.items (I.left input.old) (I.left input.new) (O.taken out.old) (O.taken out.new) status) }
    ensures sink { SinkDid (O.faults out.old) (O.faults out.new) result }
    ensures source { SourceDid (I.faults input.old) (I.faults input.new) result }
{
    match next_byte(input) {
        Ok(Some(byte)) => hear_byte(alloc, talk, rest, byte, out),
        Ok(None) => Some(end_input(alloc, talk, rest, out)),
        Err(Failed) => Some(close(out, 3, CANNOT_READ_INPUT)),
    }
}

// Takes bytes until the talk ends.
fn listen<S: Stand, I: Source, O: Sink>(
    alloc: Global,
    talk: &mut Talk<S>,
    input: &mut I,
    out: &mut O,
) -> u8
    requires { talk.old.number ≡ 0 }
    ensures talks { (inputs : InputsTree) → (left taken : Option (List ℕ)) → Listens (S.stands (S.origin talk.old.stand)) inputs
        left (I.left input.old) taken (O.taken out.old) (hearing S.inputs S.wanted talk.old) [] 0
        → Talks (S.stands (S.origin talk.old.stand)) inputs left (I.left input.new) taken (O.taken out.new) result }
    ensures only { result ≡ 4 → Rose (O.faults out.old) (O.faults out.new) }
    ensures always { O.faults out.old < O.faults out.new → result ≡ 4 }
    ensures three { result ≡ 3 → Rose (I.faults input.old) (I.faults input.new) }
    ensures source { I.faults input.old < I.faults input.new → (result ≡ 3) ⊎ (result ≡ 4) }
{
    let mut rest = Vec::new(alloc);
    for taken in 0..67108864u64 {
        let _ = taken;
        if let Some(status) = take_byte(alloc, talk, &mut rest, input, out) {
            return status;
        }
    }
    close(out, 6, b"session too long\n")
}

/// Holds the talk of a run: reads answers as lines, one byte a call, until no answer is wanted, the run costs too much, the input ends or
/// is too long, or memory, the source or the sink fails. All that is said of a line is written before the next byte is asked for.
pub fn hold<S: Stand + Drop, I: Source, O: Sink>(
    alloc: Global,
    stand: S,
    input: &mut I,
    out: &mut O,
) -> u8
    ensures talks { Talks (S.stands (S.origin stand)) (S.inputs stand) (I.left input.old) (I.left input.new) (O.taken out.old)
        (O.taken out.new) result }

    // 4 comes where the sink's count rose, and always there.
    ensures only { result ≡ 4 → Rose (O.faults out.old) (O.faults out.new) }
    ensures always { O.faults out.old < O.faults out.new → result ≡ 4 }

    // 3 comes where the source's count rose, and there nothing else but for want of memory or a sink that fails too.
    ensures three { result ≡ 3 → Rose (I.faults input.old) (I.faults input.new) }
    ensures source { I.faults input.old < I.faults input.new → (result ≡ 3) ⊎ (result ≡ 4) ⊎ (result ≡ 5) }
{
    let mut talk = Talk {
        stand,
        number: 0,
        refused: 0,
    };
    match talk.open(alloc) {
        Ok(said) => match say(out, &said) {
            Some(status) => status,
            None => listen(alloc, &mut talk, input, out),
        },
        Err(_) => close(out, 5, OUT_OF_MEMORY),
    }
}
