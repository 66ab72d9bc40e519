// The top call.
ghost use Rattle.std.specs.Prelude.{◌≡◌, ◌⊎◌, ◌<◌, ◌≤◌, ℕ, List, [], ◌∷◌, length, true, Some, None, Contains, IfSome};
ghost use Rattle.std.specs.Io.KnownBytes.{Appends};
ghost use Rattle.wf_outside.specs.Outside.{IsCalm, Rose};
ghost use Rattle.wf_answers.specs.Inputs.{InputsTree};
ghost use Rattle.wf_def.specs.DefTree.{DefTree};
ghost use Rattle.wf_history.specs.History.{ListedTree};
ghost use Rattle.wf_record.specs.Record.{RecordTree};
ghost use Rattle.wf_recur.specs.Moments.{moments_due};
ghost use Rattle.wf_recur.specs.declared.recurrence.Recurrence.{Recurrence};
ghost use Rattle.wf_top.specs.Commands.{accepted_line, listing_text, plan_of};
ghost use Rattle.wf_top.specs.Conversed.{HoldsStarts, HoldsTalk, IsRefusedWhole, IsServed, IsTalkedWhole, NoneStarts, RefusesTalk, Talked};
ghost use Rattle.wf_top.specs.Drilled.{Drilled, IsToldDrill, PassesDrill, RefusedDrill, RefusedDrillCost, RefusedDrillInputs};
ghost use Rattle.wf_top.specs.Drilled.{RefusedDrillTrigger};
ghost use Rattle.wf_top.specs.Fires.{moments_text};
ghost use Rattle.wf_top.specs.Ran.{Checked, Fired, HoldsDefinition, HoldsHistory, IsToldWhole, IsWhole, Listed, PassesAll};
ghost use Rattle.wf_top.specs.Ran.{PassesFires, Ran, RefusedCost, RefusedDefinition, RefusedHistory, RefusedInputs, RefusedName};
ghost use Rattle.wf_top.specs.Ran.{RefusedRecurrence, RefusedSchedule, RefusedTrigger};
ghost use Rattle.wf_top.specs.Resubmitted.{IsToldAgain, PassesAgain, RefusedAnswers, RefusedLog, RefusedNames, RefusedNewCost, RefusedRun};
ghost use Rattle.wf_top.specs.Resubmitted.{RefusedTimes, Resubmitted};
ghost use Rattle.wf_top.specs.Served.{FailedAt, IsSaid, Say, cannot_read};
ghost use Rattle.wf_top.specs.Session.{many_runs, no_run};
ghost use Rattle.wf_top.specs.Words.{asked_of, command_of, is_traced, makes_runs, resubmits};
ghost use Rattle.wf_trigger.specs.Starts.{StartTree};

use crate::obey::obey;
use crate::words::Command;
use std::alloc::Global;
use wf_outside::{Files, Sink, Source};
use wf_stands::Converses;
use wf_told::Engine;
use wf_val::Text;

/// Does what the words after the program's name ask for, and answers the status that the program ends with.
pub fn serve_words<F: Files, I: Source, O: Sink, E: Engine, T: Converses>(
    alloc: Global,
    words: &[Text],
    files: &mut F,
    engine: &E,
    talker: &T,
    input: &mut I,
    out: &mut O,
) -> u8
    ensures status { result ≤ 9 }

    // Where the files tell and no count rose, a status that the words say is answered, and all of its text written; or memory ran out. Of
    // files that hold what a talk begins with `complete_session` says it.
    ensures said { IfSome (F.held files.old) (λ bytes_of. (HoldsTalk bytes_of words.now → ⊥) →
        F.failed files.new ≡ F.failed files.old → IsCalm (O.faults out.old) (O.faults out.new) →
        IsSaid (Say bytes_of words.now) (O.taken out.old) (O.taken out.new) result) }

    // In any case the words come to one outcome, and its status is answered and its text written, or with 4 a prefix of the text, and the
    // source is as it was; or they are `session`, and the talk is held of the one run that starts.
    ensures outcome { IsServed (F.held files.old) words.now (F.failed files.old) (F.failed files.new) (I.faults input.old)
        (I.faults input.new) (I.left input.old) (I.left input.new) (O.taken out.old) (O.taken out.new) result }

    // At `check DEF` 0 comes where a definition was read that is accepted, and the sink took exactly the line with the number of its
    // actions.
    ensures checked { command_of words.now ≡ Some Command.Check → result ≡ 0
        → Checked (F.held files.old) words.now (O.taken out.old) (O.taken out.new) }

    // At `run DEF INPUTS [SCHEDULE]` and `trace DEF INPUTS SCHEDULE` 0 comes where a definition, inputs and a schedule were read, and the
    // sink took exactly a text that is told of the runs that they start, at `trace` with their events. A schedule that isn't named is the
    // empty one.
    ensures ran { (command : Command) → makes_runs command ≡ true → command_of words.now ≡ Some command → result ≡ 0
        → Ran (F.held files.old) words.now command (O.taken out.old) (O.taken out.new) }

    // At `resubmit DEF HISTORY RUN ACTION INPUTS [SCHEDULE]` and `resubmit-set DEF HISTORY RUN INPUTS SCHEDULE ACTION...` 0 comes where a
    // definition, the only record of the run, inputs and a schedule were read, and the sink took exactly a text that is told of the
    // resubmission of that record from the actions that the words name.
    ensures resubmitted { (command : Command) → resubmits command ≡ true → command_of words.now ≡ Some command → result ≡ 0
        → Resubmitted (F.held files.old) words.now command (O.taken out.old) (O.taken out.new) }

    // At `fires DEF TRIGGER FROM N` 0 comes where a definition was read that has the trigger, whose recurrence was read, and the sink took
    // exactly its next moments.
    ensures fired { (from count : ℕ) → command_of words.now ≡ Some (Command.Fires from count) → result ≡ 0
        → Fired (F.held files.old) words.now from count (O.taken out.old) (O.taken out.new) }

    // At `drill N` 0 comes where the definition and the inputs of the drill of this size were read, and the sink took exactly the line that
    // tells how its run goes under each of its three schedules.
    ensures drilled { (n : ℕ) → command_of words.now ≡ Some (Command.Drill n) → result ≡ 0
        → Drilled words.now n (O.taken out.old) (O.taken out.new) }

    // At `session DEF INPUTS` 0 comes where a definition and inputs were read by which no run starts, and the sink took exactly the line
    // that says so; or the talk was held of the one run that starts, and it came to its end.
    ensures conversed { command_of words.now ≡ Some Command.Session → result ≡ 0
        → NoneStarts (F.held files.old) words.now (O.taken out.old) (O.taken out.new)
        ⊎ Talked (F.held files.old) words.now (I.left input.old) (I.left input.new) (O.taken out.old) (O.taken out.new) result }

    // Where all tests of a command pass and no count rose, that comes and nothing else, but for want of memory.
    ensures complete_check { IfSome (F.held files.old) (λ bytes_of. (definition : DefTree) →
        HoldsDefinition bytes_of words.now Command.Check definition →
        F.failed files.new ≡ F.failed files.old → IsCalm (O.faults out.old) (O.faults out.new) →
        IsWhole (O.taken out.old) (O.taken out.new) (accepted_line definition) result) }
    ensures complete { IfSome (F.held files.old) (λ bytes_of. (command : Command) (d : DefTree) (inputs : InputsTree) →
        (schedule : List ℕ) → PassesAll bytes_of words.now command d inputs schedule →
        F.failed files.new ≡ F.failed files.old → IsCalm (O.faults out.old) (O.faults out.new) →
        IsToldWhole (is_traced command) d inputs schedule (O.taken out.old) (O.taken out.new) result) }

    ensures complete_again { IfSome (F.held files.old) (λ bytes_of. (command : Command) (d : DefTree) (log : RecordTree) →
        (inputs : InputsTree) (schedule : List ℕ) → PassesAgain bytes_of words.now command d log inputs schedule →
        F.failed files.new ≡ F.failed files.old → IsCalm (O.faults out.old) (O.faults out.new) →
        IsToldAgain d log (asked_of command words.now).names inputs schedule (O.taken out.old) (O.taken out.new) result) }

    // At `list HISTORY` 0 comes where a history was read, and the sink took exactly a line for each of its records, in their order; and
    // where all its tests pass, that comes and nothing else, but for want of memory.
    ensures listed { command_of words.now ≡ Some Command.List → result ≡ 0
        → Listed (F.held files.old) words.now (O.taken out.old) (O.taken out.new) }
    ensures complete_list { IfSome (F.held files.old) (λ bytes_of. (listing : List ListedTree) →
        HoldsHistory bytes_of words.now listing →
        F.failed files.new ≡ F.failed files.old → IsCalm (O.faults out.old) (O.faults out.new) →
        IsWhole (O.taken out.old) (O.taken out.new) (listing_text listing) result) }

    // And so at `fires`.
    ensures complete_fires { IfSome (F.held files.old) (λ bytes_of. (from n : ℕ) → (r : Recurrence) →
        PassesFires bytes_of words.now from n r →
        F.failed files.new ≡ F.failed files.old → IsCalm (O.faults out.old) (O.faults out.new) →
        IsWhole (O.taken out.old) (O.taken out.new) (moments_text (moments_due r from n)) result) }

    // And so at `drill`, which reads no file.
    ensures complete_drill { IfSome (F.held files.old) (λ bytes_of. (n : ℕ) → (d : DefTree) → (inputs : InputsTree) →
        PassesDrill words.now n d inputs →
        F.failed files.new ≡ F.failed files.old → IsCalm (O.faults out.old) (O.faults out.new) →
        IsToldDrill n d inputs (O.taken out.old) (O.taken out.new) result) }

    // And so at `session`: where one run starts and no file failed, its talk is held from its first byte to its last, or memory ran out
    // before it, and the source is as it was. Where none starts, or several, that is said.
    ensures complete_session { IfSome (F.held files.old) (λ bytes_of. (d : DefTree) → (inputs : InputsTree) → (start : StartTree) →
        HoldsStarts bytes_of words.now d inputs (start ∷ []) → F.failed files.new ≡ F.failed files.old →
        IsTalkedWhole d start inputs (I.left input.old) (I.left input.new) (O.taken out.old) (O.taken out.new) result) }
    ensures opened_nothing { IfSome (F.held files.old) (λ bytes_of. (d : DefTree) → (inputs : InputsTree) →
        HoldsStarts bytes_of words.now d inputs [] →
        F.failed files.new ≡ F.failed files.old → IsCalm (O.faults out.old) (O.faults out.new) →
        IsWhole (O.taken out.old) (O.taken out.new) no_run result) }
    ensures many { IfSome (F.held files.old) (λ bytes_of. (d : DefTree) → (inputs : InputsTree) → (starts : List StartTree) →
        HoldsStarts bytes_of words.now d inputs starts → 2 ≤ length starts →
        F.failed files.new ≡ F.failed files.old → IsCalm (O.faults out.old) (O.faults out.new) →
        IsRefusedWhole (O.taken out.old) (O.taken out.new) (many_runs (length starts)) result) }

    // 1 comes where the first file gave no accepted definition; and at `drill`, if the definition of its size weren't accepted. Of no size
    // it is known that one of the ends of `drill` on 1, 6 and 8 comes.
    ensures refused_definition { result ≡ 1 → RefusedDefinition (F.held files.old) words.now (O.taken out.old) (O.taken out.new)
        ⊎ RefusedDrill words.now (O.taken out.old) (O.taken out.new) }

    // 6 comes where it gave one, and the second gave no inputs; or gave inputs, and the third no schedule; or gave inputs by which the
    // trigger starts no run for its fault, and there was no third or it gave a schedule. At `fires` it comes where the definition lacks
    // the trigger, or the trigger has no recurrence whose moments can be told. At the commands that resubmit it comes where HISTORY gave a
    // history, and INPUTS no inputs, or SCHEDULE no schedule. At `session` it comes where INPUTS gave no inputs, or inputs by which the
    // trigger starts no run for its fault or several start; or where the talk went on too long.
    ensures refused_inputs { result ≡ 6 → RefusedInputs (F.held files.old) words.now (O.taken out.old) (O.taken out.new)
        ⊎ RefusedSchedule (F.held files.old) words.now (O.taken out.old) (O.taken out.new)
        ⊎ RefusedTrigger (F.held files.old) words.now (O.taken out.old) (O.taken out.new)
        ⊎ RefusedName (F.held files.old) words.now (O.taken out.old) (O.taken out.new)
        ⊎ RefusedRecurrence (F.held files.old) words.now (O.taken out.old) (O.taken out.new)
        ⊎ RefusedAnswers (F.held files.old) words.now (O.taken out.old) (O.taken out.new)
        ⊎ RefusedTimes (F.held files.old) words.now (O.taken out.old) (O.taken out.new)
        ⊎ RefusedDrillInputs words.now (O.taken out.old) (O.taken out.new)
        ⊎ RefusedDrillTrigger words.now (O.taken out.old) (O.taken out.new)
        ⊎ RefusesTalk (F.held files.old) words.now (O.taken out.old) (O.taken out.new)
        ⊎ Talked (F.held files.old) words.now (I.left input.old) (I.left input.new) (O.taken out.old) (O.taken out.new) result }

    // 7 comes at `list`, where the file gave no history. At the commands that resubmit it comes where HISTORY gave no history; or where all
    // files gave what they should, and the history has no record of the run, or more than one, or has one that can't be resubmitted from
    // the actions that the words name.
    ensures refused_history { result ≡ 7 → RefusedHistory (F.held files.old) words.now (O.taken out.old) (O.taken out.new)
        ⊎ RefusedLog (F.held files.old) words.now (O.taken out.old) (O.taken out.new)
        ⊎ RefusedRun (F.held files.old) words.now (O.taken out.old) (O.taken out.new)
        ⊎ RefusedNames (F.held files.old) words.now (O.taken out.old) (O.taken out.new) }

    // 8 comes where the runs cost too much, or the new record would, or the run that is talked of.
    ensures too_large { result ≡ 8 → RefusedCost (F.held files.old) words.now (O.taken out.old) (O.taken out.new)
        ⊎ RefusedNewCost (F.held files.old) words.now (O.taken out.old) (O.taken out.new)
        ⊎ RefusedDrillCost words.now (O.taken out.old) (O.taken out.new)
        ⊎ Talked (F.held files.old) words.now (I.left input.old) (I.left input.new) (O.taken out.old) (O.taken out.new) result }

    // 9 comes at `session` alone, where the input ended and answers are wanted.
    ensures open { result ≡ 9 → Talked (F.held files.old) words.now (I.left input.old) (I.left input.new) (O.taken out.old)
        (O.taken out.new) result }

    // 2 comes where the words are no command, and always there, 4 apart.
    ensures two { result ≡ 2 → command_of words.now ≡ None }
    ensures misused { command_of words.now ≡ None → (result ≡ 2) ⊎ (result ≡ 4) }

    // 3 comes where the read of a name failed whose turn had come, or in a talk where the source failed, and always there, 4 and 5 apart.
    ensures three { result ≡ 3 → ((name : List ℕ)
        × FailedAt (F.held files.old) (plan_of words.now) (F.failed files.old) (F.failed files.new) name
        × Appends (O.taken out.old) (O.taken out.new) (cannot_read name))
        ⊎ (Rose (I.faults input.old) (I.faults input.new)
        × Talked (F.held files.old) words.now (I.left input.old) (I.left input.new) (O.taken out.old) (O.taken out.new) result) }
    ensures unread { (F.failed files.new ≡ F.failed files.old) ⊎ ((name : List ℕ)
        × FailedAt (F.held files.old) (plan_of words.now) (F.failed files.old) (F.failed files.new) name
        × ((result ≡ 3) ⊎ (result ≡ 4) ⊎ (result ≡ 5))) }

    // The name is one of the words.
    ensures word { (name : List ℕ)
        → FailedAt (F.held files.old) (plan_of words.now) (F.failed files.old) (F.failed files.new) name
        → Contains words.now name }

    // 4 comes where the sink's count rose, and always there.
    ensures four { result ≡ 4 → Rose (O.faults out.old) (O.faults out.new) }
    ensures unwritten { O.faults out.old < O.faults out.new → result ≡ 4 }

    // What the files hold stays as it was, and so does the source, but for a talk.
    ensures files_held { F.held files.new ≡ F.held files.old }
    ensures source_faults { (I.faults input.new ≡ I.faults input.old)
        ⊎ Talked (F.held files.old) words.now (I.left input.old) (I.left input.new) (O.taken out.old) (O.taken out.new) result }
    ensures source_left { (I.left input.new ≡ I.left input.old)
        ⊎ Talked (F.held files.old) words.now (I.left input.old) (I.left input.new) (O.taken out.old) (O.taken out.new) result }
    ensures source_failed { I.faults input.old < I.faults input.new → (result ≡ 3) ⊎ (result ≡ 4) ⊎ (result ≡ 5) }
{
    wf_told::one_reason_against_a_resubmission();
    obey(alloc, words, files, engine, talker, input, out)
}
