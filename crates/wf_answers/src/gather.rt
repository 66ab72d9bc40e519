//! Answers by what they are for.
ghost use Rattle.std.specs.Prelude.{◌≡◌, IfOk, map, option_map};
ghost use Rattle.wf_answers.specs.AnswerSeen.{answer_tree};
ghost use Rattle.wf_answers.specs.GatherSeen.{gather_tree};
ghost use Rattle.wf_answers.specs.Gathered.{gathered, lesser_twice, nothing_gathered, with_answer};
ghost use Rattle.wf_answers.specs.Members.{answer_of};
ghost use Rattle.wf_val.specs.Seen.{tree};

use crate::answer::{Answer, Answers};
use crate::members::as_answer;
use std::alloc::{AllocError, Global};
use std::cmp::Ordering;
use std::collections::BTreeSet;
use wf_val::Val;

/// The answers so far, one for an attempt, and of those for attempts that had one already one for the least.
#[derive(Drop)]
pub(crate) struct Gather {
    pub(crate) kept: BTreeSet<Answer>,
    pub(crate) twice: Option<Answer>,
}

/// The answers that values say. Any order of theirs takes about as long.
pub(crate) fn gathered(alloc: Global, values: &[Val]) -> Result<Gather, AllocError>
    ensures { IfOk result (λ g. gather_tree g ≡ gathered (map answer_of (map tree values.now))) }
{
    let mut gather = Gather::new(alloc);
    for value in values {
        gather = gather.with(as_answer(alloc, value)?)?;
    }
    Ok(gather)
}

impl Gather {
    fn new(alloc: Global) -> Gather
        ensures { gather_tree result ≡ nothing_gathered }
    {
        Gather {
            kept: BTreeSet::new(alloc),
            twice: None,
        }
    }

    // With one answer more.
    fn with(self, answer: Answer) -> Result<Gather, AllocError>
        ensures { IfOk result (λ g. gather_tree g ≡ with_answer (gather_tree self) (answer_tree answer)) }
    {
        let Gather { mut kept, twice } = self;
        if kept.contains(&answer) {
            Ok(Gather {
                kept,
                twice: Some(lesser_twice(twice, answer)),
            })
        } else {
            let _is_new = kept.insert(answer)?;
            Ok(Gather { kept, twice })
        }
    }
}

// The one of two answers that is for the lesser attempt, where there are two.
fn lesser_twice(twice: Option<Answer>, answer: Answer) -> Answer
    ensures { answer_tree result ≡ lesser_twice (option_map answer_tree twice) (answer_tree answer) }
{
    match twice {
        None => answer,
        Some(least) => match least.order(&answer.address, answer.attempt) {
            Ordering::Greater => answer,
            _ => least,
        },
    }
}

/// The answers of a set, for looking them up.
pub(crate) fn in_order(alloc: Global, kept: BTreeSet<Answer>) -> Result<Answers, AllocError>
    ensures { IfOk result (λ answers. answers ≡ kept.keys) }
{
    let mut answers = Answers::new(alloc);
    for answer in kept {
        answers.append(answer)?;
    }
    Ok(answers)
}
