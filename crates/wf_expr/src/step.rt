//! What reading the next character does: where the reader stands then.
ghost use Rattle.std.specs.Prelude.{◌≡◌, IfOk};
ghost use Rattle.wf_expr.specs.Machine.{step_at};
ghost use Rattle.wf_expr.specs.ModeSeen.{mode_seen, state_seen};
ghost use Rattle.wf_expr.specs.StackSeen.{stack_seen};

use crate::character::Character;
use crate::expression_step::{
    after_dot, after_function_name, after_minus, after_quote, after_soft, at_begin, in_args,
    in_function_name, in_member_name, in_number, in_quotes,
};
use crate::follow::after_base;
use crate::mode::Mode;
use crate::stack::Stack;
use crate::text_step::{after_at, after_sign, after_two, at_text_start, in_text};
use std::alloc::{AllocError, Global};

/// Where the reader stands after the character; `None` where no text that can be read goes on so.
pub(crate) fn next(
    alloc: Global,
    mode: Mode,
    stack: &mut Stack,
    next: Character,
) -> Result<Option<Mode>, AllocError>
    ensures { IfOk result (λ m. state_seen m stack.new ≡ step_at (mode_seen mode) (stack_seen stack.old) next.value next.kind next.at) }
{
    match mode {
        Mode::Start => at_text_start(alloc, stack, next),
        Mode::Sign { sign } => after_sign(alloc, sign, stack, next),
        Mode::Plain { front } => in_text(front, stack, next),
        Mode::OneAt { front, sign } => after_at(alloc, front, sign, stack, next),
        Mode::TwoAt {
            front,
            first,
            second,
        } => after_two(front, first, second, stack, next),
        Mode::First => at_begin(alloc, stack, next),
        Mode::Args { name } => in_args(alloc, name, stack, next),
        Mode::Minus => Ok(after_minus(stack, next)),
        Mode::Int { digits } => in_number(alloc, digits, stack, next),
        Mode::Quoted { text } => in_quotes(text, stack, next),
        Mode::Quote { text } => after_quote(alloc, text, stack, next),
        Mode::Name { name } => in_function_name(alloc, name, stack, next),
        Mode::Named { name } => after_function_name(alloc, name, stack, next),
        Mode::After { base } => after_base(alloc, base, stack, next),
        Mode::Soft { base } => after_soft(base, stack, next.kind),
        Mode::Dot { base, soft } => after_dot(alloc, base, soft, stack, next),
        Mode::Member { base, soft, name } => in_member_name(alloc, base, soft, name, stack, next),
    }
}
