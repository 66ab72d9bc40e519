//! What the test of an Until gives.
ghost use Rattle.std.specs.Prelude.{◌≡◌, IfOk};
ghost use Rattle.wf_template.specs.CondSeen.{cond_tree};
ghost use Rattle.wf_opening.specs.DecisionSeen.{verdict_tree};
ghost use Rattle.wf_opening.specs.Verdicts.{ends, tested_from};

use std::alloc::{AllocError, Global};
use wf_eval::{Look, eval_cond};
use wf_template::Cond;
use wf_val::EvalFault;

/// Whether the expression of an Until holds after an iteration, or why it has no Boolean value.
#[derive(Drop)]
pub enum Verdict {
    Met(bool),
    Astray(EvalFault),
}

/// What the test of an Until gives, by its expression.
pub fn test<L: Look>(alloc: Global, condition: &Cond, look: &mut L) -> Result<Verdict, AllocError>
    ensures verdict { IfOk result (λ v. verdict_tree v ≡ tested_from (L.told look.old) (cond_tree condition.now) (L.drawn look.old)) }
    ensures same { L.told look.new ≡ L.told look.old }
    ensures held { L.held look.new ≡ L.held look.old }
{
    match eval_cond(alloc, condition, look) {
        Ok(holds) => Ok(Verdict::Met(holds)),
        Err(EvalFault::Memory) => Err(AllocError),
        Err(fault) => Ok(Verdict::Astray(fault)),
    }
}

/// Whether a test ends the loop: it does where the expression holds, and where it has no Boolean value.
pub fn ends(verdict: &Verdict) -> bool
    ensures { result ≡ ends (verdict_tree verdict.now) }
{
    match verdict {
        Verdict::Met(holds) => *holds,
        Verdict::Astray(_) => true,
    }
}
