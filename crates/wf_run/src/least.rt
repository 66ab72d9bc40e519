//! What runs cost at least, whatever their actions come to.
ghost use Rattle.std.specs.Prelude.{◌≡◌, ◌≤◌, ◌*◌, nat_lt};
ghost use Rattle.wf_environment.specs.Environment.{Environment};
ghost use Rattle.wf_least.specs.Least.{least_cost};
ghost use Rattle.wf_record.specs.Cost.{cost};
ghost use Rattle.wf_runnable.specs.Record.{meaning};
ghost use Rattle.wf_runnable.specs.Runnable.{definition};

use wf_runnable::Checked;

/// The greatest cost of all runs of one command together, in pieces of 64.
const PIECES: u64 = 1_048_576;

/// Whether so many runs of the definition cost too much together, whatever their actions come to. It makes none of them.
pub fn cost_too_much(checked: &Checked, count: u64) -> bool
    ensures exact { result ≡ nat_lt 67108864 (least_cost (definition checked.now) * count) }
    ensures each { (e : Environment) → least_cost (definition checked.now) ≤ cost (meaning (definition checked.now) e) }
{
    checked.def.always_read();
    checked.always_checked();
    wf_least::a_run_costs_at_least_so_much();
    let pieces = 1 + checked.def.top.actions.len();
    pieces.saturating_mul(count) > PIECES
}
