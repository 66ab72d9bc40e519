// The calls on an object in memory, by number.
ghost use Rattle.std.specs.Prelude.{◌≡◌, ◌↔◌, OnOk, OnErr, IsTrue};
ghost use Rattle.wf_outside.specs.CallPlan.{IsDue, called, no_calls, planned};

use std::alloc::{AllocError, Global};
use std::marker::Model;

/// How many calls were made, and the numbers of those that are to fail.
#[derive(Drop)]
pub struct Calls {
    made: u64,
    to_fail: Vec<u64>,
}

impl Model for Calls {
    ghost use Rattle.wf_outside.specs.CallPlan.{CallPlan};

    ghost Value = { CallPlan };

    ghost view = { λ c. record { made = c.made; to_fail = c.to_fail.items } };
}

impl Calls {
    /// No calls, and none planned to fail.
    pub fn new(alloc: Global) -> Calls
        ensures { result ≡ no_calls }
    {
        Calls {
            made: 0,
            to_fail: Vec::new(alloc),
        }
    }

    /// Has the call of that number fail.
    pub fn fail_at(&mut self, call: u64) -> Result<(), AllocError>
        ensures ok { OnOk result (self.new ≡ planned self.old call) }
        ensures err { OnErr result (self.new ≡ self.old) }
    {
        self.to_fail.push(call)?;
        Ok(())
    }

    /// Counts one more call, and says whether it is to fail.
    pub fn begin(&mut self) -> bool
        ensures due { IsTrue result ↔ IsDue self.old }
        ensures counted { self.new ≡ called self.old }
    {
        self.made = self.made.saturating_add(1);
        self.to_fail.contains(&self.made)
    }
}
