//! A run that has ended.
ghost use Rattle.std.specs.Prelude.{◌≡◌};
ghost use Rattle.wf_record.specs.Cost.{cost as record_cost};
ghost use Rattle.wf_record.specs.Seen.{record_tree};

use wf_record::Record;

/// A run that has ended: its record and what that costs, how many events it had, how many leaves were running at a time at most, and the
/// lines of its events where they were asked for.
pub struct Ended {
    pub finished: Record,
    pub cost: u64,
    pub steps: u64,
    pub peak: u64,
    pub trace: Vec<u8>,
    ghost counted: { cost ≡ record_cost (record_tree finished) },
}

// By hand, so that to let a run go is one call for a check above.
impl Drop for Ended {
    fn drop(self) {
        let Ended {
            finished: _,
            cost: _,
            steps: _,
            peak: _,
            trace: _,
        } = self;
    }
}
