// A source in memory.
ghost use Rattle.std.specs.Prelude.{◌≡◌, ◌↔◌, ◌<◌, ◌≤◌, Some, length, take, drop, min, vec_len, OnOk, OnErr, IfOk, IsErr};
ghost use Rattle.std.specs.Io.{ReadsAtMost};
ghost use Rattle.std.specs.Io.KnownBytes.{ReadConsumes};
ghost use Rattle.wf_outside.specs.CallPlan.{IsDue, called, no_calls, one_more, planned};
ghost use Rattle.wf_outside.specs.Outside.{HasCause};

use crate::calls::Calls;
use crate::faults::Failed;
use crate::traits::Source;
use std::alloc::{AllocError, Global};

/// A source of bytes that are there from the start, which tells what it has left.
#[derive(Drop)]
pub struct MemSource {
    bytes: Vec<u8>,
    place: usize,
    faults: u64,
    calls: Calls,
    ghost in_range: { place ≤ vec_len bytes },
}

impl MemSource {
    ghost use Rattle.wf_outside.specs.MemSource.{bytes_left, nexts, source_faults};

    /// A source of a copy of these bytes.
    pub fn new(alloc: Global, bytes: &[u8]) -> Result<MemSource, AllocError>
        ensures left { IfOk result (λ source. bytes_left source ≡ bytes.now) }
        ensures faults { IfOk result (λ source. source_faults source ≡ 0) }
        ensures calls { IfOk result (λ source. nexts source ≡ no_calls) }
    {
        Ok(MemSource {
            bytes: bytes.to_vec(alloc)?,
            place: 0,
            faults: 0,
            calls: Calls::new(alloc),
        })
    }

    /// Has the call of `next` of that number fail, counted from 1 over all calls on this object. A number that has
    /// passed, or 0, changes no call.
    pub fn fail_at(&mut self, call: u64) -> Result<(), AllocError>
        ensures ok { OnOk result (nexts self.new ≡ planned (nexts self.old) call) }
        ensures err { OnErr result (nexts self.new ≡ nexts self.old) }
        ensures left { bytes_left self.new ≡ bytes_left self.old }
        ensures faults { source_faults self.new ≡ source_faults self.old }
    {
        self.calls.fail_at(call)
    }

    /// The bytes not yet given.
    pub fn left(&self) -> &[u8]
        ensures { result.now ≡ bytes_left self.now }
    {
        &self.bytes[self.place..]
    }

    /// How many calls failed. It stands still at the last value of a u64.
    pub fn faults(&self) -> u64
        ensures { result ≡ source_faults self.now }
    {
        self.faults
    }
}

// Fills a front with what fits.
fn fill(into: &mut [u8], rest: &[u8]) -> usize
    ensures count { result ≡ min (length into.old) (length rest.now) }
    ensures front { take result into.new ≡ take result rest.now }
    ensures back { drop result into.new ≡ drop result into.old }
{
    let count = into.len().min(rest.len());
    into[..count].copy_from_slice(&rest[..count]);
    count
}

impl Source for MemSource {
    ghost use Rattle.wf_outside.specs.MemSource.{bytes_left, nexts, source_faults};

    ghost left = { λ s. Some (bytes_left s) };

    ghost faults = { λ s. source_faults s };

    #[tactic(auto, using(crate::proofs::Given::given_front, crate::proofs::Given::given_nothing))]
    fn next(&mut self, into: &mut [u8]) -> Result<usize, Failed>
        requires { 0 < length into.old }
        ensures count { ReadsAtMost result into.new }
        ensures bytes { ReadConsumes (Some (bytes_left self.old)) (Some (bytes_left self.new)) result into.new }
        ensures cause { HasCause (source_faults self.old) (source_faults self.new) result }

        // A call fails exactly where it is to fail, and else gives all that fits.
        ensures fails { IsErr result ↔ IsDue (nexts self.old) }
        ensures exact { IfOk result (λ n. n ≡ min (length into.old) (length (bytes_left self.old))) }
        ensures back { IfOk result (λ n. drop n into.new ≡ drop n into.old) }
        ensures err { OnErr result (into.new ≡ into.old) }
        ensures fault { OnErr result (source_faults self.new ≡ one_more (source_faults self.old)) }
        ensures counted { nexts self.new ≡ called (nexts self.old) }
    {
        if self.calls.begin() {
            self.faults = self.faults.saturating_add(1);
            return Err(Failed);
        }
        let count = fill(into, self.left());
        self.place += count;
        Ok(count)
    }
}
