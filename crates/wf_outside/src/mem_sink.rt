// A sink in memory.
ghost use Rattle.std.specs.Prelude.{◌≡◌, ◌↔◌, ◌<◌, ◌≤◌, [], Some, length, vec_capacity, vec_len, OnOk, OnErr, IfOk, IsErr};
ghost use Rattle.std.specs.Io.KnownBytes.{WriteAppends};
ghost use Rattle.wf_outside.specs.CallPlan.{called, no_calls, one_more, planned};
ghost use Rattle.wf_outside.specs.Outside.{HasCause};

use crate::calls::Calls;
use crate::faults::Failed;
use crate::traits::Sink;
use std::alloc::{AllocError, Global};

/// A sink that keeps what it takes, and tells it. It takes so many bytes a call and so many in all, and no more.
#[derive(Drop)]
pub struct MemSink {
    piece: u64,
    room: u64,
    taken: Vec<u8>,
    faults: u64,
    calls: Calls,
    ghost some: { 0 < piece },
    ghost within: { vec_len taken ≤ room },
    ghost reserved: { room ≤ vec_capacity taken },
}

impl MemSink {
    ghost use Rattle.wf_outside.specs.MemSink.{bytes_taken, most_at_once, puts, room_in_all, sink_faults};

    /// A sink that takes at most `piece` bytes a call and `room` bytes in all. The room is reserved here, so no put
    /// wants memory.
    pub fn new(alloc: Global, piece: u64, room: u64) -> Result<MemSink, AllocError>
        requires { 0 < piece }
        ensures taken { IfOk result (λ sink. bytes_taken sink ≡ []) }
        ensures piece { IfOk result (λ sink. most_at_once sink ≡ piece) }
        ensures room { IfOk result (λ sink. room_in_all sink ≡ room) }
        ensures faults { IfOk result (λ sink. sink_faults sink ≡ 0) }
        ensures calls { IfOk result (λ sink. puts sink ≡ no_calls) }
    {
        Ok(MemSink {
            piece,
            room,
            taken: Vec::with_capacity(alloc, room as usize)?,
            faults: 0,
            calls: Calls::new(alloc),
        })
    }

    /// Has the put of that number fail, counted from 1 over all puts to this object. A number that has passed, or 0,
    /// changes no put.
    pub fn fail_at(&mut self, call: u64) -> Result<(), AllocError>
        ensures ok { OnOk result (puts self.new ≡ planned (puts self.old) call) }
        ensures err { OnErr result (puts self.new ≡ puts self.old) }
        ensures taken { bytes_taken self.new ≡ bytes_taken self.old }
        ensures piece { most_at_once self.new ≡ most_at_once self.old }
        ensures room { room_in_all self.new ≡ room_in_all self.old }
        ensures faults { sink_faults self.new ≡ sink_faults self.old }
    {
        self.calls.fail_at(call)
    }

    /// The bytes taken.
    pub fn taken(&self) -> &[u8]
        ensures { result.now ≡ bytes_taken self.now }
    {
        &self.taken
    }

    /// How many puts failed. It stands still at the last value of a u64.
    pub fn faults(&self) -> u64
        ensures { result ≡ sink_faults self.now }
    {
        self.faults
    }
}

impl Sink for MemSink {
    ghost use Rattle.wf_outside.specs.MemSink.{NextFails, bytes_taken, fitting, most_at_once, puts, room_in_all, sink_faults};

    ghost taken = { λ s. Some (bytes_taken s) };

    ghost faults = { λ s. sink_faults s };

    fn put(&mut self, piece: &[u8]) -> Result<usize, Failed>
        requires { 0 < length piece.now }
        ensures count { IfOk result (λ n. (0 < n) × (n ≤ length piece.now)) }
        ensures bytes { WriteAppends (Some (bytes_taken self.old)) (Some (bytes_taken self.new)) result piece.now }
        ensures cause { HasCause (sink_faults self.old) (sink_faults self.new) result }

        // A put fails exactly where it is to fail or no room is left, and else takes all that fits.
        ensures fails { IsErr result ↔ NextFails self.old }
        ensures exact { IfOk result (λ n. n ≡ fitting self.old piece.now) }
        ensures fault { OnErr result (sink_faults self.new ≡ one_more (sink_faults self.old)) }
        ensures counted { puts self.new ≡ called (puts self.old) }
        ensures most { most_at_once self.new ≡ most_at_once self.old }
        ensures room { room_in_all self.new ≡ room_in_all self.old }
    {
        let due = self.calls.begin();
        let room = self.room - self.taken.len() as u64;
        if due || room == 0 {
            self.faults = self.faults.saturating_add(1);
            return Err(Failed);
        }
        let count = piece.len().min(self.piece.min(room) as usize);
        self.taken.extend_from_slice(&piece[..count]).unwrap();
        Ok(count)
    }
}
