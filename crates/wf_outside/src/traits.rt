// The three ways to the outside.
ghost use Rattle.std.specs.Prelude.{◌≡◌, ◌<◌, ◌≤◌, List, ℕ, Option, length, IfOk};
ghost use Rattle.std.specs.Io.{ReadsAtMost};
ghost use Rattle.std.specs.Io.KnownBytes.{ReadConsumes, WriteAppends};
ghost use Rattle.wf_outside.specs.Outside.{HasCause, Held, Tells, failed_after};

use crate::faults::{Failed, FileFault};
use wf_val::Text;

/// Files by name.
pub trait Files {
    /// The bytes of each name that there is, where the object tells.
    ghost held: { Self → Held };

    /// The names whose reads failed, in the order of the reads. The count of faults is its length.
    ghost failed: { Self → List (List ℕ) };

    /// All bytes of a file that has at most `limit` of them. `Failed` comes exactly where this call put the name at
    /// the end of the list of failed names; an absent file is such a fault.
    fn read(&mut self, name: &Text, limit: u64) -> Result<Vec<u8>, FileFault>
        ensures content { Tells (held self.old) name.now limit result }
        ensures within { IfOk result (λ bytes. length bytes.items ≤ limit) }
        ensures names { failed self.new ≡ failed_after (failed self.old) name.now result }
        ensures same { held self.new ≡ held self.old };
}

/// Bytes that come in.
pub trait Source {
    /// The bytes that are left, where the object tells.
    ghost left: { Self → Option (List ℕ) };

    /// How many calls failed. It stands still at the last value of a u64.
    ghost faults: { Self → ℕ };

    /// Fills a front of `into` with the next bytes, and answers how many. 0 is the end of the input, and no fault.
    /// A call that fails gives no byte.
    fn next(&mut self, into: &mut [u8]) -> Result<usize, Failed>
        requires { 0 < length into.old }
        ensures count { ReadsAtMost result into.new }
        ensures bytes { ReadConsumes (left self.old) (left self.new) result into.new }
        ensures cause { HasCause (faults self.old) (faults self.new) result };
}

/// Bytes that go out.
pub trait Sink {
    /// The bytes that were taken, where the object tells.
    ghost taken: { Self → Option (List ℕ) };

    /// How many calls failed. It stands still at the last value of a u64.
    ghost faults: { Self → ℕ };

    /// Takes a front of the piece, of one byte or more, and answers how many. A call that fails takes none.
    fn put(&mut self, piece: &[u8]) -> Result<usize, Failed>
        requires { 0 < length piece.now }
        ensures count { IfOk result (λ n. (0 < n) × (n ≤ length piece.now)) }
        ensures bytes { WriteAppends (taken self.old) (taken self.new) result piece.now }
        ensures cause { HasCause (faults self.old) (faults self.new) result };
}
