//! Where the output goes.

use thiserror::Error;

/// A write or a flush failed. The sink counted it.
#[derive(Clone, Copy, Debug, PartialEq, Eq, Error)]
#[error("the sink failed")]
pub struct SinkFault;

/// What takes bytes, one after the other.
pub trait Sink {
    ghost use Rattle.std.specs.Prelude.{◌≡◌, ◌<◌, ◌≤◌, false, IfOk, OnErr, is_ok, length};
    ghost use Rattle.std.specs.Io.KnownBytes.{Keeps, WriteAppends};
    ghost use Rattle.gc_model.specs.Allocation.{Rose};
    ghost use Rattle.gcsh_top.specs.Ends.{SinkTold};

    /// What it tells of its bytes and of its calls so far.
    ghost tells: { Self → SinkTold };

    /// Takes a front of `bytes` and answers how many. 0 for bytes that aren't empty is a fault,
    /// and counted as one. A failed write takes nothing.
    fn write(&mut self, bytes: &[u8]) -> Result<usize, SinkFault>
        ensures within { IfOk result (λ n. n ≤ length bytes.now) }
        ensures bytes { WriteAppends (tells self.old).held (tells self.new).held result bytes.now }
        ensures flushed { (tells self.new).flushed ≡ false }

        ensures faults { (tells self.old).faults ≤ (tells self.new).faults }
        ensures stuck { IfOk result (λ n. n ≡ 0 → 0 < length bytes.now → Rose (tells self.old).faults (tells self.new).faults) }
        ensures failed { OnErr result (Rose (tells self.old).faults (tells self.new).faults) };

    /// Sees to it that what was taken goes where it is to go.
    fn flush(&mut self) -> Result<(), SinkFault>
        ensures bytes { Keeps (tells self.old).held (tells self.new).held }
        ensures flushed { (tells self.new).flushed ≡ is_ok result }

        ensures faults { (tells self.old).faults ≤ (tells self.new).faults }
        ensures failed { OnErr result (Rose (tells self.old).faults (tells self.new).faults) };
}
