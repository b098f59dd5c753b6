//! Where the input comes from.

use thiserror::Error;

/// A read failed. The source counted it.
#[derive(Clone, Copy, Debug, PartialEq, Eq, Error)]
#[error("the source failed")]
pub struct SourceFault;

/// What gives bytes, one after the other.
pub trait Source {
    ghost use Rattle.std.specs.Prelude.{◌≡◌, ℕ, ◌≤◌, IsTrue, IfOk, OnErr, length};
    ghost use Rattle.std.specs.Io.KnownBytes.{IsAtEnd, Keeps};
    ghost use Rattle.gc_model.specs.Allocation.{Rose};
    ghost use Rattle.gcsh_top.specs.Counts.{met_end, saturated_sum};
    ghost use Rattle.gcsh_top.specs.Ends.{FillsBuffer, SourceTold};

    /// What it tells of its bytes and of its reads so far.
    ghost tells: { Self → SourceTold };

    /// Puts the next bytes into the front of `buf` and answers how many. 0 for a buffer that isn't
    /// empty is the end of the input. A failed read takes nothing.
    fn read(&mut self, buf: &mut [u8]) -> Result<usize, SourceFault>
        ensures within { IfOk result (λ n. n ≤ length buf.new) }
        ensures bytes { IfOk result (FillsBuffer (tells self.old).left (tells self.new).left buf.old buf.new) }
        ensures ended { (tells self.new).ended ≡ met_end result buf.new }
        ensures end { IsTrue (tells self.new).ended → IsAtEnd (tells self.new).left }
        ensures given { IfOk result (λ n. (tells self.new).given ≡ saturated_sum (tells self.old).given n) }

        ensures faults { (tells self.old).faults ≤ (tells self.new).faults }
        ensures failed { OnErr result (Rose (tells self.old).faults (tells self.new).faults) }
        ensures kept { OnErr result (Keeps (tells self.old).left (tells self.new).left) }
        ensures none_given { OnErr result ((tells self.new).given ≡ (tells self.old).given) };
}
