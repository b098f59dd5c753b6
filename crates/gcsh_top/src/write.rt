//! Writes until all is taken.

ghost use Rattle.std.specs.Prelude.{◌≤◌, OnErr, OnOk};
ghost use Rattle.std.specs.Io.KnownBytes.{Appends};
ghost use Rattle.gc_model.specs.Allocation.{Rose};
ghost use Rattle.gcsh_top.specs.Ends.{TookPart};

use crate::sink::{Sink, SinkFault};

/// Writes all of `bytes`, in as many writes as the sink makes of it. After a fault the sink took
/// a front of them.
#[inline(always)]
pub fn write_all<K: Sink>(sink: &mut K, bytes: &[u8]) -> Result<(), SinkFault>
    ensures ok { OnOk result (Appends (K.tells sink.old).held (K.tells sink.new).held bytes.now) }
    ensures part { OnErr result (TookPart (K.tells sink.old).held (K.tells sink.new).held bytes.now) }
    ensures failed { OnErr result (Rose (K.tells sink.old).faults (K.tells sink.new).faults) }
    ensures faults { (K.tells sink.old).faults ≤ (K.tells sink.new).faults }
{
    let mut rest = bytes;
    while !rest.is_empty() {
        match sink.write(rest) {
            Ok(0) => return Err(SinkFault),
            Ok(count) => rest = &rest[count..],
            Err(fault) => return Err(fault),
        }
    }
    Ok(())
}
