//! The value of an external object, which a heap frees with the object.

ghost use Rattle.std.specs.Prelude.{◌≤◌};
ghost use Rattle.gc_heap.specs.FreedHosts.{FreesHost};

use gc_tables::{ExternRefHostDataId, ExternRefHostDataTable, HostFault};

/// Takes the value out of the table whose id that number stands for.
pub fn free_host<D: Drop>(hosts: &mut ExternRefHostDataTable<D>, raw: u32)
    ensures frees { FreesHost D hosts.old.entries hosts.new.entries raw }
    ensures spare { hosts.old.spare ≤ hosts.new.spare }
{
    if let Some(id) = ExternRefHostDataId::from_raw(raw) {
        match hosts.dealloc(id) {
            Ok(_) => (),
            Err(HostFault::BadHostDataId) => (),
        }
    }
}
