//! The host value of an external object, which is freed with it.

ghost use Rattle.std.specs.Prelude.{ℕ, ◌≡◌, ◌+◌, ◌≤◌, ◌↔◌, IsTrue, length};
ghost use Rattle.gc_types.specs.declared.kind.VMGcKind.{VMGcKind};
ghost use Rattle.gc_types.specs.declared.kind.VMGcKind.TheVariants.{ExternRef};
ghost use Rattle.gc_refs.specs.Header.{IsOfKind};
ghost use Rattle.gc_memory.specs.Words.{word};
ghost use Rattle.gc_drc.specs.Layout.{counting_kind_at};
ghost use Rattle.gc_drc.specs.CollectHosts.{FreesHostOf};

use crate::space::CountedSpace;
use gc_heap::hosts::free_host;
use gc_memory::offsets::COUNTING_HOST;
use gc_tables::ExternRefHostDataTable;
use gc_types::VMGcKind;

/// Whether that is the kind of external objects.
fn is_external(kind: VMGcKind) -> bool
    ensures { IsTrue result ↔ (kind ≡ ExternRef) }
{
    matches!(kind, VMGcKind::ExternRef)
}

impl CountedSpace {
    /// Takes the host value of an object out of the table, if it is an external object.
    pub(crate) fn free_host_of<D: Drop>(&self, place: u32, hosts: &mut ExternRefHostDataTable<D>)
        requires room { place + 28 ≤ length self.now.memory }
        requires kind { IsOfKind (counting_kind_at self.now.memory place) (word self.now.memory place) }
        requires external { counting_kind_at self.now.memory place ≡ ExternRef → place + 32 ≤ length self.now.memory }
        ensures frees { FreesHostOf D self.now.memory hosts.old.entries hosts.new.entries place }
        ensures spare { hosts.old.spare ≤ hosts.new.spare }
    {
        if is_external(self.kind(place)) {
            let raw = self
                .memory
                .read_u32(place as usize + COUNTING_HOST as usize);
            free_host(hosts, raw);
        }
    }
}
