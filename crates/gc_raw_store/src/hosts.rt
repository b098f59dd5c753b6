//! External objects, and their host values.

ghost use Rattle.std.specs.Prelude.{◌≡◌, ◌%◌, true, IsErr, IsOkAnd, IsSome, Some};
ghost use Rattle.std.specs.Borrow.{sem};
ghost use Rattle.std.specs.FinMap as finite;
ghost use Rattle.std.specs.Option.{option_copied_mut};
ghost use Rattle.gc_types.specs.declared.kind.VMGcKind.TheVariants.{ExternRef};
ghost use Rattle.gc_tables.specs.SideTables.{value_at};
ghost use Rattle.gc_view.specs.Heaps.{HeapObject};
ghost use Rattle.gc_heap.specs.Collection.{has_host};
ghost use Rattle.gc_heap.specs.Objects.{host_id};
ghost use Rattle.gc_raw_store.specs.Allocation.{AllocatesHost};

use crate::store::GcStore;
use gc_heap::{GcHeap, HeapFault};
use gc_refs::{RefFault, VMExternRef};
use gc_tables::{ExternRefHostDataId, ExternRefHostDataTable, SlabFault};

/// Takes a host value out of the table.
fn take_back<D: Drop>(hosts: &mut ExternRefHostDataTable<D>, id: ExternRefHostDataId) -> D
    requires { IsSome (value_at hosts.old id) }
    ensures value { value_at hosts.old id ≡ Some result }
    ensures removed { hosts.new.entries ≡ finite.remove hosts.old.entries id }
{
    match hosts.dealloc(id) {
        Ok(value) => value,
        Err(_) => unreachable!(),
    }
}

impl<H: GcHeap, D: Drop> GcStore<H, D> {
    ghost use Rattle.gc_raw_store.specs.HostLends.{raw_lends_value, raw_lends_host};

    /// Allocates an external object for a host value. Where the heap has no room the value is handed back, with
    /// the number of bytes that the heap would have to grow by. The one fault that comes is `Memory`, which
    /// drops the value.
    pub fn alloc_externref(&mut self, value: D) -> Result<Result<VMExternRef, (D, u64)>, HeapFault>
        ensures { AllocatesHost H.KIND value self.old self.new result }
    {
        let id = match self.hosts.alloc(value) {
            Ok(id) => id,
            Err(SlabFault::Full(_)) => unreachable!(),
            Err(SlabFault::Memory(_)) => return Err(HeapFault::Memory),
        };
        let _bounded = id.into_raw();
        match self.heap.alloc_externref(id) {
            Ok(Ok(external)) => Ok(Ok(external)),
            Ok(Err(need)) => Ok(Err((take_back(&mut self.hosts, id), need))),
            Err(fault) => {
                let _dropped = take_back(&mut self.hosts, id);
                Err(fault)
            }
        }
    }

    /// The id of the host value of an external object.
    fn host_id(&self, r: &VMExternRef) -> Result<ExternRefHostDataId, RefFault>
        ensures held { (o : HeapObject) → finite.get self.now.heap.content r.now ≡ Some o → o.kind ≡ ExternRef
            → IsOkAnd result (λ id. (id ≡ host_id o) × (has_host self.now.hosts id ≡ true)) }
        ensures number { r.now % 2 ≡ 1 → IsErr result }
    {
        self.heap.externref_host_data(r)
    }

    /// Lends the host value of an external object. `BadRef` always for a 31-bit number, and else only for a word
    /// that names no external object.
    pub fn externref_host_data(&self, r: &VMExternRef) -> Result<&D, RefFault>
        ensures held { (o : HeapObject) → finite.get self.now.heap.content r.now ≡ Some o → o.kind ≡ ExternRef
            → IsOkAnd result (λ value. finite.get self.now.hosts (host_id o) ≡ Some value.now) }
        ensures number { r.now % 2 ≡ 1 → IsErr result }
    {
        match self.host_id(r) {
            Ok(id) => match self.hosts.get(id) {
                Ok(value) => Ok(value),
                Err(_) => Err(RefFault::BadRef),
            },
            Err(fault) => Err(fault),
        }
    }

    /// The host value under that id, for writing.
    fn host_mut(&mut self, id: ExternRefHostDataId) -> Option<&mut D>
        ensures* writes_back { sem 𝓛 (raw_lends_value H.row D.row H.State.row H.GcHeap self.entry id result) }
        ensures value { option_copied_mut result ≡ finite.get self.old.hosts id }
    {
        match self.hosts.get_mut(id) {
            Ok(value) => Some(value),
            Err(_) => None,
        }
    }

    /// Lends the host value of an external object for writing. `BadRef` as in `externref_host_data`.
    pub fn externref_host_data_mut(&mut self, r: &VMExternRef) -> Result<&mut D, RefFault>
        ensures* writes_back { sem 𝓛 (raw_lends_host H.row D.row H.State.row H.GcHeap self.entry r.now result) }
        ensures held { (o : HeapObject) → finite.get self.old.heap.content r.now ≡ Some o → o.kind ≡ ExternRef
            → IsOkAnd result (λ value. finite.get self.old.hosts (host_id o) ≡ Some value.now) }
        ensures number { r.now % 2 ≡ 1 → IsErr result }
    {
        match self.host_id(r) {
            Ok(id) => match self.host_mut(id) {
                Some(value) => Ok(value),
                None => Err(RefFault::BadRef),
            },
            Err(fault) => Err(fault),
        }
    }
}
