//! A heap with a host table, and what is seen of it.

ghost use Rattle.std.specs.Prelude.{◌≡◌, true};
ghost use Rattle.std.specs.FinMap as map;
ghost use Rattle.gc_heap.specs.Content.{IsHeap};
ghost use Rattle.gc_raw_store.specs.Stores.{PairsHosts};

use gc_heap::GcHeap;
use gc_tables::ExternRefHostDataTable;
use std::alloc::Global;
use std::marker::Model;

/// A heap that has its memory, with the host values of its external objects. `D` is their type.
#[derive(Drop)]
pub struct GcStore<H: GcHeap, D: Drop> {
    pub(crate) heap: H,
    pub(crate) hosts: ExternRefHostDataTable<D>,
}

impl<H: GcHeap, D: Drop> Model for GcStore<H, D> {
    ghost use Rattle.std.specs.Coded.{codes};
    ghost use Rattle.std.specs.FinMap as map;
    ghost use Rattle.gc_raw_store.specs.Stores.{GcStoreView, IsStored};

    ghost Value = { GcStoreView D };

    ghost coded = { Prim.hlevel (codes, map.code, D.code) };

    ghost view = { λ s. record { heap = H.seen s.heap; hosts = s.hosts.entries } };

    ghost invariant = { λ s. IsStored (H.sound s.heap) (record { heap = H.seen s.heap; hosts = s.hosts.entries }) };
}

impl<H: GcHeap, D: Drop> GcStore<H, D> {
    /// The heap with an empty host table. It takes no memory.
    pub fn new(alloc: Global, heap: H) -> GcStore<H, D>
        requires sound { H.sound heap }
        requires attached { (H.seen heap).attached ≡ true }
        requires empty { (H.seen heap).content ≡ map.empty }
        ensures { result ≡ record { heap = H.seen heap; hosts = map.empty } }
    {
        GcStore {
            heap,
            hosts: ExternRefHostDataTable::new(alloc),
        }
    }

    /// What is always true of a heap with a host table. At run time it does nothing.
    pub fn is_stored(&self)
        ensures heap { IsHeap H.KIND self.now.heap }
        ensures attached { self.now.heap.attached ≡ true }
        ensures paired { PairsHosts self.now.heap.content self.now.hosts }
    {
        let _heap = &self.heap;
    }

    /// The bytes of the heap's memory.
    pub fn gc_heap_capacity(&self) -> usize
        ensures { result ≡ self.now.heap.capacity }
    {
        self.heap.heap_slice().len()
    }
}
