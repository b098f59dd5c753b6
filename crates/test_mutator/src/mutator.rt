//! A mutator, and what is there to see of it.

ghost use Rattle.std.specs.Prelude.{◌≡◌, ◌≤◌, ◌*◌, [], IfOk, IsOkUnless, length};
ghost use Rattle.std.specs.FinMap as map;
ghost use Rattle.gc_view.specs.Pages.{page, max_pages};
ghost use Rattle.gc_view.specs.Heaps.{detached_in};
ghost use Rattle.gc_heap.specs.Heap.{empty_heap};

use crate::fault::MutatorFault;
use gc_heap::{GcHeap, HeapMemory};
use gc_roots::GcRootsList;
use gc_tables::ExternRefHostDataTable;
use gc_types::Types;
use std::alloc::Global;
use std::marker::Model;

/// A heap that has its memory, and all that stands around it.
#[derive(Drop)]
pub struct Mutator<H: GcHeap> {
    pub(crate) heap: H,
    pub(crate) roots: GcRootsList,
    pub(crate) types: Types,
    pub(crate) hosts: ExternRefHostDataTable<u8>,
}

impl<H: GcHeap> Model for Mutator<H> {
    ghost use Rattle.std.specs.Coded.{codes};
    ghost use Rattle.std.specs.FinMap as map;
    ghost use Rattle.test_mutator.specs.Mutators.{MutatorView, IsMutatorReady};

    ghost Value = { MutatorView };

    ghost coded = { Prim.hlevel (codes, map.code) };

    ghost view = { λ m. record { heap = H.seen m.heap; roots = m.roots.roots; types = m.types.declarations; hosts = m.hosts.entries } };

    ghost invariant = { λ m. IsMutatorReady H.KIND (H.sound m.heap) (record {
      heap = H.seen m.heap;
      roots = m.roots.roots;
      types = m.types.declarations;
      hosts = m.hosts.entries;
    }) };
}

impl<H: GcHeap + Drop> Mutator<H> {
    /// A mutator over a new heap, which gets so many pages. `Memory` is the only error.
    pub fn new(
        alloc: Global,
        mut heap: H,
        types: Types,
        pages: u32,
    ) -> Result<Mutator<H>, MutatorFault>
        requires sound { H.sound heap }
        requires detached { H.seen heap ≡ detached_in 0 }
        requires few { pages ≤ max_pages }
        ensures made { IfOk result (λ m. m ≡ record { heap = empty_heap H.KIND (page * pages) 0; roots = []; types = types.declarations; hosts = map.empty }) }
        ensures why { IsOkUnless result MutatorFault.Memory }
    {
        let Ok(memory) = HeapMemory::new(alloc, pages) else {
            return Err(MutatorFault::Memory);
        };
        match heap.attach(memory) {
            Ok(()) => Ok(Mutator {
                heap,
                roots: GcRootsList::new(alloc),
                types,
                hosts: ExternRefHostDataTable::new(alloc),
            }),
            Err(_) => Err(MutatorFault::Memory),
        }
    }
}
