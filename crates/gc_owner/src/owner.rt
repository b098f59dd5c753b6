//! The owner, and what is seen of it.

ghost use Rattle.std.specs.Prelude.{◌≡◌, IfOk};
ghost use Rattle.gc_view.specs.Heaps.{detached};
ghost use Rattle.gc_owner.specs.Owners.{new_owner, spent_owner};

use crate::roots::Roots;
use gc_heap::GcHeap;
use gc_tables::ExternRefHostDataTable;
use gc_types::Types;
use std::alloc::{AllocError, Global};
use std::marker::Model;

/// A heap with its types, its host values and its roots. `D` is the type of the host values.
#[derive(Drop)]
pub struct HeapOwner<H: GcHeap, D: Drop> {
    pub(crate) alloc: Global,
    pub(crate) heap: H,
    pub(crate) types: Types,
    pub(crate) hosts: ExternRefHostDataTable<D>,
    pub(crate) roots: Roots,
    /// The bytes that were allocated after the last collection; 0 before the first.
    pub(crate) last: usize,
    /// The state of the collection that is under way.
    pub(crate) state: Option<H::State>,
}

impl<H: GcHeap, D: Drop> Model for HeapOwner<H, D> {
    ghost use Rattle.std.specs.Coded.{codes};
    ghost use Rattle.std.specs.FinMap as map;
    ghost use Rattle.gc_owner.specs.Owners.{OwnerValue, InOrder, owner_value};

    ghost Value = { OwnerValue H H.State D };

    ghost coded = { Prim.hlevel (codes, map.code, H.code, H.State.code, D.code) };

    ghost view = { λ o. owner_value (H.seen o.heap) o.types o.hosts.entries o.roots o.last o.heap o.state };

    ghost invariant = { λ o. InOrder (record { layouts = H.KIND; seen = H.seen; sound = H.sound; under_way = H.under_way })
        (owner_value (H.seen o.heap) o.types o.hosts.entries o.roots o.last o.heap o.state) o.state };
}

impl<H: GcHeap + Drop, D: Drop> HeapOwner<H, D> {
    /// An owner of that heap, which is not attached, and of no type, host value and root. Its types carry
    /// that id. An error is want of memory.
    pub fn new(
        alloc: Global,
        heap: H,
        engine: u64,
        number: u64,
    ) -> Result<HeapOwner<H, D>, AllocError>
        requires sound { H.sound heap }
        requires empty { H.seen heap ≡ detached }
        ensures seen { IfOk result (λ o. o.seen ≡ new_owner engine number o.seen.roots.list_spare) }
    {
        Ok(HeapOwner {
            alloc,
            heap,
            types: Types::new(alloc, engine, number),
            hosts: ExternRefHostDataTable::new(alloc),
            roots: Roots::new(alloc)?,
            last: 0,
            state: None,
        })
    }
}

impl<H: GcHeap, D: Drop> HeapOwner<H, D> {
    /// What may stand in the place of an owner while its heap is collected elsewhere: an owner of nothing, whose types
    /// carry that id, of which no further scope end and no further owned root can be counted, and that makes no heap. It takes
    /// no memory.
    pub fn spent(alloc: Global, engine: u64, number: u64) -> HeapOwner<H, D>
        ensures { result.seen ≡ spent_owner engine number result.seen.roots.list_spare }
    {
        HeapOwner {
            alloc,
            heap: H::unattached(alloc),
            types: Types::new(alloc, engine, number),
            hosts: ExternRefHostDataTable::new(alloc),
            roots: Roots::spent(alloc),
            last: 0,
            state: None,
        }
    }
}
