//! Collections from all roots.

ghost use Rattle.std.specs.Prelude.{◌≡◌, None, true};
ghost use Rattle.gc_types.specs.declared.kind.Layouts.TheVariants.{Null};
ghost use Rattle.gc_heap.specs.Collection.{has_host, IsPartOf};
ghost use Rattle.gc_owner.specs.RootColumns.{roots_of};
ghost use Rattle.gc_owner.specs.Tracing.{IsCollectable};
ghost use Rattle.gc_owner.specs.Owners.{Collects, CollectsAll, CollectsRoots};

use crate::owner::HeapOwner;
use crate::roots::Roots;
use gc_heap::{GcHeap, GcStoreTraceState, HeapKind};
use gc_tables::ExternRefHostDataTable;
use gc_types::{Layouts, Types};

/// Whether a heap of that kind keeps every object where it lies.
fn keeps_all(kind: HeapKind) -> bool
    ensures { result ≡ true → kind ≡ Null }
{
    matches!(kind, Layouts::Null)
}

/// Collects in a heap that has its memory, and answers how many bytes are allocated then.
fn collect_in<H: GcHeap, D: Drop>(
    heap: &mut H,
    roots: &mut Roots,
    hosts: &mut ExternRefHostDataTable<D>,
    types: &Types,
) -> usize
    requires unlisted { roots.old.listed ≡ None }
    requires placed { roots.old.has_places ≡ true }
    requires sound { H.sound heap.old }
    requires attached { (H.seen heap.old).attached ≡ true }
    requires collectable { IsCollectable H.KIND types.now.declarations (H.seen heap.old) (roots_of roots.old) (has_host hosts.old.entries) }
    ensures sound { H.sound heap.new }
    ensures collected { CollectsRoots H.KIND types.now.declarations (H.seen heap.old) (H.seen heap.new) roots.old roots.new
        (has_host hosts.old.entries) (has_host hosts.new.entries) }
    ensures values { IsPartOf hosts.new.entries hosts.old.entries }
    ensures last { result ≡ (H.seen heap.new).allocated }
{
    // Nothing is freed or moved then, so the roots needn't be gone through.
    if keeps_all(H::KIND) {
        return heap.allocated_bytes();
    }
    let mut trace = GcStoreTraceState {
        host_data_table: hosts,
        types,
    };
    roots.collect(heap, &mut trace);
    heap.allocated_bytes()
}

impl<H: GcHeap, D: Drop> HeapOwner<H, D> {
    /// Collects from all roots.
    fn collect_all(&mut self)
        requires idle { self.old.seen.idle ≡ true }
        requires attached { self.old.seen.heap.attached ≡ true }
        ensures { CollectsAll H.KIND self.old.seen self.new.seen }
    {
        let last = collect_in(
            &mut self.heap,
            &mut self.roots,
            &mut self.hosts,
            &self.types,
        );
        self.last = last;
    }

    /// Drops the owned roots without handles, and collects from the others and all other roots. Afterwards
    /// the roots have the words of the objects that moved. It takes no memory, and its time is linear in the
    /// roots and what the heap's collection looks at.
    pub fn collect(&mut self)
        requires idle { self.old.seen.idle ≡ true }
        requires attached { self.old.seen.heap.attached ≡ true }
        ensures { Collects H.KIND self.old.seen self.new.seen }
    {
        self.trim();
        self.collect_all();
    }
}
