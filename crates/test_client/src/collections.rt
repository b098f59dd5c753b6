//! Collections of any heap, each begun and ended in a way of its own.

ghost use Rattle.std.specs.Prelude.{◌≡◌, ◌<◌, IfOk, OnOk};
ghost use Rattle.gc_view.specs.Heaps.{detached_in};
ghost use Rattle.gc_heap.specs.Collection.{CanCollect, Collected, has_host, stage};
ghost use Rattle.gc_heap.specs.Run.{start_at};
ghost use Rattle.test_client.specs.declared.collections.Around.{Around};
ghost use Rattle.test_client.specs.Collecting.{CanCollectAround, IsCollectionBegun, Finishes};

use crate::allocation::make_struct;
use crate::fault::ClientFault;
use crate::scope::attach_page;
use gc_heap::collect::{collect, collect_counted, run_counted};
use gc_heap::{GcHeap, GcProgress, GcStoreTraceState};
use gc_roots::{GcRootsList, RootPlace};
use gc_steps::Steps;
use gc_tables::ExternRefHostDataTable;
use gc_types::{Types, VMSharedTypeIndex};
use std::alloc::Global;
use std::marker::Brand;
use std::sync::ledger::{Blank, Ledger};

/// What stands around a heap: its roots, the declared types and the host values.
#[derive(Drop)]
pub(crate) struct Around {
    pub(crate) roots: GcRootsList,
    pub(crate) types: Types,
    pub(crate) hosts: ExternRefHostDataTable<u8>,
}

/// The type and the size of an object.
pub type Told = Option<(u32, usize)>;

/// What there was of an object that a root names, after each of three collections.
#[derive(Clone, Copy, Debug, PartialEq, Eq)]
pub struct Kept {
    /// Whether the first collection, which was left after one increment, had more to do.
    pub went_on: bool,
    pub told: [Told; 3],
    /// How many objects there were at the end.
    pub objects: u64,
}

/// Gives a new heap a page, in which no root names anything.
fn begin<H: GcHeap>(heap: &mut H, alloc: Global, types: Types) -> Result<Around, ClientFault>
    requires sound { H.sound heap.old }
    requires detached { H.seen heap.old ≡ detached_in 0 }
    ensures sound { H.sound heap.new }
    ensures can { IfOk result (λ (around : Around). CanCollectAround H.KIND (H.seen heap.new) around) }
{
    attach_page(heap, alloc)?;
    Ok(Around {
        roots: GcRootsList::new(alloc),
        types,
        hosts: ExternRefHostDataTable::new(alloc),
    })
}

/// Makes a struct or an exception, and gives it a root.
fn add<H: GcHeap>(
    heap: &mut H,
    around: &mut Around,
    ty: VMSharedTypeIndex,
) -> Result<(), ClientFault>
    requires sound { H.sound heap.old }
    requires can { CanCollectAround H.KIND (H.seen heap.old) around.old }
    ensures sound { H.sound heap.new }
    ensures can { OnOk result (CanCollectAround H.KIND (H.seen heap.new) around.new) }
{
    around.roots.reserve(1)?;
    match make_struct(heap, &around.types, ty) {
        Ok(object) => {
            around
                .roots
                .add_vmgcref_root(RootPlace { number: 0 }, object);
            Ok(())
        }
        Err(fault) => Err(fault),
    }
}

/// The type and the size of what the first root names.
fn first_told<H: GcHeap>(heap: &H, around: &Around) -> Told
    requires { H.sound heap.now }
{
    if around.roots.len() == 0 {
        return None;
    }
    let word = around.roots.word_at(0);
    let header = heap.header(&word).ok()?;
    let size = heap.object_size(&word).ok()?;
    Some((header.type_index().as_u32(), size))
}

/// Does the first increment of a collection, counted, and leaves the others to `collect`. Whether there were
/// any.
fn finish_after_one<H: GcHeap, D: Drop, L: Ledger>(
    heap: &mut H,
    state: &mut H::State,
    roots: &mut GcRootsList,
    trace: &mut GcStoreTraceState<'_, D>,
    blank: Blank,
) -> bool
    requires name { blank.name ≡ L.name }
    requires parts { blank.parts ≡ L.parts }
    requires some { 0 < blank.parts }
    requires begun { IsCollectionBegun H.under_way
        (stage heap.old state.old roots.old.roots trace.old.types.now.declarations trace.old.host_data_table.now.entries) }
    ensures sound { H.sound heap.new }
    ensures collected { Finishes H.KIND H.under_way
        (stage heap.old state.old roots.old.roots trace.old.types.now.declarations trace.old.host_data_table.now.entries)
        (H.seen heap.new) roots.new.roots (has_host trace.new.host_data_table.now.entries) }
    ensures hosts { trace.new.host_data_table.ghost_name ≡ trace.old.host_data_table.ghost_name }
    ensures types { trace.new.types ≡ trace.old.types }
{
    let mut steps = Steps::<L>::new(blank);
    match heap.step_counted(state, roots, trace, &mut steps) {
        GcProgress::Continue => {
            collect(heap, state, roots, trace);
            true
        }
        GcProgress::Complete => false,
    }
}

/// Does a whole collection, counted.
fn run_whole<H: GcHeap, D: Drop, L: Ledger>(
    heap: &mut H,
    roots: &mut GcRootsList,
    trace: &mut GcStoreTraceState<'_, D>,
    blank: Blank,
)
    requires name { blank.name ≡ L.name }
    requires parts { blank.parts ≡ L.parts }
    requires some { 0 < blank.parts }
    requires sound { H.sound heap.old }
    requires can { CanCollect H.KIND (start_at (H.seen heap.old) roots.old.roots trace.old.types.now.declarations trace.old.host_data_table.now.entries) }
    ensures sound { H.sound heap.new }
    ensures collected { Collected H.KIND (start_at (H.seen heap.old) roots.old.roots trace.old.types.now.declarations trace.old.host_data_table.now.entries)
        (H.seen heap.new) roots.new.roots (has_host trace.new.host_data_table.now.entries) }
    ensures hosts { trace.new.host_data_table.ghost_name ≡ trace.old.host_data_table.ghost_name }
    ensures types { trace.new.types ≡ trace.old.types }
{
    let mut steps = Steps::<L>::new(blank);
    run_counted(heap, roots, trace, &mut steps);
}

/// Begins a collection, drops it after its first increment, and finishes it by `collect`. Whether there was
/// something left to do.
fn collect_dropped<H: GcHeap>(heap: &mut H, around: &mut Around) -> bool
    requires sound { H.sound heap.old }
    requires can { CanCollectAround H.KIND (H.seen heap.old) around.old }
    ensures sound { H.sound heap.new }
    ensures can { CanCollectAround H.KIND (H.seen heap.new) around.new }
{
    let mut state = heap.begin();
    let mut trace = GcStoreTraceState {
        host_data_table: &mut around.hosts,
        types: &around.types,
    };
    finish_after_one::<H, u8, Brand>(
        heap,
        &mut state,
        &mut around.roots,
        &mut trace,
        Blank::new(1),
    )
}

/// Begins a collection, and does all of it by `collect_counted`.
fn collect_begun<H: GcHeap, L: Ledger>(heap: &mut H, around: &mut Around, blank: Blank)
    requires name { blank.name ≡ L.name }
    requires parts { blank.parts ≡ L.parts }
    requires some { 0 < blank.parts }
    requires sound { H.sound heap.old }
    requires can { CanCollectAround H.KIND (H.seen heap.old) around.old }
    ensures sound { H.sound heap.new }
    ensures can { CanCollectAround H.KIND (H.seen heap.new) around.new }
{
    let mut state = heap.begin();
    let mut steps = Steps::<L>::new(blank);
    let mut trace = GcStoreTraceState {
        host_data_table: &mut around.hosts,
        types: &around.types,
    };
    collect_counted(heap, &mut state, &mut around.roots, &mut trace, &mut steps);
}

/// Does a collection by `run_counted`.
fn collect_run<H: GcHeap>(heap: &mut H, around: &mut Around)
    requires sound { H.sound heap.old }
    requires can { CanCollectAround H.KIND (H.seen heap.old) around.old }
    ensures sound { H.sound heap.new }
    ensures can { CanCollectAround H.KIND (H.seen heap.new) around.new }
{
    let mut trace = GcStoreTraceState {
        host_data_table: &mut around.hosts,
        types: &around.types,
    };
    run_whole::<H, u8, Brand>(heap, &mut around.roots, &mut trace, Blank::new(1));
}

/// Makes two objects of a declared type in a new heap of one page, each with its root, and collects three
/// times: by `step_counted` and `collect`, by `collect_counted`, and by `run_counted`.
pub fn run_collections<H: GcHeap>(
    heap: &mut H,
    alloc: Global,
    types: Types,
    ty: VMSharedTypeIndex,
) -> Result<Kept, ClientFault>
    requires sound { H.sound heap.old }
    requires detached { H.seen heap.old ≡ detached_in 0 }
    ensures sound { H.sound heap.new }
{
    let mut around = begin(heap, alloc, types)?;
    add(heap, &mut around, ty)?;
    add(heap, &mut around, ty)?;
    let went_on = collect_dropped(heap, &mut around);
    let first = first_told(heap, &around);
    collect_begun::<H, Brand>(heap, &mut around, Blank::new(1));
    let second = first_told(heap, &around);
    collect_run(heap, &mut around);
    Ok(Kept {
        went_on,
        told: [first, second, first_told(heap, &around)],
        objects: heap.object_count(),
    })
}
