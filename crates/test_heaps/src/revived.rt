//! An object of a counting heap that is queued, and then shown to a frame slot.

ghost use Rattle.std.specs.Prelude.{ℕ, Bool, true, false, ◌≡◌, ◌≤◌, Some, List, [], ◌∷◌, IfOk};
ghost use Rattle.gc_types.specs.declared.kind.Layouts.TheVariants.{Counting};
ghost use Rattle.gc_types.specs.Declarations.{Declaration};
ghost use Rattle.gc_types.specs.Layouts.{layout_at};
ghost use Rattle.gc_roots.specs.Roots.{root};
ghost use Rattle.gc_view.specs.Heaps.{detached_in};
ghost use Rattle.gc_heap.specs.Collection.{CanCollect};
ghost use Rattle.gc_heap.specs.Heap.{AddsObject, new_struct};

use crate::fault::TestFault;
use crate::page::Page;
use gc_drc::DrcHeap;
use gc_heap::collect::run;
use gc_heap::{GcHeap, GcStoreTraceState};
use gc_refs::VMGcRef;
use gc_roots::{GcRootsList, RootPlace};
use gc_tables::ExternRefHostDataTable;
use gc_types::{GcStructLayout, Layouts, Types, VMSharedTypeIndex};
use std::alloc::Global;
use test_client::scope::attach_page;

/// The lowest byte of the count word of an object, and the heap's own three bits.
type OwnWords = Option<(u8, u8)>;

/// An object's own words before and after a collection.
type Told = (OwnWords, OwnWords);

fn own_words<H: GcHeap>(heap: &H, word: &VMGcRef) -> OwnWords
    requires { H.sound heap.now }
{
    let place = word.as_raw_u32() as usize;
    let bytes = heap.heap_slice();
    let count = *bytes.get(place + 8)?;
    let kind = *bytes.get(place)?;
    Some((count, kind % 8))
}

/// Makes a struct whose references are null.
fn make_struct<H: GcHeap>(
    heap: &mut H,
    ty: VMSharedTypeIndex,
    layout: &GcStructLayout,
) -> Result<VMGcRef, TestFault>
    requires counting { H.KIND ≡ Layouts.Counting }
    requires sound { H.sound heap.old }
    requires attached { (H.seen heap.old).attached ≡ true }
    requires plain { layout.now.is_exception ≡ false }
    requires size { 28 ≤ layout.now.size }
    ensures sound { H.sound heap.new }
    ensures made { IfOk result (λ (place : ℕ). AddsObject Counting (H.seen heap.old) (H.seen heap.new) place
        (new_struct Counting ty layout.now) layout.now.size) }
{
    match heap.alloc_uninit_struct_or_exn(ty, layout)? {
        Ok(object) => Ok(object),
        Err(_) => Err(TestFault::NoRoom),
    }
}

/// Makes a struct whose one word is given up, copied again, and shown to a frame slot: it is queued
/// and shown then.
fn show_queued<H: GcHeap>(
    heap: &mut H,
    layout: &GcStructLayout,
    ty: VMSharedTypeIndex,
) -> Result<VMGcRef, TestFault>
    requires counting { H.KIND ≡ Layouts.Counting }
    requires sound { H.sound heap.old }
    requires attached { (H.seen heap.old).attached ≡ true }
    requires plain { layout.now.is_exception ≡ false }
    requires size { 28 ≤ layout.now.size }
    ensures sound { H.sound heap.new }
    ensures can { IfOk result (λ (word : ℕ). (types : List Declaration) (hosts : ℕ → Bool) → layout_at Counting types ty ≡ Some layout.now
        → CanCollect Counting (record { heap = H.seen heap.old; roots = []; types = types; hosts = hosts })
        → CanCollect Counting (record { heap = H.seen heap.new; roots = root 0 true word ∷ []; types = types; hosts = hosts })) }
{
    let object = make_struct(heap, ty, layout)?;
    let word = object.unchecked_copy();
    heap.drop_gc_ref(object);
    let copy = heap.clone_gc_ref(&word);
    heap.expose_gc_ref_to_wasm(copy);
    Ok(word)
}

/// Collects twice: while a frame slot holds an object that was queued before it was shown, and when
/// the slot was left. Tells the object's own words before and after the first collection. Around the heap nothing is rooted yet.
fn collects_a_shown_one<H: GcHeap>(
    heap: &mut H,
    alloc: Global,
    types: &mut Types,
    roots: &mut GcRootsList,
    hosts: &mut ExternRefHostDataTable<u8>,
) -> Result<Told, TestFault>
    requires counting { H.KIND ≡ Layouts.Counting }
    requires sound { H.sound heap.old }
    requires detached { H.seen heap.old ≡ detached_in 0 }
    requires roots { roots.old.roots ≡ [] }
    ensures sound { H.sound heap.new }
{
    attach_page(heap, alloc)?;
    let ty = types.declare_struct(&[], None, true)?.index();
    let layout = types
        .struct_layout(Layouts::Counting, ty)
        .ok_or(TestFault::NoObject)?;
    let word = show_queued(heap, layout, ty)?;
    let queued = own_words(heap, &word);
    roots.reserve(1)?;
    roots.add_wasm_stack_root(RootPlace { number: 0 }, word.unchecked_copy());
    let mut trace = GcStoreTraceState {
        host_data_table: hosts,
        types: &*types,
    };
    run(heap, roots, &mut trace);
    let shown = own_words(heap, &word);
    roots.clear();
    run(heap, roots, &mut trace);
    Ok((queued, shown))
}

/// What these collections did in a heap with no memory.
fn shown_in<H: GcHeap>(heap: &mut H, alloc: Global) -> Result<Told, TestFault>
    requires counting { H.KIND ≡ Layouts.Counting }
    requires sound { H.sound heap.old }
    requires detached { H.seen heap.old ≡ detached_in 0 }
    ensures sound { H.sound heap.new }
{
    let mut types = Types::new(alloc, 1, 1);
    let mut roots = GcRootsList::new(alloc);
    let mut hosts = ExternRefHostDataTable::new(alloc);
    collects_a_shown_one(heap, alloc, &mut types, &mut roots, &mut hosts)
}

/// Writes what these collections did. The words are the lowest byte of the count word and the heap's own bits.
pub(crate) fn show_revived(alloc: Global, page: &mut Page) {
    let mut heap = DrcHeap::new(alloc);
    match shown_in(&mut heap, alloc) {
        Ok((queued, shown)) => {
            let (objects, bytes) = (heap.object_count(), heap.allocated_bytes());
            writeln!(
                page,
                "queued and shown: {queued:?}, then {shown:?}, {objects} objects, {bytes} bytes"
            )
        }
        Err(fault) => writeln!(page, "{fault}"),
    }
}
