//! Structs of undeclared type in a copying heap, which a collection follows by their trace words alone. After each step a
//! collection may begin.

ghost use Rattle.std.specs.Prelude.{◌≡◌, ◌≤◌, ◌<◌, ◌%◌, ◌+◌, OnOk, IfOk, All};
ghost use Rattle.gc_types.specs.declared.kind.VMGcKind.TheVariants.{StructRef};
ghost use Rattle.gc_refs.specs.Header.{IsOfKind, spare_bits};
ghost use Rattle.gc_refs.specs.Trace.{form_unit};
ghost use Rattle.gc_view.specs.Heaps.{detached_in};
ghost use Rattle.gc_heap.specs.References.{bitmap_offsets};
ghost use Rattle.gc_heap.specs.Content.{IsHeld};
ghost use Rattle.gc_heap.specs.Collection.{CanCollect};
ghost use Rattle.gc_heap.specs.Run.{start_at};

use crate::fault::TestFault;
use crate::page::Page;
use gc_copying::CopyingHeap;
use gc_heap::access::write_u32;
use gc_heap::collect::run;
use gc_heap::{GcHeap, GcStoreTraceState, RefKinds};
use gc_refs::{I31, VMGcHeader, VMGcRef};
use gc_roots::{GcRootsList, RootPlace};
use gc_tables::ExternRefHostDataTable;
use gc_types::{Layouts, Types, VMGcKind, VMSharedTypeIndex};
use std::alloc::Global;
use test_client::scope::attach_page;

/// What stands around a heap: a root for each object that was made, in the order of making, the
/// declared types and the host values.
#[derive(Drop)]
struct Around {
    roots: GcRootsList,
    types: Types,
    hosts: ExternRefHostDataTable<u8>,
}

/// The header of a struct of type 7 with these spare bits.
fn header_with(spare: u32) -> VMGcHeader
    requires { spare < spare_bits }
    ensures kind { IsOfKind StructRef result.kind_word }
    ensures spare { result.kind_word % spare_bits ≡ spare }
{
    let mut header = VMGcHeader::from_kind_and_index(
        VMGcKind::StructRef,
        VMSharedTypeIndex::new(7),
    );
    header.set_reserved_u26(spare);
    header
}

/// Adds a struct of undeclared type whose references the bitmap names, all null.
fn add_struct<H: GcHeap>(
    heap: &mut H,
    around: &mut Around,
    size: u32,
    bitmap: u32,
) -> Result<(), TestFault>
    requires copying { H.KIND ≡ Layouts.Copying }
    requires sound { H.sound heap.old }
    requires can { CanCollect H.KIND (start_at (H.seen heap.old) around.old.roots.roots around.old.types.declarations around.old.hosts.entries) }
    requires least { 12 ≤ size }
    requires bits { bitmap < form_unit }
    requires inside { All (λ offset. offset + 4 ≤ size) (bitmap_offsets bitmap) }
    ensures sound { H.sound heap.new }
    ensures can { OnOk result (CanCollect H.KIND (start_at (H.seen heap.new) around.new.roots.roots around.new.types.declarations around.new.hosts.entries)) }
{
    around.roots.reserve(1)?;
    let header = header_with(bitmap);
    match heap.alloc_raw(header, size)? {
        Ok(object) => {
            around
                .roots
                .add_vmgcref_root(RootPlace { number: 0 }, object);
            Ok(())
        }
        Err(_) => Err(TestFault::NoRoom),
    }
}

/// The word of a root, where it names an object.
fn holder_at<H: GcHeap>(heap: &H, around: &Around, index: usize) -> Result<VMGcRef, TestFault>
    requires can { CanCollect H.KIND (start_at (H.seen heap.now) around.now.roots.roots around.now.types.declarations around.now.hosts.entries) }
    ensures { IfOk result (IsHeld (H.seen heap.now)) }
{
    if index >= around.roots.len() {
        return Err(TestFault::NoObject);
    }
    let word = around.roots.word_at(index);
    let _not_null = word.as_raw_u32();
    if word.is_i31() {
        return Err(TestFault::NoObject);
    }
    Ok(word)
}

/// Lets the first reference of a struct name an object.
fn link<H: GcHeap>(heap: &mut H, around: &Around, from: usize, to: usize) -> Result<(), TestFault>
    requires copying { H.KIND ≡ Layouts.Copying }
    requires sound { H.sound heap.old }
    requires can { CanCollect H.KIND (start_at (H.seen heap.old) around.now.roots.roots around.now.types.declarations around.now.hosts.entries) }
    ensures sound { H.sound heap.new }
    ensures can { OnOk result (CanCollect H.KIND (start_at (H.seen heap.new) around.now.roots.roots around.now.types.declarations around.now.hosts.entries)) }
{
    let holder = holder_at(heap, around, from)?;
    let word = holder_at(heap, around, to)?;
    let size = heap.object_size(&holder)?;
    if !holder.is_structref(heap) || size < 16 {
        return Err(TestFault::NoObject);
    }
    write_u32(heap, &holder, 12, word.as_raw_u32());
    Ok(())
}

/// Lets a root hold a number in place of its object.
fn forget<H: GcHeap>(heap: &H, around: &mut Around, index: usize) -> Result<(), TestFault>
    requires copying { H.KIND ≡ Layouts.Copying }
    requires can { CanCollect H.KIND (start_at (H.seen heap.now) around.old.roots.roots around.old.types.declarations around.old.hosts.entries) }
    ensures can { OnOk result (CanCollect H.KIND (start_at (H.seen heap.now) around.new.roots.roots around.new.types.declarations around.new.hosts.entries)) }
{
    if index >= around.roots.len() {
        return Err(TestFault::NoObject);
    }
    let number = VMGcRef::from_i31(I31::wrapping_u32(0));
    around.roots.set_word_at(index, number);
    Ok(())
}

/// Gives a heap a page; around it stands nothing.
fn begin<H: GcHeap>(heap: &mut H, alloc: Global) -> Result<Around, TestFault>
    requires copying { H.KIND ≡ Layouts.Copying }
    requires sound { H.sound heap.old }
    requires detached { H.seen heap.old ≡ detached_in 0 }
    ensures sound { H.sound heap.new }
    ensures can { IfOk result (λ (around : Around). CanCollect H.KIND
        (start_at (H.seen heap.new) around.roots.roots around.types.declarations around.hosts.entries)) }
{
    attach_page(heap, alloc)?;
    Ok(Around {
        roots: GcRootsList::new(alloc),
        types: Types::new(alloc, 1, 1),
        hosts: ExternRefHostDataTable::new(alloc),
    })
}

/// Makes three structs, the first of which names the second and keeps its root. A collection may begin.
fn make_three<H: GcHeap>(heap: &mut H, around: &mut Around) -> Result<(), TestFault>
    requires copying { H.KIND ≡ Layouts.Copying }
    requires sound { H.sound heap.old }
    requires can { CanCollect H.KIND (start_at (H.seen heap.old) around.old.roots.roots around.old.types.declarations around.old.hosts.entries) }
    ensures sound { H.sound heap.new }
    ensures can { OnOk result (CanCollect H.KIND (start_at (H.seen heap.new) around.new.roots.roots around.new.types.declarations around.new.hosts.entries)) }
{
    add_struct(heap, around, 16, 0b1)?;
    add_struct(heap, around, 32, 0b1)?;
    add_struct(heap, around, 16, 0b1)?;
    link(heap, around, 0, 1)?;
    forget(heap, around, 1)?;
    forget(heap, around, 2)
}

/// The size of what the struct of the first root names.
fn second_size<H: GcHeap>(heap: &H, roots: &GcRootsList) -> Option<usize>
    requires { H.sound heap.now }
{
    if roots.len() == 0 {
        return None;
    }
    let data = heap.gc_object_data(&roots.word_at(0)).ok()?;
    let second = VMGcRef::from_raw_u32(data.read_u32(12).ok()?)?;
    heap.object_size(&second).ok()
}

/// Collects in a new heap that holds these three.
fn collect_three<H: GcHeap>(heap: &mut H, alloc: Global) -> Result<Option<usize>, TestFault>
    requires copying { H.KIND ≡ Layouts.Copying }
    requires sound { H.sound heap.old }
    requires detached { H.seen heap.old ≡ detached_in 0 }
    ensures sound { H.sound heap.new }
{
    let mut around = begin(heap, alloc)?;
    make_three(heap, &mut around)?;
    let mut trace = GcStoreTraceState {
        host_data_table: &mut around.hosts,
        types: &around.types,
    };
    run(heap, &mut around.roots, &mut trace);
    Ok(second_size(heap, &around.roots))
}

/// Writes the size of the second struct, which is found by the first, and what is left.
pub(crate) fn show_untyped(alloc: Global, page: &mut Page) {
    let mut heap = CopyingHeap::new(alloc);
    match collect_three(&mut heap, alloc) {
        Ok(size) => {
            let (objects, bytes) = (heap.object_count(), heap.allocated_bytes());
            writeln!(
                page,
                "structs of undeclared type: {size:?}, {objects} objects, {bytes} bytes"
            )
        }
        Err(fault) => writeln!(page, "{fault}"),
    }
}
