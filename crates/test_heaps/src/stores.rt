//! A heap with a host table, in which an object of each kind is made.

ghost use Rattle.std.specs.Prelude.{◌≡◌, true, OnOk};
ghost use Rattle.std.specs.FinMap as map;
ghost use Rattle.gc_view.specs.Heaps.{detached_in};
ghost use Rattle.test_heaps.specs.Names.{HasNames};

use crate::fault::TestFault;
use crate::page::Page;
use crate::types::{BYTES, EXCEPTION, PAIR, declare};
use gc_heap::{GcHeap, HeapFault, HeapMemory};
use gc_raw_store::{GcStore, RefBarriers};
use gc_refs::{VMGcHeader, VMGcRef};
use gc_types::{Types, VMGcKind, VMSharedTypeIndex};
use std::alloc::Global;

/// The bytes of a struct of one word, in the heap whose header is longest.
const ONE_WORD: u32 = 32;

/// The length of the array.
const LENGTH: u32 = 3;

/// Copies a reference and gives the copy up.
fn copy_and_drop<H: GcHeap, R: RefBarriers>(store: &mut GcStore<H, u32>, r: &R)
    requires { HasNames store.old.heap (R.word r.now) 1 }
    ensures { HasNames store.new.heap (R.word r.now) 1 }
{
    let copy = RefBarriers::clone(r, store);
    RefBarriers::drop(copy, store)
}

/// Makes a struct.
fn make_struct<H: GcHeap>(
    store: &mut GcStore<H, u32>,
    types: &Types,
    ty: VMSharedTypeIndex,
) -> Result<VMGcRef, TestFault> {
    let Some(layout) = types.struct_layout(H::KIND, ty) else {
        return Err(TestFault::NoObject);
    };
    if layout.is_exception {
        return Err(TestFault::NoObject);
    }
    match store.alloc_uninit_struct(ty, layout)? {
        Ok(object) => Ok(VMGcRef::from(object)),
        Err(_) => Err(TestFault::NoRoom),
    }
}

/// Makes an array.
fn make_array<H: GcHeap>(
    store: &mut GcStore<H, u32>,
    types: &Types,
    ty: VMSharedTypeIndex,
) -> Result<u32, TestFault> {
    let Some(layout) = types.array_layout(H::KIND, ty) else {
        return Err(TestFault::NoObject);
    };
    match store.alloc_uninit_array(ty, LENGTH, layout)? {
        Ok(array) => Ok(array.as_gc_ref().as_raw_u32()),
        Err(_) => Err(TestFault::NoRoom),
    }
}

/// Makes an exception.
fn make_exception<H: GcHeap>(
    store: &mut GcStore<H, u32>,
    types: &Types,
    ty: VMSharedTypeIndex,
) -> Result<u32, TestFault> {
    let Some(layout) = types.struct_layout(H::KIND, ty) else {
        return Err(TestFault::NoObject);
    };
    if !layout.is_exception {
        return Err(TestFault::NoObject);
    }
    match store.alloc_uninit_exn(ty, layout)? {
        Ok(object) => Ok(object.as_gc_ref().as_raw_u32()),
        Err(_) => Err(TestFault::NoRoom),
    }
}

/// Makes a struct of `ONE_WORD` bytes by its header alone.
fn make_raw<H: GcHeap>(store: &mut GcStore<H, u32>) -> Result<u32, TestFault> {
    let header = VMGcHeader::from_kind_and_index(VMGcKind::StructRef, VMSharedTypeIndex::new(PAIR));
    match store.alloc_raw(header, ONE_WORD)? {
        Ok(object) => Ok(object.as_raw_u32()),
        Err(_) => Err(TestFault::NoRoom),
    }
}

/// Makes an external object, and copies and drops its word.
fn make_external<H: GcHeap>(store: &mut GcStore<H, u32>) -> Result<u32, TestFault> {
    store.is_stored();
    match store.alloc_externref(7) {
        Ok(Ok(external)) => {
            copy_and_drop(store, &external);
            Ok(external.as_gc_ref().as_raw_u32())
        }
        Ok(Err(_)) => Err(TestFault::NoRoom),
        Err(fault) => Err(TestFault::Heap(fault)),
    }
}

/// The first word of a struct's data.
fn first_word<H: GcHeap>(store: &GcStore<H, u32>, object: &VMGcRef) -> Option<u32> {
    let data = store.gc_object_data(object).ok()?;
    data.read_u32(H::KIND.struct_base()).ok()
}

/// Makes an object of each kind, and writes where each lies, and the first word of the first.
fn show_made<H: GcHeap>(
    store: &mut GcStore<H, u32>,
    types: &Types,
    page: &mut Page,
) -> Result<(), TestFault> {
    let object = make_struct(store, types, VMSharedTypeIndex::new(PAIR))?;
    let array = make_array(store, types, VMSharedTypeIndex::new(BYTES))?;
    let exception = make_exception(store, types, VMSharedTypeIndex::new(EXCEPTION))?;
    let raw = make_raw(store)?;
    let external = make_external(store)?;
    let (place, first) = (object.as_raw_u32(), first_word(store, &object));
    write!(page, "struct {place} with {first:?}, array {array}, ");
    Ok(write!(
        page,
        "exception {exception}, by its header {raw}, external {external}"
    ))
}

/// Gives a new heap a page whose bytes aren't 0 where the data of the first struct begin.
fn attach_written<H: GcHeap>(heap: &mut H, alloc: Global) -> Result<(), TestFault>
    requires sound { H.sound heap.old }
    requires detached { H.seen heap.old ≡ detached_in 0 }
    ensures sound { H.sound heap.new }
    ensures attached { OnOk result ((H.seen heap.new).attached ≡ true) }
    ensures empty { OnOk result ((H.seen heap.new).content ≡ map.empty) }
{
    let mut memory = HeapMemory::new(alloc, 1)?;
    // (in the null, the copying and the counting heap)
    memory.write_u32(24, u32::MAX);
    memory.write_u32(28, u32::MAX);
    memory.write_u32(44, u32::MAX);
    match heap.attach(memory) {
        Ok(()) => Ok(()),
        Err(_) => Err(TestFault::Heap(HeapFault::Memory)),
    }
}

/// A store over a new heap of one page.
fn new_store<H: GcHeap + Drop>(alloc: Global) -> Result<GcStore<H, u32>, TestFault> {
    let mut heap = H::unattached(alloc);
    match attach_written(&mut heap, alloc) {
        Ok(()) => Ok(GcStore::new(alloc, heap)),
        Err(fault) => Err(fault),
    }
}

/// Makes an object of each kind in a new store.
fn run_store<H: GcHeap + Drop>(
    alloc: Global,
    types: &Types,
    page: &mut Page,
) -> Result<(), TestFault> {
    let mut store = new_store::<H>(alloc)?;
    show_made(&mut store, types, page)
}

/// Makes an object of each kind in a new store, with types of its own.
fn run_typed<H: GcHeap + Drop>(alloc: Global, page: &mut Page) -> Result<(), TestFault> {
    let types = declare(alloc)?;
    run_store::<H>(alloc, &types, page)
}

/// Makes an object of each kind in a new store, or writes why not.
pub(crate) fn show_store<H: GcHeap + Drop>(alloc: Global, page: &mut Page) {
    if let Err(fault) = run_typed::<H>(alloc, page) {
        write!(page, "{fault}")
    }
}
