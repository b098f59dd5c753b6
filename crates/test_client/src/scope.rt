//! A scope in which no collection may begin, and a heap whose memory is taken away.

ghost use Rattle.std.specs.Prelude.{◌≡◌, true, OnOk};
ghost use Rattle.gc_view.specs.Heaps.{detached_in};
ghost use Rattle.gc_view.specs.Pages.{page};
ghost use Rattle.gc_heap.specs.Heap.{empty_heap};
ghost use Rattle.test_client.specs.Made.{StaysOpen};

use crate::allocation::{give_array_back, give_struct_back, make_raw, make_with_spare};
use crate::fault::ClientFault;
use gc_heap::{GcHeap, HeapFault, HeapMemory};
use gc_types::{Types, VMSharedTypeIndex};
use std::alloc::Global;

/// What a scope did in an empty heap of one page.
#[derive(Clone, Copy, Debug, PartialEq, Eq)]
pub struct Scoped {
    /// Where a struct and an array lay that were given back.
    pub given_back: [u32; 2],
    /// The spare bits of a struct's header after they were set.
    pub spare: u32,
    /// How many objects and bytes were allocated at the end of the scope.
    pub objects: u64,
    pub bytes: usize,
    /// How many bytes a struct that found no room wanted; none where no heap of the kind can hold it.
    pub wanted: Option<u64>,
    /// How many bytes the memory had that was taken away.
    pub memory: usize,
}

/// Gives a new heap one page.
pub fn attach_page<H: GcHeap>(heap: &mut H, alloc: Global) -> Result<(), ClientFault>
    requires sound { H.sound heap.old }
    requires detached { H.seen heap.old ≡ detached_in 0 }
    ensures sound { H.sound heap.new }
    ensures empty { OnOk result (H.seen heap.new ≡ empty_heap H.KIND page 0) }
{
    let Ok(memory) = HeapMemory::new(alloc, 1) else {
        return Err(ClientFault::Memory);
    };
    match heap.attach(memory) {
        Ok(()) => Ok(()),
        Err(_) => Err(ClientFault::Memory),
    }
}

/// How many bytes a struct of so many bytes wants; none where no heap of the kind can hold it.
fn wanted<H: GcHeap>(heap: &mut H, size: u32) -> Result<Option<u64>, ClientFault>
    requires sound { H.sound heap.old }
    requires attached { (H.seen heap.old).attached ≡ true }
    ensures sound { H.sound heap.new }
    ensures stays { StaysOpen (H.seen heap.old) (H.seen heap.new) }
{
    if size < LEAST {
        return Err(ClientFault::TooSmall);
    }
    match make_raw(heap, size) {
        Ok(Ok(_)) => Err(ClientFault::HadRoom),
        Ok(Err(need)) => Ok(Some(need)),
        Err(HeapFault::TooLarge) => Ok(None),
        Err(HeapFault::Memory) => Err(ClientFault::Memory),
    }
}

/// The bytes of a struct without fields, in the heap whose header is longest.
const LEAST: u32 = 28;

/// Opens a scope, makes objects in it of which some are given back, asks for more room than there is, and
/// closes the scope.
fn in_scope<H: GcHeap>(
    heap: &mut H,
    types: &Types,
    structs: VMSharedTypeIndex,
    arrays: VMSharedTypeIndex,
    spare: u32,
    size: u32,
) -> Result<Scoped, ClientFault>
    requires sound { H.sound heap.old }
    requires attached { (H.seen heap.old).attached ≡ true }
    requires none { (H.seen heap.old).scopes ≡ 0 }
    ensures sound { H.sound heap.new }
    ensures stays { OnOk result (StaysOpen (H.seen heap.old) (H.seen heap.new)) }
{
    heap.enter_no_gc_scope();
    let at_struct = give_struct_back(heap, types, structs)?;
    let at_array = give_array_back(heap, types, arrays, 3)?;
    let spare = make_with_spare(heap, types, structs, spare)?;
    let wanted = wanted(heap, size)?;
    let objects = heap.object_count();
    let bytes = heap.allocated_bytes();
    heap.exit_no_gc_scope();
    Ok(Scoped {
        given_back: [at_struct, at_array],
        spare,
        objects,
        bytes,
        wanted,
        memory: 0,
    })
}

/// Gives a new heap a page, opens a scope in it, and takes the memory away, with all objects. The struct
/// whose header is set gets these spare bits, and a struct of so many bytes finds no room.
pub fn run_scope<H: GcHeap>(
    heap: &mut H,
    alloc: Global,
    types: &Types,
    structs: VMSharedTypeIndex,
    arrays: VMSharedTypeIndex,
    spare: u32,
    size: u32,
) -> Result<Scoped, ClientFault>
    requires sound { H.sound heap.old }
    requires detached { H.seen heap.old ≡ detached_in 0 }
    ensures sound { H.sound heap.new }
    ensures detached { OnOk result (H.seen heap.new ≡ detached_in 0) }
{
    attach_page(heap, alloc)?;
    let scoped = in_scope(heap, types, structs, arrays, spare, size)?;
    let memory = heap.detach();
    Ok(Scoped {
        memory: memory.byte_size(),
        ..scoped
    })
}
