//! Objects that a client makes, and what it does with them before it gives them up.

ghost use Rattle.std.specs.Prelude.{◌≡◌, ◌≤◌, true, IfOk, OnErr};
ghost use Rattle.gc_heap.specs.Content.{IsHeld};
ghost use Rattle.test_client.specs.Made.{MadeStruct, MadeArray, StaysOpen};

use crate::fault::ClientFault;
use gc_heap::{GcHeap, HeapFault};
use gc_refs::{VMArrayRef, VMGcHeader, VMGcRef};
use gc_types::{Types, VMGcKind, VMSharedTypeIndex};

/// How many numbers the spare bits of a header tell apart.
const SPARE: u32 = 0x0400_0000;

/// Makes a struct or an exception of a declared type.
pub(crate) fn make_struct<H: GcHeap>(
    heap: &mut H,
    types: &Types,
    ty: VMSharedTypeIndex,
) -> Result<VMGcRef, ClientFault>
    requires sound { H.sound heap.old }
    requires attached { (H.seen heap.old).attached ≡ true }
    ensures sound { H.sound heap.new }
    ensures made { IfOk result (λ place. MadeStruct H.KIND types.now.declarations ty (H.seen heap.old) (H.seen heap.new) place) }
    ensures err { OnErr result (H.seen heap.new ≡ H.seen heap.old) }
{
    let Some(layout) = types.struct_layout(H::KIND, ty) else {
        return Err(ClientFault::NoType);
    };
    match heap.alloc_uninit_struct_or_exn(ty, layout) {
        Ok(Ok(object)) => Ok(object),
        Ok(Err(need)) => Err(ClientFault::NoRoom(need)),
        Err(fault) => Err(ClientFault::Heap(fault)),
    }
}

/// Makes an array of a declared type.
fn make_array<H: GcHeap>(
    heap: &mut H,
    types: &Types,
    ty: VMSharedTypeIndex,
    length: u32,
) -> Result<VMArrayRef, ClientFault>
    requires sound { H.sound heap.old }
    requires attached { (H.seen heap.old).attached ≡ true }
    ensures sound { H.sound heap.new }
    ensures made { IfOk result (λ place. MadeArray H.KIND types.now.declarations ty length (H.seen heap.old) (H.seen heap.new) place) }
    ensures err { OnErr result (H.seen heap.new ≡ H.seen heap.old) }
{
    let Some(layout) = types.array_layout(H::KIND, ty) else {
        return Err(ClientFault::NoType);
    };
    match heap.alloc_uninit_array(ty, length, layout) {
        Ok(Ok(array)) => Ok(array),
        Ok(Err(need)) => Err(ClientFault::NoRoom(need)),
        Err(fault) => Err(ClientFault::Heap(fault)),
    }
}

/// Makes a struct or an exception, and gives it back unused. Where it lay.
pub fn give_struct_back<H: GcHeap>(
    heap: &mut H,
    types: &Types,
    ty: VMSharedTypeIndex,
) -> Result<u32, ClientFault>
    requires sound { H.sound heap.old }
    requires attached { (H.seen heap.old).attached ≡ true }
    ensures sound { H.sound heap.new }
    ensures stays { StaysOpen (H.seen heap.old) (H.seen heap.new) }
{
    match make_struct(heap, types, ty) {
        Ok(object) => {
            let place = object.as_raw_u32();
            heap.dealloc_uninit_struct_or_exn(object);
            Ok(place)
        }
        Err(fault) => Err(fault),
    }
}

/// Makes an array, and gives it back unused. Where it lay.
pub fn give_array_back<H: GcHeap>(
    heap: &mut H,
    types: &Types,
    ty: VMSharedTypeIndex,
    length: u32,
) -> Result<u32, ClientFault>
    requires sound { H.sound heap.old }
    requires attached { (H.seen heap.old).attached ≡ true }
    ensures sound { H.sound heap.new }
    ensures stays { StaysOpen (H.seen heap.old) (H.seen heap.new) }
{
    match make_array(heap, types, ty, length) {
        Ok(array) => {
            let place = array.as_gc_ref().as_raw_u32();
            heap.dealloc_uninit_array(array);
            Ok(place)
        }
        Err(fault) => Err(fault),
    }
}

/// Sets the spare bits of a held object's header, and tells those that the header has then.
fn set_spare<H: GcHeap>(heap: &mut H, object: &VMGcRef, spare: u32) -> Result<u32, ClientFault>
    requires sound { H.sound heap.old }
    requires held { IsHeld (H.seen heap.old) object.now }
    ensures sound { H.sound heap.new }
    ensures stays { StaysOpen (H.seen heap.old) (H.seen heap.new) }
{
    if spare >= SPARE {
        return Err(ClientFault::TooManyBits);
    }
    let mut header = match heap.header(object) {
        Ok(header) => header,
        Err(fault) => return Err(ClientFault::Reference(fault)),
    };
    header.set_reserved_u26(spare);
    match heap.set_header(object, header) {
        Ok(()) => match heap.header(object) {
            Ok(header) => Ok(header.reserved_u26()),
            Err(fault) => Err(ClientFault::Reference(fault)),
        },
        Err(fault) => Err(ClientFault::Reference(fault)),
    }
}

/// Makes a struct or an exception, sets the spare bits of its header, and tells those that it has then.
pub fn make_with_spare<H: GcHeap>(
    heap: &mut H,
    types: &Types,
    ty: VMSharedTypeIndex,
    spare: u32,
) -> Result<u32, ClientFault>
    requires sound { H.sound heap.old }
    requires attached { (H.seen heap.old).attached ≡ true }
    ensures sound { H.sound heap.new }
    ensures stays { StaysOpen (H.seen heap.old) (H.seen heap.new) }
{
    match make_struct(heap, types, ty) {
        Ok(object) => set_spare(heap, &object, spare),
        Err(fault) => Err(fault),
    }
}

/// What an allocation of a struct of so many bytes, of an undeclared type without references, answers.
pub fn make_raw<H: GcHeap>(heap: &mut H, size: u32) -> Result<Result<VMGcRef, u64>, HeapFault>
    requires sound { H.sound heap.old }
    requires attached { (H.seen heap.old).attached ≡ true }
    requires least { 28 ≤ size }
    ensures sound { H.sound heap.new }
    ensures stays { StaysOpen (H.seen heap.old) (H.seen heap.new) }
{
    let header = VMGcHeader::from_kind_and_index(VMGcKind::StructRef, VMSharedTypeIndex::new(0));
    heap.alloc_raw(header, size)
}
