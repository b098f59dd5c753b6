//! What a held object is.

ghost use Rattle.std.specs.Prelude.{◌≡◌, Some};
ghost use Rattle.std.specs.FinMap as finite;
ghost use Rattle.gc_types.specs.declared.kind.VMGcKind.{VMGcKind};
ghost use Rattle.gc_types.specs.declared.kind.VMGcKind.TheVariants.{ArrayRef, ExnRef};
ghost use Rattle.gc_refs.specs.Header.{IsOfKind};
ghost use Rattle.gc_view.specs.Heaps.{HeapObject};
ghost use Rattle.gc_heap.specs.Objects.{array_length};
ghost use Rattle.gc_heap.specs.Content.{IsHeld};
ghost use Rattle.gc_values.specs.Described.{TellsHeld, tag_of};

use crate::root::RootedObject;
use gc_heap::GcHeap;
use gc_heap::access::{header_of, read_u32};
use gc_refs::{VMArrayRef, VMGcHeader, VMGcRef};
use gc_types::{Tag, VMGcKind};

/// The kind of the object behind a header.
fn kind_of(header: &VMGcHeader) -> VMGcKind
    requires { (kind : VMGcKind) × IsOfKind kind header.now.kind_word }
    ensures { IsOfKind result header.now.kind_word }
{
    header.kind().unwrap()
}

/// The length of a held array.
fn length_of<H: GcHeap>(heap: &H, gc_ref: &VMGcRef) -> u32
    requires sound { H.sound heap.now }
    requires held { (o : HeapObject) × ((finite.get (H.seen heap.now).content gc_ref.now ≡ Some o) × (o.kind ≡ ArrayRef)) }
    ensures { (o : HeapObject) → finite.get (H.seen heap.now).content gc_ref.now ≡ Some o → result ≡ array_length o }
{
    let array = VMArrayRef::new_unchecked(gc_ref.unchecked_copy());
    heap.array_len(&array).unwrap()
}

/// The tag of a held exception, whose two words stand in front of its fields.
fn tag_of<H: GcHeap>(heap: &H, gc_ref: &VMGcRef) -> Tag
    requires sound { H.sound heap.now }
    requires held { (o : HeapObject) × ((finite.get (H.seen heap.now).content gc_ref.now ≡ Some o) × (o.kind ≡ ExnRef)) }
    ensures { (o : HeapObject) → finite.get (H.seen heap.now).content gc_ref.now ≡ Some o → result ≡ tag_of o }
{
    let base = H::KIND.struct_base();
    Tag {
        instance: read_u32(heap, gc_ref, base),
        index: read_u32(heap, gc_ref, base + 4),
    }
}

/// What a held object is.
#[inline(always)]
pub fn describe_held<H: GcHeap>(heap: &H, gc_ref: &VMGcRef) -> RootedObject
    requires sound { H.sound heap.now }
    requires held { IsHeld (H.seen heap.now) gc_ref.now }
    ensures { TellsHeld (H.seen heap.now) gc_ref.now result }
{
    let header = header_of(heap, gc_ref);
    let ty = header.type_index();
    match kind_of(&header) {
        VMGcKind::StructRef => RootedObject::Struct(ty),
        VMGcKind::ArrayRef => RootedObject::Array(ty, length_of(heap, gc_ref)),
        VMGcKind::ExnRef => RootedObject::Exn(ty, tag_of(heap, gc_ref)),
        VMGcKind::ExternRef => RootedObject::Host,
        VMGcKind::AnyRef => unreachable!(),
        VMGcKind::EqRef => unreachable!(),
    }
}
