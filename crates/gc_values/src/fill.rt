//! The values of a new object, which are all 0 before.

ghost use Rattle.std.specs.Prelude.{◌≡◌, ◌<◌, ◌%◌, ℕ, true, Some, None, length, slice_index_or};
ghost use Rattle.gc_types.specs.Declarations.{shape_at, shape_elem};
ghost use Rattle.gc_values.specs.declared.stored.Stored.TheVariants as kept;
ghost use Rattle.gc_values.specs.HeldSlots.{storage_slot};
ghost use Rattle.gc_values.specs.Interning.{ids_of};
ghost use Rattle.gc_values.specs.Filling.{CanFill, FillsNew, FillsAs, IsOfAskedKind, front_of, EachFits, EachStands, SameFits, SameStands, BytesFit, BytesStand};
ghost use Rattle.gc_values.specs.Filling.{asked_type, AreElements, FillsAll, IsWidth};

use crate::interned::InternedValues;
use crate::request::{DeclaredType, Place};
use crate::root::RawValue;
use crate::slot::{Slot, element_slot, field_slots, slot_at};
use crate::sources::ValueSource;
use crate::stored::{Stored, stored_value, write_slot};
use crate::tag::write_tag;
use gc_heap::GcHeap;
use gc_owner::HeapOwner;
use gc_refs::VMGcRef;
use gc_types::{FieldType, TypeShape};

/// How many bytes the greatest number has: a multiple of each width.
const BLOCK: usize = 16;

/// How many bytes of equal elements are written at once: a multiple of a block's.
const CHUNK: usize = 256;

/// Writes each value into the element of its index.
#[inline(always)]
fn write_each_element<H: GcHeap, D: Drop, V: ValueSource>(
    owner: &mut HeapOwner<H, D>,
    interned: &InternedValues,
    gc_ref: &VMGcRef,
    ty: &DeclaredType<'_>,
    element: &FieldType,
    values: &V,
)
    requires idle { owner.old.seen.idle ≡ true }
    requires listed { shape_at owner.old.seen.types.declarations ty.now.index ≡ Some ty.now.shape.now }
    requires element { shape_elem ty.now.shape.now ≡ Some element.now }
    requires can { CanFill H.KIND owner.old.seen gc_ref.now ty.now.index (EachFits (ids_of interned.now) (V.given values.now)) }
    ensures { FillsNew H.KIND owner.old.seen owner.new.seen gc_ref.now ty.now.index
        (EachFits (ids_of interned.now) (V.given values.now)) (EachStands (ids_of interned.now) (V.given values.now)) }
{
    for index in 0..values.count() {
        owner.is_ready();
        let slot = element_slot(ty.shape, H::KIND, index as u32, *element);
        values.write_at(owner, interned, gc_ref, &slot, index);
    }
}

/// Writes each value into the field of its index.
#[inline(always)]
fn write_each_field<H: GcHeap, D: Drop, V: ValueSource>(
    owner: &mut HeapOwner<H, D>,
    interned: &InternedValues,
    gc_ref: &VMGcRef,
    ty: &DeclaredType<'_>,
    values: &V,
)
    requires idle { owner.old.seen.idle ≡ true }
    requires listed { shape_at owner.old.seen.types.declarations ty.now.index ≡ Some ty.now.shape.now }
    requires no_array { shape_elem ty.now.shape.now ≡ None }
    requires can { CanFill H.KIND owner.old.seen gc_ref.now ty.now.index (EachFits (ids_of interned.now) (V.given values.now)) }
    ensures { FillsNew H.KIND owner.old.seen owner.new.seen gc_ref.now ty.now.index
        (EachFits (ids_of interned.now) (V.given values.now)) (EachStands (ids_of interned.now) (V.given values.now)) }
{
    let slots = field_slots(ty.shape, H::KIND);
    for index in 0..values.count() {
        owner.is_ready();
        let slot = slots.at(index as u32);
        values.write_at(owner, interned, gc_ref, &slot, index);
    }
}

/// The first bytes, as often as they go into a block.
fn repeat_in_block(bytes: &[u8; BLOCK], width: usize) -> [u8; BLOCK]
    requires { IsWidth width }
    ensures size { length result ≡ 16 }
    ensures same { (k : ℕ) → k < 16 → slice_index_or result k 0 ≡ slice_index_or bytes.now (k % width) 0 }
{
    let mut block = [0; BLOCK];
    for at in 0..BLOCK {
        block[at] = bytes[at % width];
    }
    block
}

/// The first bytes, over and over.
fn repeat(bytes: &[u8; BLOCK], width: usize) -> [u8; CHUNK]
    requires { IsWidth width }
    ensures size { length result ≡ 256 }
    ensures same { (k : ℕ) → k < 256 → slice_index_or result k 0 ≡ slice_index_or bytes.now (k % width) 0 }
{
    let block = repeat_in_block(bytes, width);
    let mut chunk = [0; CHUNK];
    for index in 0..CHUNK / BLOCK {
        let at = BLOCK * index;
        chunk[at..at + BLOCK].copy_from_slice(&block);
    }
    chunk
}

/// Writes a number into so many elements of an array that follow each other from one on.
fn write_numbers<H: GcHeap, D: Drop>(
    owner: &mut HeapOwner<H, D>,
    gc_ref: &VMGcRef,
    first: &Slot,
    count: u32,
    number: u128,
)
    requires idle { owner.old.seen.idle ≡ true }
    requires can { AreElements H.KIND owner.old.seen gc_ref.now (storage_slot first.now) count (kept.Number number) }
    ensures { FillsAll H.KIND owner.old.seen owner.new.seen gc_ref.now (storage_slot first.now) count (kept.Number number) }
{
    owner.is_ready();
    let width = first.storage.width();
    let bytes = number.to_le_bytes();
    if bytes[..width as usize] == [0; 16][..width as usize] {
        return;
    }
    let chunk = repeat(&bytes, width as usize);
    let most = CHUNK as u32 / width;
    let mut done = 0;
    while done < count {
        owner.is_ready();
        let more = most.min(count - done);
        let part = &chunk[..(more * width) as usize];
        owner.write_number(gc_ref, first.offset + done * width, part);
        done += more;
    }
}

/// Writes a reference into so many elements of an array that follow each other from one on.
fn write_references<H: GcHeap, D: Drop>(
    owner: &mut HeapOwner<H, D>,
    gc_ref: &VMGcRef,
    first: &Slot,
    count: u32,
    word: u32,
)
    requires idle { owner.old.seen.idle ≡ true }
    requires can { AreElements H.KIND owner.old.seen gc_ref.now (storage_slot first.now) count (kept.Ref word) }
    ensures { FillsAll H.KIND owner.old.seen owner.new.seen gc_ref.now (storage_slot first.now) count (kept.Ref word) }
{
    if word == 0 {
        return;
    }
    let width = first.storage.width();
    for index in 0..count {
        owner.is_ready();
        let slot = Slot {
            storage: first.storage,
            offset: first.offset + index * width,
        };
        write_slot(owner, gc_ref, &slot, Stored::Ref(word));
    }
}

/// Writes what is kept of a value into so many elements of an array that follow each other from one on.
fn write_elements<H: GcHeap, D: Drop>(
    owner: &mut HeapOwner<H, D>,
    gc_ref: &VMGcRef,
    first: &Slot,
    count: u32,
    stored: Stored,
)
    requires idle { owner.old.seen.idle ≡ true }
    requires can { AreElements H.KIND owner.old.seen gc_ref.now (storage_slot first.now) count stored }
    ensures { FillsAll H.KIND owner.old.seen owner.new.seen gc_ref.now (storage_slot first.now) count stored }
{
    match stored {
        Stored::Number(number) => write_numbers(owner, gc_ref, first, count, number),
        Stored::Ref(word) => write_references(owner, gc_ref, first, count, word),
    }
}

/// Writes one value into all elements of a new array, of which there are so many.
pub(crate) fn write_same<H: GcHeap, D: Drop>(
    owner: &mut HeapOwner<H, D>,
    interned: &InternedValues,
    gc_ref: &VMGcRef,
    ty: &DeclaredType<'_>,
    count: u32,
    value: RawValue,
)
    requires idle { owner.old.seen.idle ≡ true }
    requires listed { shape_at owner.old.seen.types.declarations ty.now.index ≡ Some ty.now.shape.now }
    requires can { CanFill H.KIND owner.old.seen gc_ref.now ty.now.index (SameFits (ids_of interned.now) value count) }
    ensures { FillsNew H.KIND owner.old.seen owner.new.seen gc_ref.now ty.now.index
        (SameFits (ids_of interned.now) value count) (SameStands (ids_of interned.now) value) }
{
    if count == 0 {
        return;
    }
    owner.is_ready();
    let first = slot_at(ty.shape, H::KIND, 0);
    let stored = stored_value(interned, owner.scoped(), owner.owned(), &value);
    write_elements(owner, gc_ref, &first, count, stored);
}

/// Writes the elements of a new array of bytes.
pub(crate) fn write_bytes<H: GcHeap, D: Drop>(
    owner: &mut HeapOwner<H, D>,
    gc_ref: &VMGcRef,
    ty: &DeclaredType<'_>,
    bytes: &[u8],
)
    requires idle { owner.old.seen.idle ≡ true }
    requires listed { shape_at owner.old.seen.types.declarations ty.now.index ≡ Some ty.now.shape.now }
    requires can { CanFill H.KIND owner.old.seen gc_ref.now ty.now.index (BytesFit bytes.now) }
    ensures { FillsNew H.KIND owner.old.seen owner.new.seen gc_ref.now ty.now.index (BytesFit bytes.now) (BytesStand bytes.now) }
{
    if bytes.is_empty() {
        return;
    }
    owner.is_ready();
    let first = slot_at(ty.shape, H::KIND, 0);
    owner.write_number(gc_ref, first.offset, bytes);
}

/// Gives a new object of that request a value for each field or element, and an exception its tag.
#[inline(always)]
pub(crate) fn fill_each<H: GcHeap, D: Drop, V: ValueSource>(
    owner: &mut HeapOwner<H, D>,
    interned: &InternedValues,
    gc_ref: &VMGcRef,
    request: &Place,
    shape: &TypeShape,
    values: &V,
)
    requires idle { owner.old.seen.idle ≡ true }
    requires listed { shape_at owner.old.seen.types.declarations (asked_type request.now) ≡ Some shape.now }
    requires can { CanFill H.KIND owner.old.seen gc_ref.now (asked_type request.now) (EachFits (ids_of interned.now) (V.given values.now)) }
    requires kind { IsOfAskedKind request.now owner.old.seen.heap gc_ref.now }
    ensures { FillsAs H.KIND (front_of H.KIND request.now) owner.old.seen owner.new.seen gc_ref.now (asked_type request.now)
        (EachFits (ids_of interned.now) (V.given values.now)) (EachStands (ids_of interned.now) (V.given values.now)) }
{
    match *request {
        Place::Struct(index) => {
            let ty = DeclaredType { index, shape };
            write_each_field(owner, interned, gc_ref, &ty, values);
        }
        Place::Array(index, _) => {
            let ty = DeclaredType { index, shape };
            let element = shape.elem_type().unwrap();
            write_each_element(owner, interned, gc_ref, &ty, element, values);
        }
        Place::Exn(index, tag) => {
            write_tag(owner, gc_ref, tag);
            let ty = DeclaredType { index, shape };
            write_each_field(owner, interned, gc_ref, &ty, values);
        }
    }
}
