//! What a slot of an object keeps of a value.

ghost use Rattle.std.specs.Prelude.{◌≡◌, true};
ghost use Rattle.std.specs.Int.{bytes_low_first};
ghost use Rattle.gc_types.specs.Layouts.{storage_width, value_width};
ghost use Rattle.gc_model.specs.Forms.{top_form, type_form, storage_form};
ghost use Rattle.gc_heap.specs.Access.{IsReadable};
ghost use Rattle.gc_values.specs.declared.stored.Stored.TheVariants as kept;
ghost use Rattle.gc_values.specs.Kept.{kept_code, raw_form, KeptAs, CanBeKept, FitsForm, IsFound};
ghost use Rattle.gc_values.specs.Words.{AreOwnedRising};
ghost use Rattle.gc_values.specs.Interning.{ids_of};
ghost use Rattle.gc_values.specs.HeldSlots.{storage_slot, CanWriteSlot, WritesAt, CanWriteKept, WritesKept, FindsAt, FitsAt};

use crate::interned::InternedValues;
use crate::root::RawValue;
use crate::slot::Slot;
use crate::word::word_at;
use gc_heap::GcHeap;
use gc_heap::access::{read_u8, read_u16, read_u32, read_u64, read_v128};
use gc_owner::{GcClass, HeapOwner, OwnedEntry, RootEntry};
use gc_refs::VMGcRef;
use gc_types::{HeapTopType, StorageType, ValType};

/// What is kept of a value: a number, of which a slot has the low bytes, as that of a function value or a continuation, or
/// the word of a reference, which is 0 for null.
#[derive(Clone, Copy)]
pub enum Stored {
    Number(u128),
    Ref(u32),
}

/// What lies in a slot: a number, the number that stands for a function value or a continuation, or a reference's class and
/// word.
#[derive(Clone, Copy)]
pub enum Found {
    Number(RawValue),
    Func(u32),
    Cont(u32),
    Ref(GcClass, u32),
}

/// What is kept of a value; of a function value or a continuation that is interned its number, of a reference the word that
/// its root has now.
#[inline(always)]
pub fn stored_value(
    interned: &InternedValues,
    scoped: &[RootEntry],
    owned: &[OwnedEntry],
    value: &RawValue,
) -> Stored
    requires rising { AreOwnedRising owned.now }
    requires kept { CanBeKept (ids_of interned.now) (record { scoped = scoped.now; owned = owned.now }) value.now }
    ensures kept { KeptAs (ids_of interned.now) (record { scoped = scoped.now; owned = owned.now }) value.now result }
    ensures small { FitsForm (raw_form value.now) (kept_code result) }
{
    match value {
        RawValue::I32(number) => Stored::Number(u128::from(number.cast_unsigned())),
        RawValue::I64(number) => Stored::Number(u128::from(number.cast_unsigned())),
        RawValue::F32(bits) => Stored::Number(u128::from(*bits)),
        RawValue::F64(bits) => Stored::Number(u128::from(*bits)),
        RawValue::V128(vector) => Stored::Number(vector.as_u128()),
        RawValue::Func(func) => match interned.functions.id_of(*func) {
            Some(id) => Stored::Number(u128::from(id.into_raw())),
            None => unreachable!(),
        },
        RawValue::Cont(None) => Stored::Number(0),
        RawValue::Cont(Some(cont)) => match interned.conts.id_of(*cont) {
            Some(code) => Stored::Number(u128::from(code)),
            None => unreachable!(),
        },
        RawValue::Ref(_, None) => Stored::Ref(0),
        RawValue::Ref(_, Some(handle)) => {
            match word_at(scoped, owned, handle.slot, handle.generation) {
                Ok(word) => Stored::Ref(word),
                Err(_) => unreachable!(),
            }
        }
    }
}

/// Writes the low bytes of a number, as many as the slot has, into a slot of a held object. Of the usual widths they are those
/// of a smaller number, which is written as one.
#[inline(always)]
fn write_low_bytes<H: GcHeap, D: Drop>(
    owner: &mut HeapOwner<H, D>,
    gc_ref: &VMGcRef,
    slot: &Slot,
    number: u128,
)
    requires idle { owner.old.seen.idle ≡ true }
    requires can { CanWriteSlot H.KIND owner.old.seen gc_ref.now (storage_slot slot.now) (kept.Number number) }
    ensures { WritesAt H.KIND owner.old.seen owner.new.seen gc_ref.now slot.now.offset (bytes_low_first 0 (storage_width slot.now.storage) number) }
{
    owner.is_ready();
    let width = slot.storage.width();
    match width {
        1 => {
            let low = (number % 0x100) as u8;
            owner.write_number(gc_ref, slot.offset, &low.to_le_bytes());
        }
        4 => {
            let low = (number % 0x1_0000_0000) as u32;
            owner.write_number(gc_ref, slot.offset, &low.to_le_bytes());
        }
        8 => {
            let low = (number % 0x1_0000_0000_0000_0000) as u64;
            owner.write_number(gc_ref, slot.offset, &low.to_le_bytes());
        }
        _ => {
            let bytes = number.to_le_bytes();
            owner.write_number(gc_ref, slot.offset, &bytes[..width as usize]);
        }
    }
}

/// Writes a slot of a held object.
#[inline(always)]
pub fn write_slot<H: GcHeap, D: Drop>(
    owner: &mut HeapOwner<H, D>,
    gc_ref: &VMGcRef,
    slot: &Slot,
    stored: Stored,
)
    requires idle { owner.old.seen.idle ≡ true }
    requires can { CanWriteSlot H.KIND owner.old.seen gc_ref.now (storage_slot slot.now) stored }
    ensures { WritesAt H.KIND owner.old.seen owner.new.seen gc_ref.now slot.now.offset (bytes_low_first 0 (storage_width slot.now.storage) (kept_code stored)) }
{
    owner.is_ready();
    match stored {
        Stored::Number(number) => write_low_bytes(owner, gc_ref, slot, number),
        Stored::Ref(word) => owner.write_reference(gc_ref, slot.offset, word),
    }
}

/// Writes what is kept of a value to a slot of a held object.
// The integers have arms of their own, in which the width of what is written is known.
#[inline(always)]
pub fn write_value<H: GcHeap, D: Drop>(
    owner: &mut HeapOwner<H, D>,
    interned: &InternedValues,
    gc_ref: &VMGcRef,
    slot: &Slot,
    value: &RawValue,
)
    requires idle { owner.old.seen.idle ≡ true }
    requires can { CanWriteKept H.KIND (ids_of interned.now) owner.old.seen gc_ref.now (storage_slot slot.now) value.now }
    ensures { WritesKept H.KIND (ids_of interned.now) owner.old.seen owner.new.seen gc_ref.now (storage_slot slot.now) value.now }
{
    match value {
        RawValue::I32(number) => {
            let stored = Stored::Number(u128::from(number.cast_unsigned()));
            write_slot(owner, gc_ref, slot, stored);
        }
        RawValue::I64(number) => {
            let stored = Stored::Number(u128::from(number.cast_unsigned()));
            write_slot(owner, gc_ref, slot, stored);
        }
        _ => {
            let stored = stored_value(interned, owner.scoped(), owner.owned(), value);
            write_slot(owner, gc_ref, slot, stored);
        }
    }
}

/// What a word in a slot of the types under that one is.
#[inline(always)]
fn found_under(top: HeapTopType, word: u32) -> Found
    ensures { IsFound (top_form top) word result }
{
    match top {
        HeapTopType::Any => Found::Ref(GcClass::Any, word),
        HeapTopType::Extern => Found::Ref(GcClass::Extern, word),
        HeapTopType::Exn => Found::Ref(GcClass::Exn, word),
        HeapTopType::Func => Found::Func(word),
        HeapTopType::Cont => Found::Cont(word),
    }
}

/// What lies at an offset of a held object, by its type.
#[inline(always)]
fn read_typed<H: GcHeap>(heap: &H, gc_ref: &VMGcRef, offset: u32, ty: ValType) -> Found
    requires sound { H.sound heap.now }
    requires inside { IsReadable H.KIND (H.seen heap.now) gc_ref.now offset (value_width ty) }
    ensures small { FitsAt H.KIND (H.seen heap.now) gc_ref.now (type_form ty) (value_width ty) offset }
    ensures finds { FindsAt H.KIND (H.seen heap.now) gc_ref.now (type_form ty) (value_width ty) offset result }
{
    match ty {
        ValType::I32 => Found::Number(RawValue::I32(read_u32(heap, gc_ref, offset).cast_signed())),
        ValType::I64 => Found::Number(RawValue::I64(read_u64(heap, gc_ref, offset).cast_signed())),
        ValType::F32 => Found::Number(RawValue::F32(read_u32(heap, gc_ref, offset))),
        ValType::F64 => Found::Number(RawValue::F64(read_u64(heap, gc_ref, offset))),
        ValType::V128 => Found::Number(RawValue::V128(read_v128(heap, gc_ref, offset))),
        ValType::Ref(ty) => found_under(ty.heap_type.top(), read_u32(heap, gc_ref, offset)),
    }
}

/// What lies in a slot of a held object. Small integers are read as unsigned ones.
#[inline(always)]
pub fn read_slot<H: GcHeap>(heap: &H, gc_ref: &VMGcRef, slot: &Slot) -> Found
    requires sound { H.sound heap.now }
    requires inside { IsReadable H.KIND (H.seen heap.now) gc_ref.now slot.now.offset (storage_width slot.now.storage) }
    ensures small { FitsAt H.KIND (H.seen heap.now) gc_ref.now (storage_form slot.now.storage) (storage_width slot.now.storage) slot.now.offset }
    ensures finds { FindsAt H.KIND (H.seen heap.now) gc_ref.now (storage_form slot.now.storage) (storage_width slot.now.storage) slot.now.offset result }
{
    match slot.storage {
        StorageType::I8 => {
            let number = u32::from(read_u8(heap, gc_ref, slot.offset));
            Found::Number(RawValue::I32(number.cast_signed()))
        }
        StorageType::I16 => {
            let number = u32::from(read_u16(heap, gc_ref, slot.offset));
            Found::Number(RawValue::I32(number.cast_signed()))
        }
        StorageType::ValType(ty) => read_typed(heap, gc_ref, slot.offset, ty),
    }
}
