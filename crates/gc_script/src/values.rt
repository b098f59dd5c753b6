//! The values that commands give, by operands and registers.

ghost use Rattle.std.specs.Prelude.{◌≡◌, ℕ, false, List, Option, None, Some, option_copied, slice_get, is_ok, IsTrue, OnOk, IfOk};
ghost use Rattle.gc_model.specs.Holds.{HoldsTable};
ghost use Rattle.gc_model.specs.Table.{Table};
ghost use Rattle.gc_commands.specs.declared.command.Operand.{Operand};
ghost use Rattle.gc_commands.specs.declared.command.Operand.TheVariants as operand;
ghost use Rattle.gc_store.specs.Values.{NamesLive};
ghost use Rattle.gc_values.specs.RawValues.{raw_handle};
ghost use Rattle.gc_types.specs.Declarations.{fields_at};
ghost use Rattle.gc_script.specs.declared.objects.ValueTypes.TheVariants as types_of;
ghost use Rattle.gc_script.specs.State.{State, Held, RegisterStands};
ghost use Rattle.gc_script.specs.Given.{held_operand, given_held};
ghost use Rattle.gc_script.specs.Values.{HoldsOperand, raw_operand, set_operand, set_operands, HasUnset, AreSet, AllHeld};
ghost use Rattle.gc_script.specs.Values.{raw_slot, TellsHandle, is_opaque, AllPlain, IsFoundLive, CanStoreRaw, AllRawStorable};
ghost use Rattle.gc_script.specs.Values.{ChecksOperand, ChecksOperands};

use crate::fits::fits;
use crate::registers::Registers;
use gc_commands::{Operand, Refusal};
use gc_heap::GcHeap;
use gc_store::{GcClass, GcRootIndex, RawValue, RootedObject, Store};
use gc_types::FieldType;

/// What an operand holds; None where it is a register that is unset.
#[inline(always)]
pub(crate) fn operand_value(registers: &Registers, operand: &Operand) -> Option<RawValue>
    ensures is { result ≡ raw_operand registers.now operand.now }
    ensures holds { HoldsOperand registers.now operand.now result }
{
    match *operand {
        Operand::I32(number) => Some(RawValue::I32(number)),
        Operand::I64(number) => Some(RawValue::I64(number)),
        Operand::F32(bits) => Some(RawValue::F32(bits)),
        Operand::F64(bits) => Some(RawValue::F64(bits)),
        Operand::V128(bits) => Some(RawValue::V128(bits)),
        Operand::AnyNull => Some(RawValue::Ref(GcClass::Any, None)),
        Operand::ExternNull => Some(RawValue::Ref(GcClass::Extern, None)),
        Operand::ExnNull => Some(RawValue::Ref(GcClass::Exn, None)),
        Operand::Register(register) => registers.get(register),
    }
}

/// Whether some operand is a register that is unset.
#[inline(always)]
pub(crate) fn any_unset(registers: &Registers, operands: &[Operand]) -> bool
    ensures unset { IsTrue result → HasUnset registers.now operands.now }
    ensures set { result ≡ false → AreSet registers.now operands.now }
{
    for operand in operands {
        if operand_value(registers, operand).is_none() {
            return true;
        }
    }
    false
}

/// The class and the handle of a value, where it is a reference.
#[inline(always)]
pub(crate) fn slot_of(value: &RawValue) -> Option<(GcClass, Option<GcRootIndex>)>
    ensures { result ≡ raw_slot value.now }
{
    match value {
        RawValue::Ref(class, handle) => Some((*class, *handle)),
        _ => None,
    }
}

/// Whether a value is a function or a continuation, or none.
#[inline(always)]
pub(crate) fn is_opaque(value: &RawValue) -> bool
    ensures { result ≡ is_opaque value.now }
{
    matches!(value, RawValue::Func(_) | RawValue::Cont(_))
}

/// What a value names: nothing where it is a number or null. `Unrooted` where its root is gone. No function and no
/// continuation stands in a register.
#[inline(always)]
fn named_by<H: GcHeap>(
    store: &Store<H, u64>,
    value: &RawValue,
) -> Result<Option<RootedObject>, Refusal>
    ensures live { OnOk result (NamesLive ℕ H.KIND store.now value.now) }
    ensures plain { OnOk result (is_opaque value.now ≡ false) }
    ensures tells { IfOk result (λ object. (t : Table ℕ) → HoldsTable H.KIND store.now t → TellsHandle store.now t (raw_handle value.now) object) }
    ensures found { (t : Table ℕ) (held : Option Held) → HoldsTable H.KIND store.now t → RegisterStands store.now t (Some value.now) held
        → IsFoundLive store.now t value.now (given_held t held) (is_ok result) }
{
    match value.handle() {
        Some(handle) => match store.object(handle) {
            Ok(object) => Ok(Some(object)),
            Err(_) => Err(Refusal::Unrooted),
        },
        None => {
            if is_opaque(value) {
                Err(Refusal::Unrooted)
            } else {
                Ok(None)
            }
        }
    }
}

/// Whether what a register holds is a number, null, or the handle of a live root. No object is looked at.
#[inline(always)]
pub(crate) fn is_live<H: GcHeap>(store: &Store<H, u64>, value: &RawValue) -> bool
    ensures { (t : Table ℕ) (held : Option Held) → HoldsTable H.KIND store.now t → RegisterStands store.now t (Some value.now) held
        → IsFoundLive store.now t value.now (given_held t held) result }
{
    match value.handle() {
        Some(handle) => match store.word(handle) {
            Ok(_) => true,
            Err(_) => false,
        },
        None => true,
    }
}

/// Whether a value may go into a field or an element of that type: `Unrooted` where its root is gone, then
/// `TypeMismatch`, also where there is no type.
#[inline(always)]
pub(crate) fn check_value<H: GcHeap>(
    store: &Store<H, u64>,
    field: Option<&FieldType>,
    value: &RawValue,
) -> Result<(), Refusal>
    ensures stores { OnOk result (CanStoreRaw H.KIND store.now (option_copied field.entry) value.now) }
    ensures plain { OnOk result (is_opaque value.now ≡ false) }
    ensures checks { (s : State) (v : Operand) → HoldsTable H.KIND store.now s.table → RegisterStands store.now s.table (Some value.now) (held_operand s v)
        → ChecksOperand store.now s (option_copied field.entry) v value.now result }
{
    let Ok(object) = named_by(store, value) else {
        return Err(Refusal::Unrooted);
    };
    let field = match field {
        Some(field) => field,
        None => return Err(Refusal::TypeMismatch),
    };
    if fits(store, &field.element_type, value, &object) {
        Ok(())
    } else {
        Err(Refusal::TypeMismatch)
    }
}

/// Whether a number or null may go into a field or an element of that type, as `check_value` says.
#[inline(always)]
fn check_plain<H: GcHeap>(
    store: &Store<H, u64>,
    field: Option<&FieldType>,
    value: &RawValue,
) -> Result<(), Refusal>
    requires unnamed { raw_handle value.now ≡ None }
    requires plain { is_opaque value.now ≡ false }
    ensures stores { OnOk result (CanStoreRaw H.KIND store.now (option_copied field.entry) value.now) }
    ensures checks { (s : State) (v : Operand) → HoldsTable H.KIND store.now s.table → RegisterStands store.now s.table (Some value.now) (held_operand s v)
        → ChecksOperand store.now s (option_copied field.entry) v value.now result }
{
    let field = match field {
        Some(field) => field,
        None => return Err(Refusal::TypeMismatch),
    };
    if fits(store, &field.element_type, value, &None) {
        Ok(())
    } else {
        Err(Refusal::TypeMismatch)
    }
}

/// Whether what a register holds, null where it is unset, may go into a field or an element of that type, as `check_value`
/// says. It is tested where it lies.
#[inline(always)]
fn check_register<H: GcHeap>(
    store: &Store<H, u64>,
    registers: &Registers,
    field: Option<&FieldType>,
    register: u16,
) -> Result<(), Refusal>
    ensures stores { OnOk result (CanStoreRaw H.KIND store.now (option_copied field.entry) (set_operand registers.now (operand.Register register))) }
    ensures plain { OnOk result (is_opaque (set_operand registers.now (operand.Register register)) ≡ false) }
    ensures checks { (s : State) (v : Operand) → HoldsTable H.KIND store.now s.table
        → RegisterStands store.now s.table (Some (set_operand registers.now (operand.Register register))) (held_operand s v)
        → ChecksOperand store.now s (option_copied field.entry) v (set_operand registers.now (operand.Register register)) result }
{
    match registers.held(register) {
        Some(value) => check_value(store, field, value),
        None => check_plain(store, field, &RawValue::Ref(GcClass::Any, None)),
    }
}

/// Whether what an operand holds may go into a field or an element of that type, as `check_value` says.
#[inline(always)]
fn check_operand<H: GcHeap>(
    store: &Store<H, u64>,
    registers: &Registers,
    field: Option<&FieldType>,
    operand: &Operand,
) -> Result<(), Refusal>
    ensures stores { OnOk result (CanStoreRaw H.KIND store.now (option_copied field.entry) (set_operand registers.now operand.now)) }
    ensures plain { OnOk result (is_opaque (set_operand registers.now operand.now) ≡ false) }
    ensures checks { (s : State) (v : Operand) → HoldsTable H.KIND store.now s.table
        → RegisterStands store.now s.table (Some (set_operand registers.now operand.now)) (held_operand s v)
        → ChecksOperand store.now s (option_copied field.entry) v (set_operand registers.now operand.now) result }
{
    match *operand {
        Operand::I32(number) => check_plain(store, field, &RawValue::I32(number)),
        Operand::I64(number) => check_plain(store, field, &RawValue::I64(number)),
        Operand::F32(bits) => check_plain(store, field, &RawValue::F32(bits)),
        Operand::F64(bits) => check_plain(store, field, &RawValue::F64(bits)),
        Operand::V128(bits) => check_plain(store, field, &RawValue::V128(bits)),
        Operand::AnyNull => check_plain(store, field, &RawValue::Ref(GcClass::Any, None)),
        Operand::ExternNull => check_plain(store, field, &RawValue::Ref(GcClass::Extern, None)),
        Operand::ExnNull => check_plain(store, field, &RawValue::Ref(GcClass::Exn, None)),
        Operand::Register(register) => check_register(store, registers, field, register),
    }
}

/// The field of that index, where there is one.
#[inline(always)]
fn field_at(fields: &[FieldType], index: usize) -> Option<&FieldType>
    ensures { option_copied result ≡ slice_get fields.now index }
{
    fields.get(index)
}

/// Whether the values of operands, none of which is a register that is unset, may go into the fields of a type, in order; the
/// first that may not says why. An operand behind the last field is a `TypeMismatch`.
#[inline(always)]
pub(crate) fn check_fields<H: GcHeap>(
    store: &Store<H, u64>,
    registers: &Registers,
    fields: &[FieldType],
    operands: &[Operand],
) -> Result<(), Refusal>
    ensures stores { (ty : ℕ) → fields_at store.now.types ty ≡ Some fields.now
        → OnOk result (AllRawStorable H.KIND store.now (types_of.Fields ty) (set_operands registers.now operands.now)) }
    ensures plain { OnOk result (AllPlain (set_operands registers.now operands.now)) }
    ensures checks { (ty : ℕ) → fields_at store.now.types ty ≡ Some fields.now → (s : State) (vs : List Operand) → HoldsTable H.KIND store.now s.table
        → AllHeld store.now s vs (set_operands registers.now operands.now)
        → ChecksOperands store.now s (types_of.Fields ty) vs (set_operands registers.now operands.now) result }
{
    for (index, operand) in operands.iter().enumerate() {
        check_operand(store, registers, field_at(fields, index), operand)?;
    }
    Ok(())
}

/// Whether the values of operands, none of which is a register that is unset, may go into elements of that type; the first
/// that may not says why.
#[inline(always)]
pub(crate) fn check_elements<H: GcHeap>(
    store: &Store<H, u64>,
    registers: &Registers,
    element: &FieldType,
    operands: &[Operand],
) -> Result<(), Refusal>
    ensures stores { OnOk result (AllRawStorable H.KIND store.now (types_of.Elements element.now) (set_operands registers.now operands.now)) }
    ensures plain { OnOk result (AllPlain (set_operands registers.now operands.now)) }
    ensures checks { (s : State) (vs : List Operand) → HoldsTable H.KIND store.now s.table → AllHeld store.now s vs (set_operands registers.now operands.now)
        → ChecksOperands store.now s (types_of.Elements element.now) vs (set_operands registers.now operands.now) result }
{
    for operand in operands {
        check_operand(store, registers, Some(element), operand)?;
    }
    Ok(())
}
