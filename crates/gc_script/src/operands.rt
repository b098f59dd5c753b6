//! The operands of commands as the values of new objects.

ghost use Rattle.std.specs.Prelude.{◌≡◌, true};
ghost use Rattle.gc_values.specs.HeldSlots.{CanWriteKept, WritesKept, storage_slot};
ghost use Rattle.gc_values.specs.Interning.{ids_of};
ghost use Rattle.gc_script.specs.Values.{AllPlain, set_operand, set_operands};

use crate::registers::Registers;
use gc_commands::Operand;
use gc_heap::GcHeap;
use gc_owner::HeapOwner;
use gc_refs::VMGcRef;
use gc_store::{GcClass, RawValue};
use gc_values::ValueSource;
use gc_values::interned::InternedValues;
use gc_values::slot::Slot;
use gc_values::stored::write_value;

/// Null, as a reference under `any`.
const ANY_NULL: RawValue = RawValue::Ref(GcClass::Any, None);

/// Null, as a reference under `extern`.
const EXTERN_NULL: RawValue = RawValue::Ref(GcClass::Extern, None);

/// Null, as a reference under `exn`.
const EXN_NULL: RawValue = RawValue::Ref(GcClass::Exn, None);

/// Operands as the values that they give, null for a register that is unset. None is a function or a continuation.
#[derive(Drop)]
pub(crate) struct PlainOperands<'a> {
    pub(crate) registers: &'a Registers,
    pub(crate) operands: &'a [Operand],
    ghost plain: { AllPlain (set_operands registers.now operands.now) },
}

/// Writes what an operand holds, null for a register that is unset, to a slot of a held object.
// Each arm writes by itself: else a value of any kind is put together first, and then told apart.
#[inline(always)]
fn write_operand<H: GcHeap, D: Drop>(
    owner: &mut HeapOwner<H, D>,
    interned: &InternedValues,
    gc_ref: &VMGcRef,
    slot: &Slot,
    registers: &Registers,
    operand: &Operand,
)
    requires idle { owner.old.seen.idle ≡ true }
    requires can { CanWriteKept H.KIND (ids_of interned.now) owner.old.seen gc_ref.now (storage_slot slot.now) (set_operand registers.now operand.now) }
    ensures { WritesKept H.KIND (ids_of interned.now) owner.old.seen owner.new.seen gc_ref.now (storage_slot slot.now) (set_operand registers.now operand.now) }
{
    match *operand {
        Operand::I32(value) => write_value(owner, interned, gc_ref, slot, &RawValue::I32(value)),
        Operand::I64(value) => write_value(owner, interned, gc_ref, slot, &RawValue::I64(value)),
        Operand::F32(bits) => write_value(owner, interned, gc_ref, slot, &RawValue::F32(bits)),
        Operand::F64(bits) => write_value(owner, interned, gc_ref, slot, &RawValue::F64(bits)),
        Operand::V128(bits) => write_value(owner, interned, gc_ref, slot, &RawValue::V128(bits)),
        Operand::AnyNull => write_value(owner, interned, gc_ref, slot, &ANY_NULL),
        Operand::ExternNull => write_value(owner, interned, gc_ref, slot, &EXTERN_NULL),
        Operand::ExnNull => write_value(owner, interned, gc_ref, slot, &EXN_NULL),
        Operand::Register(register) => match registers.held(register) {
            Some(value) => write_value(owner, interned, gc_ref, slot, value),
            None => write_value(owner, interned, gc_ref, slot, &ANY_NULL),
        },
    }
}

impl ValueSource for PlainOperands<'_> {
    ghost given = { λ given. set_operands given.registers.now given.operands.now };

    #[inline(always)]
    fn write_at<H: GcHeap, D: Drop>(
        &self,
        owner: &mut HeapOwner<H, D>,
        interned: &InternedValues,
        gc_ref: &VMGcRef,
        slot: &Slot,
        index: usize,
    ) {
        let operand = &self.operands[index];
        write_operand(owner, interned, gc_ref, slot, self.registers, operand);
    }

    #[inline(always)]
    fn count(&self) -> usize {
        self.operands.len()
    }

    #[inline(always)]
    fn side_values(&self) -> &[RawValue] {
        &[]
    }
}
