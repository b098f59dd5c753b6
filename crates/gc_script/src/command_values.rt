//! What commands give to new objects.

ghost use Rattle.std.specs.Prelude.{true};
ghost use Rattle.gc_script.specs.NewValues.{contents_of, operand_values};
ghost use Rattle.gc_script.specs.Values.{AllPlain};

use crate::make::NewValues;
use crate::operands::PlainOperands;
use crate::registers::Registers;
use gc_heap::GcHeap;
use gc_owner::HeapOwner;
use gc_refs::VMGcRef;
use gc_store::{Contents, Place, RawValue};
use gc_types::TypeShape;
use gc_values::interned::{InternedValues, given_values};
use gc_values::{ContentSource, EachFrom};

/// The values of an object that a command makes, by the registers. No operand gives a function or a continuation.
#[derive(Drop)]
pub(crate) struct CommandValues<'a> {
    pub(crate) registers: &'a Registers,
    pub(crate) values: NewValues<'a>,
    ghost plain: { AllPlain (operand_values registers.now values) },
}

impl ContentSource for CommandValues<'_> {
    ghost contents = { λ given. contents_of given.registers.now given.values };

    #[inline(always)]
    fn side_values(&self, request: &Place) -> &[RawValue] {
        match self.values {
            NewValues::Operands(_) => &[],
            NewValues::Same(value) => given_values(request, Contents::Same(value)),
            NewValues::Bytes(_) => &[],
        }
    }

    #[inline(always)]
    fn fill<H: GcHeap, D: Drop>(
        &self,
        owner: &mut HeapOwner<H, D>,
        interned: &InternedValues,
        gc_ref: &VMGcRef,
        request: &Place,
        shape: &TypeShape,
    ) {
        match self.values {
            NewValues::Operands(operands) => {
                let values = PlainOperands {
                    registers: self.registers,
                    operands,
                };
                let each = EachFrom { values: &values };
                each.fill(owner, interned, gc_ref, request, shape);
            }
            NewValues::Same(value) => {
                Contents::Same(value).fill(owner, interned, gc_ref, request, shape);
            }
            NewValues::Bytes(bytes) => {
                Contents::Bytes(bytes).fill(owner, interned, gc_ref, request, shape);
            }
        }
    }
}
