//! The commands that make arrays.

ghost use Rattle.std.specs.Prelude.{◌≡◌, Some, option_map, IfSome, OnErr};
ghost use Rattle.gc_types.specs.Declarations.{elem_at, shape_at};
ghost use Rattle.gc_commands.specs.declared.command.Command.TheVariants as Command;
ghost use Rattle.gc_script.specs.Endings.{answer_of};
ghost use Rattle.gc_script.specs.State.{State, HoldsState};
ghost use Rattle.gc_script.specs.Run.{RunsOne};
ghost use Rattle.gc_script.specs.Wants.{MayWant};
ghost use Rattle.gc_store.specs.Stores.{IsSameStore};

use crate::ending::Ending;
use crate::make::{NewValues, place};
use crate::runner::Runner;
use crate::values::{any_unset, check_elements, check_value, operand_value};
use gc_commands::{Operand, Refusal};
use gc_heap::GcHeap;
use gc_store::{Place, ResourceLimiter, Store};
use gc_types::{FieldType, TypeShape, Types, VMSharedTypeIndex};
use std::rc::Rc;

/// What an array type lists, with the type of its elements; None where the index names no array type.
fn array_shape(types: &Types, ty: VMSharedTypeIndex) -> Option<(&Rc<TypeShape>, &FieldType)>
    ensures element { option_map (λ found. found.1.now) result ≡ elem_at types.now.declarations ty }
    ensures listed { IfSome result (λ found. shape_at types.now.declarations ty ≡ Some found.0.now.value) }
{
    let shape = types.shape(ty)?;
    let element = shape.elem_type()?;
    Some((shape, element))
}

impl Runner {
    /// Makes an array of type `t` whose `len` elements all hold the operand, and puts it into register `d`.
    /// Whether the operand fits is not tested where there are none.
    pub(crate) fn make_filled<H: GcHeap, L: ResourceLimiter>(
        &mut self,
        store: &mut Store<H, u64>,
        limiter: &mut L,
        d: u16,
        t: u32,
        len: u32,
        operand: &Operand,
    ) -> Ending
        ensures runs { (s : State) → HoldsState H.KIND store.old self.old s
            → RunsOne H.KIND store.old.alloc_counter (L.limits limiter.old) (L.limits limiter.new) s
            (Command.NewArr d t len operand.now) (answer_of result) store.new self.new }
        ensures cause { OnErr (answer_of result) ((s : State) → HoldsState H.KIND store.old self.old s
            → MayWant H.KIND s (Command.NewArr d t len operand.now)) }
        ensures same { IsSameStore store.old store.new }
    {
        let ty = VMSharedTypeIndex::new(t);
        let Some((shape, element)) = array_shape(store.types(), ty) else {
            return Ending::Refused(Refusal::NoSuchName);
        };
        let Some(value) = operand_value(&self.registers, operand) else {
            return Ending::Refused(Refusal::NoSuchName);
        };
        if len > 0 {
            if let Err(refusal) = check_value(store, Some(element), &value) {
                return Ending::Refused(refusal);
            }
        }
        let Ok(shape) = shape.clone() else {
            return Ending::OutOfMemory;
        };
        let request = Place::Array(ty, len);
        let values = NewValues::Same(&value);
        let registers = &mut self.registers;
        place(registers, store, limiter, d, request, &shape, values)
    }

    /// Makes an array of type `t` of these elements, and puts it into register `d`.
    pub(crate) fn make_fixed<H: GcHeap, L: ResourceLimiter>(
        &mut self,
        store: &mut Store<H, u64>,
        limiter: &mut L,
        d: u16,
        t: u32,
        operands: &[Operand],
    ) -> Ending
        ensures runs { (s : State) → HoldsState H.KIND store.old self.old s
            → RunsOne H.KIND store.old.alloc_counter (L.limits limiter.old) (L.limits limiter.new) s
            (Command.Fixed d t operands.now) (answer_of result) store.new self.new }
        ensures cause { OnErr (answer_of result) ((s : State) → HoldsState H.KIND store.old self.old s → MayWant H.KIND s (Command.Fixed d t operands.now)) }
        ensures same { IsSameStore store.old store.new }
    {
        let ty = VMSharedTypeIndex::new(t);
        let Some((shape, element)) = array_shape(store.types(), ty) else {
            return Ending::Refused(Refusal::NoSuchName);
        };
        if any_unset(&self.registers, operands) {
            return Ending::Refused(Refusal::NoSuchName);
        }
        if let Err(refusal) = check_elements(store, &self.registers, element, operands) {
            return Ending::Refused(refusal);
        }
        // An array has fewer than 2^32 elements in every heap.
        let Ok(len) = u32::try_from(operands.len()) else {
            return Ending::Refused(Refusal::TooLarge);
        };
        let Ok(shape) = shape.clone() else {
            return Ending::OutOfMemory;
        };
        let request = Place::Array(ty, len);
        let values = NewValues::Operands(operands);
        let registers = &mut self.registers;
        place(registers, store, limiter, d, request, &shape, values)
    }

    /// Makes an array of type `t`, whose elements are 8 bits wide, of these bytes, and puts it into register
    /// `d`.
    pub(crate) fn make_bytes<H: GcHeap, L: ResourceLimiter>(
        &mut self,
        store: &mut Store<H, u64>,
        limiter: &mut L,
        d: u16,
        t: u32,
        bytes: &[u8],
    ) -> Ending
        ensures runs { (s : State) → HoldsState H.KIND store.old self.old s
            → RunsOne H.KIND store.old.alloc_counter (L.limits limiter.old) (L.limits limiter.new) s
            (Command.NewBytes d t bytes.now) (answer_of result) store.new self.new }
        ensures cause { OnErr (answer_of result) ((s : State) → HoldsState H.KIND store.old self.old s → MayWant H.KIND s (Command.NewBytes d t bytes.now)) }
        ensures same { IsSameStore store.old store.new }
    {
        let ty = VMSharedTypeIndex::new(t);
        let Some((shape, element)) = array_shape(store.types(), ty) else {
            return Ending::Refused(Refusal::NoSuchName);
        };
        if !element.element_type.is_i8() {
            return Ending::Refused(Refusal::NotI8Array);
        }
        // An array has fewer than 2^32 elements in every heap.
        let Ok(len) = u32::try_from(bytes.len()) else {
            return Ending::Refused(Refusal::TooLarge);
        };
        let Ok(shape) = shape.clone() else {
            return Ending::OutOfMemory;
        };
        let request = Place::Array(ty, len);
        let values = NewValues::Bytes(bytes);
        let registers = &mut self.registers;
        place(registers, store, limiter, d, request, &shape, values)
    }
}
