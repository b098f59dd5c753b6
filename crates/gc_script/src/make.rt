//! The commands that make objects and small integers.

ghost use Rattle.std.specs.Prelude.{◌≡◌, ℕ, List, Some, option_copied, option_map, IfSome, OnErr};
ghost use Rattle.gc_types.specs.Declarations.{Declaration, shape_at};
ghost use Rattle.gc_commands.specs.declared.command.Command.TheVariants as Command;
ghost use Rattle.gc_model.specs.Values.{Object};
ghost use Rattle.gc_script.specs.Endings.{answer_of};
ghost use Rattle.gc_script.specs.NewValues.{contents_of};
ghost use Rattle.gc_script.specs.Requested.{class_of, fields_of_kind, requested, requested_fields, requested_tests, IsPlainRequest};
ghost use Rattle.gc_script.specs.Slots.{RunnerRest, with_registers};
ghost use Rattle.gc_script.specs.State.{State, HoldsState, visible};
ghost use Rattle.gc_script.specs.Shapes.{making};
ghost use Rattle.gc_script.specs.Steps.{first_failing, heap_tests};
ghost use Rattle.gc_script.specs.Run.{RunsOne, RunsOn, GoesOn};
ghost use Rattle.gc_store.specs.Requests.{CanPlaceIn, IsObjectOf};
ghost use Rattle.gc_script.specs.Wants.{IsUnrefused, MayWant};
ghost use Rattle.gc_store.specs.Stores.{IsSameStore};
ghost use Rattle.gc_values.specs.Filling.{asked_type};

use crate::command_values::CommandValues;
use crate::ending::Ending;
use crate::registers::Registers;
use crate::runner::Runner;
use crate::values::{any_unset, check_fields};
use gc_commands::{Operand, Refusal};
use gc_heap::GcHeap;
use gc_refs::I31;
use gc_store::laws::stores_hold_tables;
use gc_store::{GcClass, Place, PlaceFault, RawValue, ResourceLimiter, RootFault, Store};
use gc_types::{FieldType, TypeKind, TypeShape, Types, VMSharedTypeIndex};
use std::rc::Rc;

/// The class of references to what is requested.
fn class_of(request: &Place) -> GcClass
    ensures { result ≡ class_of request.now }
{
    match request {
        Place::Struct(_) => GcClass::Any,
        Place::Exn(..) => GcClass::Exn,
        Place::Array(..) => GcClass::Any,
    }
}

/// The fields of a struct or an exception that its type lists, where it is of that kind, and else None.
fn fields_of_kind(shape: &TypeShape, kind: TypeKind) -> Option<&[FieldType]>
    ensures { (types : List Declaration) (ty : ℕ) → shape_at types ty ≡ Some shape.now → option_copied result ≡ fields_of_kind types ty kind }
{
    if shape.kind() == kind {
        shape.fields()
    } else {
        None
    }
}

/// What the type of a request lists, with its fields; None where there is no such type, it is of another kind, or an array is
/// requested.
fn requested_shape<'a>(
    types: &'a Types,
    request: &Place,
) -> Option<(&'a Rc<TypeShape>, &'a [FieldType])>
    ensures fields { option_map (λ found. found.1.now) result ≡ requested_fields types.now.declarations request.now }
    ensures listed { IfSome result (λ found. shape_at types.now.declarations (asked_type request.now) ≡ Some found.0.now.value) }
{
    let shape = types.shape(request.ty())?;
    let fields = match *request {
        Place::Struct(_) => fields_of_kind(shape, TypeKind::Struct),
        Place::Exn(..) => fields_of_kind(shape, TypeKind::Exn),
        Place::Array(..) => None,
    };
    Some((shape, fields?))
}

/// The values of an object that a command makes.
#[derive(Clone, Copy)]
pub(crate) enum NewValues<'a> {
    /// A value for each field or element, in order.
    Operands(&'a [Operand]),
    /// One value for all elements of an array.
    Same(&'a RawValue),
    /// The elements of an array of bytes.
    Bytes(&'a [u8]),
}

/// Places an object that may be placed, whose type lists `shape`, and that has no function and no continuation, and puts it into
/// register `d`.
pub(crate) fn place<H: GcHeap, L: ResourceLimiter>(
    registers: &mut Registers,
    store: &mut Store<H, u64>,
    limiter: &mut L,
    d: u16,
    request: Place,
    shape: &TypeShape,
    values: NewValues<'_>,
) -> Ending
    requires listed { shape_at store.old.types (asked_type request) ≡ Some shape.now }
    requires can { CanPlaceIn ℕ H.KIND store.old request (contents_of registers.old values) }
    requires plain { IsPlainRequest request (contents_of registers.old values) }
    ensures runs { (s : State) (rest : RunnerRest) (object : State → Object ℕ) → HoldsState H.KIND store.old (with_registers registers.old rest) s
        → IsObjectOf store.old s.table request (contents_of registers.old values.entry) (object (visible s))
        → RunsOn H.KIND store.old.alloc_counter (L.limits limiter.old) (L.limits limiter.new) s (making d (class_of request) object)
        (heap_tests H.KIND s (object (visible s))) (answer_of result) store.new (with_registers registers.new rest) }
    ensures same { IsSameStore store.old store.new }
{
    stores_hold_tables(store);
    if registers.make_room(d).is_err() {
        return Ending::OutOfMemory;
    }
    let class = class_of(&request);
    let contents = CommandValues { registers, values };
    match store.place_shaped(limiter, request, shape, contents) {
        Ok(handle) => {
            registers.set(d, RawValue::Ref(class, Some(handle)));
            Ending::Done
        }
        Err(PlaceFault::TooLarge) => Ending::Refused(Refusal::TooLarge),
        Err(PlaceFault::RootsFull) => Ending::Refused(Refusal::RootsFull),
        Err(PlaceFault::HeapOutOfMemory(_)) => Ending::Refused(Refusal::GcHeapOutOfMemory),
        // An object without functions and continuations needs no ids.
        Err(PlaceFault::FuncTableFull) => unreachable!(),
        Err(PlaceFault::ContTableFull) => unreachable!(),
        Err(PlaceFault::Memory) => Ending::OutOfMemory,
    }
}

impl Runner {
    /// Makes an object with the fields of a type, of these values, and puts it into register `d`.
    pub(crate) fn make_fields<H: GcHeap, L: ResourceLimiter>(
        &mut self,
        store: &mut Store<H, u64>,
        limiter: &mut L,
        d: u16,
        request: Place,
        operands: &[Operand],
    ) -> Ending
        ensures runs { (s : State) → HoldsState H.KIND store.old self.old s
            → RunsOn H.KIND store.old.alloc_counter (L.limits limiter.old) (L.limits limiter.new) s
            (making d (class_of request) (requested request operands.now)) (requested_tests H.KIND s request operands.now)
            (answer_of result) store.new self.new }
        ensures cause { OnErr (answer_of result) ((s : State) → HoldsState H.KIND store.old self.old s
            → IsUnrefused (first_failing (requested_tests H.KIND s request operands.now))) }
        ensures same { IsSameStore store.old store.new }
    {
        let Some((shape, fields)) = requested_shape(store.types(), &request) else {
            return Ending::Refused(Refusal::NoSuchName);
        };
        if any_unset(&self.registers, operands) {
            return Ending::Refused(Refusal::NoSuchName);
        }
        if operands.len() != fields.len() {
            return Ending::Refused(Refusal::FieldCount);
        }
        if let Err(refusal) = check_fields(store, &self.registers, fields, operands) {
            return Ending::Refused(refusal);
        }
        let Ok(shape) = shape.clone() else {
            return Ending::OutOfMemory;
        };
        let values = NewValues::Operands(operands);
        let registers = &mut self.registers;
        place(registers, store, limiter, d, request, &shape, values)
    }

    /// Makes a struct of type `t` with the values of these operands, and puts it into register `d`, as `run_one` does for
    /// `new`, and answers how that ended.
    #[inline(always)]
    pub fn make_struct<H: GcHeap, L: ResourceLimiter>(
        &mut self,
        store: &mut Store<H, u64>,
        limiter: &mut L,
        d: u16,
        t: u32,
        operands: &[Operand],
    ) -> Ending
        ensures runs { (s : State) → HoldsState H.KIND store.old self.old s
            → RunsOne H.KIND store.old.alloc_counter (L.limits limiter.old) (L.limits limiter.new) s
            (Command.New d t operands.now) (answer_of result) store.new self.new }
        ensures cause { OnErr (answer_of result) ((s : State) → HoldsState H.KIND store.old self.old s → MayWant H.KIND s (Command.New d t operands.now)) }
        ensures same { IsSameStore store.old store.new }
    {
        let ty = VMSharedTypeIndex::new(t);
        self.make_fields(store, limiter, d, Place::Struct(ty), operands)
    }

    /// Puts the low 31 bits of a number into register `d`.
    pub(crate) fn make_i31<H: GcHeap>(
        &mut self,
        store: &mut Store<H, u64>,
        d: u16,
        n: u32,
    ) -> Ending
        ensures goes { (s : State) → HoldsState H.KIND store.old self.old s → GoesOn H.KIND s (Command.I31 d n) (answer_of result) store.new self.new }
        ensures same { IsSameStore store.old store.new }
    {
        if self.registers.make_room(d).is_err() {
            return Ending::OutOfMemory;
        }
        match store.push_i31(I31::wrapping_u32(n)) {
            Ok(handle) => {
                self.registers
                    .set(d, RawValue::Ref(GcClass::Any, Some(handle)));
                Ending::Done
            }
            Err(RootFault::RootsFull) => Ending::Refused(Refusal::RootsFull),
            // A push of a number fails in no other way than by want of memory.
            Err(_) => Ending::OutOfMemory,
        }
    }
}
