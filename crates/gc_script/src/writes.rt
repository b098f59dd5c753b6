//! The commands that write values of objects.

ghost use Rattle.std.specs.Prelude.{◌≡◌, ℕ, false, Ok, option_copied, OnOk, IfOk};
ghost use Rattle.gc_commands.specs.declared.command.Command.TheVariants as Command;
ghost use Rattle.gc_commands.specs.declared.command.Operand.{Operand};
ghost use Rattle.gc_model.specs.Holds.{HoldsTable};
ghost use Rattle.gc_model.specs.Table.{Table};
ghost use Rattle.gc_model.specs.Accounts.{Account, HoldsAccount};
ghost use Rattle.gc_script.specs.Endings.{ended};
ghost use Rattle.gc_script.specs.State.{State, HoldsState, RegisterStands};
ghost use Rattle.gc_script.specs.Given.{held_operand, is_constant};
ghost use Rattle.gc_script.specs.Run.{GoesOn};
ghost use Rattle.gc_script.specs.Named.{type_at, IsNamedSomewhere};
ghost use Rattle.gc_script.specs.Values.{is_opaque, CanStoreRaw};
ghost use Rattle.gc_script.specs.Writing.{ChecksWrite, FindsWritten};
ghost use Rattle.gc_store.specs.Stores.{IsSameStore};
ghost use Rattle.gc_store.specs.Values.{CanWrite, KeepsValue};

use crate::objects::{NamedObject, Wanted, find_object, type_at};
use crate::runner::Runner;
use crate::values::{check_value, operand_value};
use gc_commands::{Operand, Refusal};
use gc_heap::GcHeap;
use gc_store::{RawValue, Store};
use gc_types::FieldType;

/// What a command writes: the object and the value.
#[derive(Clone, Copy)]
pub(crate) struct Written {
    pub(crate) object: NamedObject,
    pub(crate) value: RawValue,
}

/// Whether a value of that type may not be written once its object is made.
#[inline(always)]
fn is_constant(field: Option<&FieldType>) -> bool
    ensures { result ≡ is_constant (option_copied field.entry) }
{
    match field {
        Some(field) => !field.mutability.is_var(),
        None => false,
    }
}

/// Whether the value may be written at that index: `Immutable` where none may, then as `check_value` says.
#[inline(always)]
fn check_write<H: GcHeap>(
    store: &Store<H, u64>,
    written: &Written,
    index: u32,
) -> Result<(), Refusal>
    ensures stores { OnOk result (CanStoreRaw H.KIND store.now (type_at store.now.types written.now.object.types index) written.now.value) }
    ensures plain { OnOk result (is_opaque written.now.value ≡ false) }
    ensures mutable { OnOk result (is_constant (type_at store.now.types written.now.object.types index) ≡ false) }
    ensures checks { (s : State) (v : Operand) → HoldsTable H.KIND store.now s.table
        → RegisterStands store.now s.table (Some written.now.value) (held_operand s v)
        → ChecksWrite store.now s (type_at s.table.types written.now.object.types index) v written.now.value result }
{
    let field = type_at(store, &written.object.types, index as usize);
    if is_constant(field) {
        return Err(Refusal::Immutable);
    }
    check_value(store, field, &written.value)
}

/// Writes a value that may be written and is no function or continuation. Takes no memory.
#[inline(always)]
fn write<H: GcHeap>(store: &mut Store<H, u64>, written: &Written, index: u32)
    requires can { CanWrite ℕ H.KIND store.old written.now.object.root index written.now.value }
    requires plain { is_opaque written.now.value ≡ false }
    ensures writes { (t : Table ℕ) (a : Account) → HoldsAccount H.KIND store.old t a
        → KeepsValue H.KIND store.old store.new t a written.now.object.root index written.now.value }
    ensures same { IsSameStore store.old store.new }
{
    match store.write_value(written.object.root, index, written.value) {
        Ok(()) => {}
        Err(_) => unreachable!(),
    }
}

impl Runner {
    /// The object that register `r` names, which is to be one of these, and the value of an operand.
    #[inline(always)]
    fn find_written<H: GcHeap>(
        &self,
        store: &Store<H, u64>,
        wanted: Wanted,
        r: u16,
        operand: &Operand,
    ) -> Result<Written, Refusal>
        ensures named { IfOk result (λ found. IsNamedSomewhere H.KIND store.now wanted found.object) }
        ensures finds { (s : State) → HoldsState H.KIND store.now self.now s → FindsWritten store.now s wanted r operand.now result }
    {
        let target = match self.registers.get(r) {
            Some(value) => value,
            None => return Err(Refusal::NoSuchName),
        };
        let value = match operand_value(&self.registers, operand) {
            Some(value) => value,
            None => return Err(Refusal::NoSuchName),
        };
        match find_object(store, &target, wanted) {
            Ok(object) => Ok(Written { object, value }),
            Err(why) => Err(why),
        }
    }

    /// Writes field `i` of the struct in register `r`: its index is tested before the value. Takes no memory.
    pub(crate) fn write_field<H: GcHeap>(
        &self,
        store: &mut Store<H, u64>,
        r: u16,
        i: u32,
        operand: &Operand,
    ) -> Result<(), Refusal>
        ensures goes { (s : State) → HoldsState H.KIND store.old self.now s
            → GoesOn H.KIND s (Command.SetField r i operand.now) (Ok (ended result)) store.new self.now }
        ensures same { IsSameStore store.old store.new }
    {
        let written = match self.find_written(store, Wanted::Struct, r, operand) {
            Ok(written) => written,
            Err(why) => return Err(why),
        };
        if i >= written.object.count {
            return Err(Refusal::OutOfBounds);
        }
        match check_write(store, &written, i) {
            Ok(()) => {
                write(store, &written, i);
                Ok(())
            }
            Err(why) => Err(why),
        }
    }

    /// Writes element `i` of the array in register `r`: its index is tested last. Takes no memory.
    pub(crate) fn write_element<H: GcHeap>(
        &self,
        store: &mut Store<H, u64>,
        r: u16,
        i: u32,
        operand: &Operand,
    ) -> Result<(), Refusal>
        ensures goes { (s : State) → HoldsState H.KIND store.old self.now s
            → GoesOn H.KIND s (Command.SetElem r i operand.now) (Ok (ended result)) store.new self.now }
        ensures same { IsSameStore store.old store.new }
    {
        let written = match self.find_written(store, Wanted::Array, r, operand) {
            Ok(written) => written,
            Err(why) => return Err(why),
        };
        if let Err(why) = check_write(store, &written, i) {
            return Err(why);
        }
        if i >= written.object.count {
            return Err(Refusal::OutOfBounds);
        }
        write(store, &written, i);
        Ok(())
    }
}
