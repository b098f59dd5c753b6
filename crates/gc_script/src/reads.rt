//! The commands that read values of objects, and what becomes of a value that was read.

ghost use Rattle.std.specs.Prelude.{◌≡◌, ℕ, Some, Ok, option_copied, OnOk, OnErr};
ghost use Rattle.gc_commands.specs.declared.command.Command.TheVariants as Command;
ghost use Rattle.gc_script.specs.State.{State, HoldsState};
ghost use Rattle.gc_script.specs.Given.{holds_bytes};
ghost use Rattle.gc_script.specs.Shapes.{plain, reads_value, value_in};
ghost use Rattle.gc_script.specs.Steps.{first_failing, reading_tests};
ghost use Rattle.gc_script.specs.Run.{GoesOn, GoesBy};
ghost use Rattle.gc_script.specs.Wants.{IsUnrefused, ReadTakes, MayWant};
ghost use Rattle.gc_script.specs.Slots.{register_at};
ghost use Rattle.gc_script.specs.Named.{wants, HasRegister, LacksRegister, register_with};
ghost use Rattle.gc_script.specs.Values.{ShowsRead, registered};
ghost use Rattle.gc_store.specs.Stores.{IsSameStore};

use crate::objects::{Wanted, find_object, type_at};
use crate::registers::Registers;
use crate::runner::{RunError, Runner};
use crate::shown::shown;
use crate::values::is_opaque;
use gc_commands::{ByteText, Refusal, Reply};
use gc_heap::GcHeap;
use gc_store::{RawValue, RootFault, Store};
use gc_types::FieldType;
use std::alloc::AllocError;

/// Makes room for a register, where one is named.
#[inline(always)]
pub(crate) fn make_room(registers: &mut Registers, into: Option<u16>) -> Result<(), AllocError>
    ensures room { OnOk result (HasRegister into registers.new) }
    ensures had_none { OnErr result (LacksRegister into registers.old) }
    ensures same { (d : ℕ) → register_at registers.new d ≡ register_at registers.old d }
{
    match into {
        Some(number) => registers.make_room(number),
        None => Ok(()),
    }
}

/// Puts a value into a register, where one is named.
#[inline(always)]
fn put_into(registers: &mut Registers, into: Option<u16>, value: RawValue)
    requires { HasRegister into registers.old }
    ensures { (d : ℕ) → register_at registers.new d ≡ register_with into (Some value) registers.old d }
{
    match into {
        Some(number) => registers.set(number, value),
        None => {}
    }
}

/// Puts a value that was read into a register, where one is named, and shows it. No register takes a function or a
/// continuation: it stays as it was.
#[inline(always)]
pub(crate) fn put_read<H: GcHeap>(
    registers: &mut Registers,
    store: &Store<H, u64>,
    into: Option<u16>,
    value: RawValue,
) -> Reply
    requires { HasRegister into registers.old }
    ensures put { (d : ℕ) → register_at registers.new d ≡ register_with into (registered value) registers.old d }
    ensures shows { ShowsRead H.KIND store.now value result }
{
    let shows = shown(store, &value);
    if !is_opaque(&value) {
        put_into(registers, into, value);
    }
    Reply::Value(shows)
}

/// Whether elements of that type are 8 bits wide.
fn holds_bytes(element: Option<&FieldType>) -> bool
    ensures { result ≡ holds_bytes (option_copied element.entry) }
{
    match element {
        Some(element) => element.element_type.is_i8(),
        None => false,
    }
}

impl Runner {
    /// The value at index `i` of the object in register `r`, which is to be one of these; it goes into register
    /// `into` where one is named.
    pub(crate) fn read_value<H: GcHeap>(
        &mut self,
        store: &mut Store<H, u64>,
        wanted: Wanted,
        r: u16,
        i: u32,
        into: Option<u16>,
    ) -> Result<Reply, RunError>
        ensures goes { (s : State) → HoldsState H.KIND store.old self.old s
            → GoesBy H.KIND s (plain (reads_value r i into)) (reading_tests (wants wanted) s r i) result store.new self.new }
        ensures cause { OnErr result ((s : State) → HoldsState H.KIND store.old self.old s
            → ReadTakes s (value_in s r i) into × IsUnrefused (first_failing (reading_tests (wants wanted) s r i))) }
        ensures same { IsSameStore store.old store.new }
    {
        let value = match self.registers.get(r) {
            Some(value) => value,
            None => return Ok(Reply::Refused(Refusal::NoSuchName)),
        };
        let object = match find_object(store, &value, wanted) {
            Ok(object) => object,
            Err(why) => return Ok(Reply::Refused(why)),
        };
        if i >= object.count {
            return Ok(Reply::Refused(Refusal::OutOfBounds));
        }
        if make_room(&mut self.registers, into).is_err() {
            return Err(RunError::OutOfMemory);
        }
        match store.read_value(object.root, i) {
            Ok(value) => Ok(put_read(&mut self.registers, store, into, value)),
            Err(RootFault::RootsFull) => Ok(Reply::Refused(Refusal::RootsFull)),
            // The root is live, so only memory is wanting.
            Err(_) => Err(RunError::OutOfMemory),
        }
    }

    /// The length of the array in register `r`.
    pub(crate) fn length<H: GcHeap>(&self, store: &Store<H, u64>, r: u16) -> Reply
        ensures { (s : State) → HoldsState H.KIND store.now self.now s → GoesOn H.KIND s (Command.Len r) (Ok result) store.now self.now }
    {
        let value = match self.registers.get(r) {
            Some(value) => value,
            None => return Reply::Refused(Refusal::NoSuchName),
        };
        match find_object(store, &value, Wanted::Array) {
            Ok(object) => Reply::Length(object.count),
            Err(why) => Reply::Refused(why),
        }
    }

    /// The bytes of the array in register `r`, which is to have `len` elements of 8 bits.
    pub(crate) fn read_bytes<H: GcHeap>(
        &self,
        store: &Store<H, u64>,
        r: u16,
        len: u32,
    ) -> Result<Reply, RunError>
        ensures goes { (s : State) → HoldsState H.KIND store.now self.now s → GoesOn H.KIND s (Command.ReadBytes r len) result store.now self.now }
        ensures cause { OnErr result ((s : State) → HoldsState H.KIND store.now self.now s → MayWant H.KIND s (Command.ReadBytes r len)) }
    {
        let value = match self.registers.get(r) {
            Some(value) => value,
            None => return Ok(Reply::Refused(Refusal::NoSuchName)),
        };
        let object = match find_object(store, &value, Wanted::Array) {
            Ok(object) => object,
            Err(why) => return Ok(Reply::Refused(why)),
        };
        if !holds_bytes(type_at(store, &object.types, 0)) {
            return Ok(Reply::Refused(Refusal::NotI8Array));
        }
        if object.count != len {
            return Ok(Reply::Refused(Refusal::LengthMismatch));
        }
        let mut bytes = match vec![in self.alloc; 0; len as usize] {
            Ok(bytes) => bytes,
            Err(_) => return Err(RunError::OutOfMemory),
        };
        store.copy_bytes(object.root, bytes.as_mut_slice());
        Ok(Reply::Bytes(ByteText::from_vec(bytes)))
    }
}
