//! The registers of a session.

ghost use Rattle.std.specs.Prelude.{◌≡◌, ◌≢◌, ◌<◌, ◌≤◌, ℕ, length, Some, None, OnOk, OnErr, [], option_copied, slice_set};
ghost use Rattle.gc_script.specs.Slots.{register_at};

use gc_store::RawValue;
use std::alloc::{AllocError, Global};
use std::marker::Model;

/// The registers that were set, by their numbers. A register holds a number, or a class with a handle or
/// null.
#[derive(Drop)]
pub(crate) struct Registers {
    slots: Vec<Option<RawValue>>,
}

impl Model for Registers {
    ghost use Rattle.std.specs.Prelude.{List, Option};
    ghost use Rattle.gc_values.specs.declared.root.RawValue.{RawValue};

    ghost Value = { List (Option RawValue) };

    ghost view = { λ r. r.slots.items };
}

/// Adds unset registers until there are so many.
#[inline(always)]
fn extend_to(slots: &mut Vec<Option<RawValue>>, wanted: usize) -> Result<(), AllocError>
    ensures room { OnOk result (wanted ≤ length slots.new.items) }
    ensures had_less { OnErr result (length slots.old.items < wanted) }
    ensures same { (d : ℕ) → register_at slots.new.items d ≡ register_at slots.old.items d }
{
    let present = slots.len();
    for _count in present..wanted {
        slots.extend_from_slice(&[None])?;
    }
    Ok(())
}

impl Registers {
    /// No register is set.
    pub(crate) fn new(alloc: Global) -> Registers
        ensures { result ≡ [] }
    {
        Registers {
            slots: Vec::new(alloc),
        }
    }

    /// What the register holds, if it was set.
    #[inline(always)]
    pub(crate) fn get(&self, number: u16) -> Option<RawValue>
        ensures { result ≡ register_at self.now number }
    {
        match self.slots.get(number as usize) {
            Some(slot) => *slot,
            None => None,
        }
    }

    /// What the register holds, where it lies.
    #[inline(always)]
    pub(crate) fn held(&self, number: u16) -> Option<&RawValue>
        ensures { option_copied result ≡ register_at self.now number }
    {
        match self.slots.get(number as usize) {
            Some(slot) => slot.as_ref(),
            None => None,
        }
    }

    /// Makes room for the register, which stays unset.
    #[inline(always)]
    pub(crate) fn make_room(&mut self, number: u16) -> Result<(), AllocError>
        ensures room { OnOk result (number < length self.new) }
        ensures had_none { OnErr result (length self.old ≤ number) }
        ensures same { (d : ℕ) → register_at self.new d ≡ register_at self.old d }
    {
        extend_to(&mut self.slots, number as usize + 1)
    }

    /// Sets the register, for which there is room.
    #[inline(always)]
    pub(crate) fn set(&mut self, number: u16, register: RawValue)
        requires { number < length self.old }
        ensures set { register_at self.new number ≡ Some register }
        ensures others { (d : ℕ) → d ≢ number → register_at self.new d ≡ register_at self.old d }
    {
        self.slots[number as usize] = Some(register);
    }
}
