//! Globals: slots of a store that are roots.

ghost use Rattle.std.specs.Prelude.{◌≡◌, ◌<◌, ◌≤◌, ◌↔◌, ℕ, IsTrue, IsErrOf, Some, OnErr, Err};
ghost use Rattle.gc_model.specs.Values.{Reference};
ghost use Rattle.gc_model.specs.Table.{Table, Slot, global_count};
ghost use Rattle.gc_model.specs.Globals.{set_global, global_at};
ghost use Rattle.gc_model.specs.Stores.{unset_globals};
ghost use Rattle.gc_model.specs.Holds.{Holds, Placing};
ghost use Rattle.gc_model.specs.Accounts.{Account, HoldsAccount};
ghost use Rattle.gc_store.specs.Slots.{told_of_slot, FindsWord, SetsSlot, ReadsSlot};
ghost use Rattle.gc_store.specs.Stores.{IsSameStore, scoped_places};

use crate::store::Store;
use gc_heap::GcHeap;
use gc_owner::{GcClass, SlotEntry};
use gc_values::root::{GcRootIndex, RootFault};
use thiserror::Error;

/// How many globals a store has.
pub const GLOBAL_COUNT: u32 = 16;

/// Why a slot is not set or read.
#[derive(Clone, Copy, Debug, PartialEq, Eq, Error)]
pub enum SlotFault {
    #[error("there is no such slot")]
    NoSlot,
    #[error("the handle is another store's")]
    WrongStore,
    #[error("the handle's root was dropped")]
    Unrooted,
    #[error("no further root may be made")]
    RootsFull,
    #[error("out of memory")]
    Memory,
}

impl From<RootFault> for SlotFault {
    ghost from_gives = { λ fault e. e ≡ told_of_slot fault };

    fn from(fault: RootFault) -> SlotFault {
        match fault {
            RootFault::WrongStore => SlotFault::WrongStore,
            RootFault::Unrooted => SlotFault::Unrooted,
            RootFault::RootsFull => SlotFault::RootsFull,
            RootFault::Memory => SlotFault::Memory,
        }
    }
}

impl<H: GcHeap, D: Drop> Store<H, D> {
    /// The word that a slot has for what the handle names; 0 for null.
    pub(crate) fn handle_word(&self, handle: Option<GcRootIndex>) -> Result<u32, RootFault>
        ensures { (t : Table D) (place : Placing) → Holds H.KIND self.now t place → FindsWord self.now t place handle result }
    {
        match handle {
            Some(handle) => self.word_of(handle),
            None => Ok(0),
        }
    }

    /// Sets a global to what the handle names, or to null, with that class. It is a root from then on, and
    /// what it named before is no longer named by it. `NoSlot` where there is no such global; then
    /// `WrongStore` where it is another store's handle, and `Unrooted` where it isn't live. It takes no memory.
    pub fn global_set(
        &mut self,
        global: u32,
        class: GcClass,
        r: Option<GcRootIndex>,
    ) -> Result<(), SlotFault>
        ensures no_slot { IsErrOf result SlotFault.NoSlot ↔ (global_count ≤ global) }
        ensures sets { (t : Table D) (a : Account) (slot : Slot) → HoldsAccount H.KIND self.old t a → global_at t global ≡ Some slot
            → SetsSlot H.KIND self.old t a r (λ (named : Reference). set_global global class named t) result self.new }
        ensures err { OnErr result (self.new ≡ self.old) }
        ensures same { IsSameStore self.old self.new }
        ensures spare { self.old.spare ≤ self.new.spare }
    {
        if global >= GLOBAL_COUNT {
            return Err(SlotFault::NoSlot);
        }
        let word = match self.handle_word(r) {
            Ok(word) => word,
            Err(fault) => return Err(SlotFault::from(fault)),
        };
        self.owner.set_global(global, SlotEntry { class, word });
        Ok(())
    }

    /// The class of a global and what it names: null, or a new scoped root of the same. `NoSlot` where
    /// there is no such global; then `RootsFull` where it isn't null and no further root may be made.
    pub fn global_get(&mut self, global: u32) -> Result<(GcClass, Option<GcRootIndex>), SlotFault>
        ensures no_slot { IsErrOf result SlotFault.NoSlot ↔ (global_count ≤ global) }
        ensures reads { (t : Table D) (a : Account) (slot : Slot) → HoldsAccount H.KIND self.old t a → global_at t global ≡ Some slot
            → ReadsSlot H.KIND t a slot result self.new }
        ensures err { OnErr result (self.new ≡ self.old) }
        ensures same { IsSameStore self.old self.new }
        ensures spare { scoped_places self.old ≤ scoped_places self.new }
        ensures reserved { 0 < self.old.spare → result ≡ Err SlotFault.Memory → ⊥ }
    {
        if global >= GLOBAL_COUNT {
            return Err(SlotFault::NoSlot);
        }
        let SlotEntry { class, word } = self.owner.global(global);
        match self.push_reference(word) {
            Ok(found) => Ok((class, found)),
            Err(fault) => Err(SlotFault::from(fault)),
        }
    }

    /// Whether each global is null of class `Any`, as in a new store.
    pub(crate) fn has_unset_globals(&self) -> bool
        ensures { IsTrue result ↔ (self.now.globals ≡ unset_globals) }
    {
        for global in 0..GLOBAL_COUNT {
            let entry = self.owner.global(global);
            if entry.word != 0 || entry.class != GcClass::Any {
                return false;
            }
        }
        true
    }
}
