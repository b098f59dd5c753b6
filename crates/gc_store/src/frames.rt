//! Frames: slots of a store that are roots as long as their frame is open.

ghost use Rattle.std.specs.Prelude.{◌≡◌, ◌<◌, ◌≤◌, ◌↔◌, ℕ, nat_lt, [], length, IsTrue, IsErrOf, Some, false, OnOk, OnErr, Err};
ghost use Rattle.gc_model.specs.Values.{Reference};
ghost use Rattle.gc_model.specs.Table.{Table, Slot};
ghost use Rattle.gc_model.specs.Frames.{newest, push_frame, slot_at, set_slot};
ghost use Rattle.gc_model.specs.Accounts.{Account, HoldsAccount};
ghost use Rattle.gc_store.specs.Slots.{SetsSlot, ReadsSlot, PopsFrame};
ghost use Rattle.gc_store.specs.Stores.{IsSameStore, scoped_places};

use crate::globals::SlotFault;
use crate::store::Store;
use gc_heap::GcHeap;
use gc_owner::{GcClass, SlotEntry};
use gc_values::root::GcRootIndex;
use std::alloc::AllocError;

impl<H: GcHeap, D: Drop> Store<H, D> {
    /// Opens a frame of so many slots, each null of class `Any`, which are roots until it is closed. Room for
    /// them in a later collection is made now. Its time is linear in the slots. An error is want of memory.
    pub fn push_frame(&mut self, slots: u32) -> Result<(), AllocError>
        ensures pushes { OnOk result ((t : Table D) (a : Account) → HoldsAccount H.KIND self.old t a → HoldsAccount H.KIND self.new (push_frame slots t) a) }
        ensures err { OnErr result (self.new ≡ self.old) }
        ensures same { IsSameStore self.old self.new }
        ensures spare { self.old.spare ≤ self.new.spare }
    {
        self.owner.is_ready();
        self.slot_counts.reserve(1)?;
        self.owner.push_frame(slots)?;
        self.slot_counts.push_reserved(slots);
        Ok(())
    }

    /// Closes the newest frame, whose slots are no roots from then on, in a time that is linear in them. False exactly
    /// where no frame is open. It takes no memory.
    pub fn pop_frame(&mut self) -> bool
        ensures pops { (t : Table D) (a : Account) → HoldsAccount H.KIND self.old t a → PopsFrame H.KIND t a result self.new }
        ensures none { result ≡ false → self.new ≡ self.old }
        ensures same { IsSameStore self.old self.new }
        ensures spare { self.old.spare ≤ self.new.spare }
    {
        self.owner.is_ready();
        if !self.owner.pop_frame() {
            return false;
        }
        self.slot_counts.pop();
        true
    }

    /// Sets a slot of the newest frame to what the handle names, or to null, with that class. What it named
    /// before is no longer named by it. `NoSlot` where no frame is open or it has no such slot; then
    /// `WrongStore` where it is another store's handle, and `Unrooted` where it isn't live. It takes no memory.
    pub fn slot_set(
        &mut self,
        slot: u32,
        class: GcClass,
        r: Option<GcRootIndex>,
    ) -> Result<(), SlotFault>
        ensures no_slot { IsErrOf result SlotFault.NoSlot ↔ (length (newest self.old.frames) ≤ slot) }
        ensures sets { (t : Table D) (a : Account) (there : Slot) → HoldsAccount H.KIND self.old t a → slot_at t slot ≡ Some there
            → SetsSlot H.KIND self.old t a r (λ (named : Reference). set_slot slot class named t) result self.new }
        ensures err { OnErr result (self.new ≡ self.old) }
        ensures same { IsSameStore self.old self.new }
        ensures spare { self.old.spare ≤ self.new.spare }
    {
        self.owner.is_ready();
        if !self.has_slot(slot) {
            return Err(SlotFault::NoSlot);
        }
        let word = match self.handle_word(r) {
            Ok(word) => word,
            Err(fault) => return Err(SlotFault::from(fault)),
        };
        self.owner.set_slot(slot, SlotEntry { class, word });
        Ok(())
    }

    /// The class of a slot of the newest frame and what it names: null, or a new scoped root of the same.
    /// `NoSlot` where no frame is open or it has no such slot; then `RootsFull` where it isn't null and no
    /// further root may be made.
    pub fn slot_get(&mut self, slot: u32) -> Result<(GcClass, Option<GcRootIndex>), SlotFault>
        ensures no_slot { IsErrOf result SlotFault.NoSlot ↔ (length (newest self.old.frames) ≤ slot) }
        ensures reads { (t : Table D) (a : Account) (there : Slot) → HoldsAccount H.KIND self.old t a → slot_at t slot ≡ Some there
            → ReadsSlot H.KIND t a there result self.new }
        ensures err { OnErr result (self.new ≡ self.old) }
        ensures same { IsSameStore self.old self.new }
        ensures spare { scoped_places self.old ≤ scoped_places self.new }
        ensures reserved { 0 < self.old.spare → result ≡ Err SlotFault.Memory → ⊥ }
    {
        self.owner.is_ready();
        if !self.has_slot(slot) {
            return Err(SlotFault::NoSlot);
        }
        let SlotEntry { class, word } = self.owner.slot(slot);
        match self.push_reference(word) {
            Ok(found) => Ok((class, found)),
            Err(fault) => Err(SlotFault::from(fault)),
        }
    }

    /// Whether the newest frame has that slot; where no frame is open there is none.
    pub fn has_slot(&self, slot: u32) -> bool
        ensures { result ≡ nat_lt slot (length (newest self.now.frames)) }
    {
        match self.slot_counts.last() {
            Some(count) => slot < *count,
            None => false,
        }
    }

    /// Whether no frame is open.
    pub(crate) fn has_no_frame(&self) -> bool
        ensures { IsTrue result ↔ (self.now.frames ≡ []) }
    {
        self.slot_counts.is_empty()
    }
}
