//! The commands that open and close frames, and set and read their slots.

ghost use Rattle.std.specs.Prelude.{◌≡◌, Ok, OnErr};
ghost use Rattle.gc_commands.specs.declared.command.Command.TheVariants as Command;
ghost use Rattle.gc_script.specs.Endings.{answer_of, ended};
ghost use Rattle.gc_script.specs.State.{State, HoldsState};
ghost use Rattle.gc_script.specs.Run.{GoesOn};
ghost use Rattle.gc_script.specs.Wants.{MayWant};
ghost use Rattle.gc_store.specs.Stores.{IsSameStore};

use crate::ending::Ending;
use crate::reads::{make_room, put_read};
use crate::runner::{RunError, Runner};
use gc_commands::{Refusal, Reply};
use gc_heap::GcHeap;
use gc_store::{RawValue, SlotFault, Store};

impl Runner {
    /// Opens a frame of that many slots.
    #[inline(always)]
    pub(crate) fn push_frame<H: GcHeap>(&self, store: &mut Store<H, u64>, slots: u16) -> Ending
        ensures goes { (s : State) → HoldsState H.KIND store.old self.now s → GoesOn H.KIND s (Command.Push slots) (answer_of result) store.new self.now }
        ensures same { IsSameStore store.old store.new }
    {
        match store.push_frame(u32::from(slots)) {
            Ok(()) => Ending::Done,
            Err(_) => Ending::OutOfMemory,
        }
    }

    /// Closes the newest frame. Takes no memory.
    #[inline(always)]
    pub(crate) fn pop_frame<H: GcHeap>(&self, store: &mut Store<H, u64>) -> Result<(), Refusal>
        ensures goes { (s : State) → HoldsState H.KIND store.old self.now s → GoesOn H.KIND s Command.Pop (Ok (ended result)) store.new self.now }
        ensures same { IsSameStore store.old store.new }
    {
        if store.pop_frame() {
            Ok(())
        } else {
            Err(Refusal::NoSuchName)
        }
    }

    /// Sets slot `k` of the newest frame to the reference in register `r`. Takes no memory.
    pub(crate) fn store_slot<H: GcHeap>(
        &self,
        store: &mut Store<H, u64>,
        k: u16,
        r: u16,
    ) -> Result<(), Refusal>
        ensures goes { (s : State) → HoldsState H.KIND store.old self.now s → GoesOn H.KIND s (Command.Store k r) (Ok (ended result)) store.new self.now }
        ensures same { IsSameStore store.old store.new }
    {
        let slot = u32::from(k);
        if !store.has_slot(slot) {
            return Err(Refusal::NoSuchName);
        }
        let (class, handle) = match self.reference_in(store, r) {
            Ok(slot) => slot,
            Err(why) => return Err(why),
        };
        match store.slot_set(slot, class, handle) {
            Ok(()) => Ok(()),
            // The slot is there and the root is live, so the store never answers this.
            Err(_) => Err(Refusal::Unrooted),
        }
    }

    /// The value of slot `k` of the newest frame, which goes into register `d`.
    pub(crate) fn load_slot<H: GcHeap>(
        &mut self,
        store: &mut Store<H, u64>,
        k: u16,
        d: u16,
    ) -> Result<Reply, RunError>
        ensures goes { (s : State) → HoldsState H.KIND store.old self.old s → GoesOn H.KIND s (Command.Load k d) result store.new self.new }
        ensures cause { OnErr result ((s : State) → HoldsState H.KIND store.old self.old s → MayWant H.KIND s (Command.Load k d)) }
        ensures same { IsSameStore store.old store.new }
    {
        let slot = u32::from(k);
        if !store.has_slot(slot) {
            return Ok(Reply::Refused(Refusal::NoSuchName));
        }
        let into = Some(d);
        if make_room(&mut self.registers, into).is_err() {
            return Err(RunError::OutOfMemory);
        }
        match store.slot_get(slot) {
            Ok((class, handle)) => {
                let value = RawValue::Ref(class, handle);
                Ok(put_read(&mut self.registers, store, into, value))
            }
            Err(SlotFault::RootsFull) => Ok(Reply::Refused(Refusal::RootsFull)),
            // The slot is there, so only memory is wanting.
            Err(_) => Err(RunError::OutOfMemory),
        }
    }
}
