//! The commands that set and read globals.

ghost use Rattle.std.specs.Prelude.{◌≡◌, Ok, OnErr};
ghost use Rattle.gc_commands.specs.declared.command.Command.TheVariants as Command;
ghost use Rattle.gc_script.specs.Endings.{ended};
ghost use Rattle.gc_script.specs.State.{State, HoldsState};
ghost use Rattle.gc_script.specs.Run.{GoesOn};
ghost use Rattle.gc_script.specs.Wants.{MayWant};
ghost use Rattle.gc_store.specs.Stores.{IsSameStore};

use crate::reads::{make_room, put_read};
use crate::runner::{RunError, Runner};
use gc_commands::{Refusal, Reply};
use gc_heap::GcHeap;
use gc_store::{GLOBAL_COUNT, RawValue, SlotFault, Store};

impl Runner {
    /// Sets global `g` to the reference in register `r`. Takes no memory.
    pub(crate) fn set_global<H: GcHeap>(
        &self,
        store: &mut Store<H, u64>,
        g: u16,
        r: u16,
    ) -> Result<(), Refusal>
        ensures goes { (s : State) → HoldsState H.KIND store.old self.now s → GoesOn H.KIND s (Command.SetGlobal g r) (Ok (ended result)) store.new self.now }
        ensures same { IsSameStore store.old store.new }
    {
        let global = u32::from(g);
        if global >= GLOBAL_COUNT {
            return Err(Refusal::NoSuchName);
        }
        let (class, handle) = match self.reference_in(store, r) {
            Ok(slot) => slot,
            Err(why) => return Err(why),
        };
        match store.global_set(global, class, handle) {
            Ok(()) => Ok(()),
            // The global is there and the root is live, so the store never answers this.
            Err(_) => Err(Refusal::Unrooted),
        }
    }

    /// The value of global `g`, which goes into register `d`.
    pub(crate) fn get_global<H: GcHeap>(
        &mut self,
        store: &mut Store<H, u64>,
        g: u16,
        d: u16,
    ) -> Result<Reply, RunError>
        ensures goes { (s : State) → HoldsState H.KIND store.old self.old s → GoesOn H.KIND s (Command.GetGlobal g d) result store.new self.new }
        ensures cause { OnErr result ((s : State) → HoldsState H.KIND store.old self.old s → MayWant H.KIND s (Command.GetGlobal g d)) }
        ensures same { IsSameStore store.old store.new }
    {
        let global = u32::from(g);
        if global >= GLOBAL_COUNT {
            return Ok(Reply::Refused(Refusal::NoSuchName));
        }
        let into = Some(d);
        if make_room(&mut self.registers, into).is_err() {
            return Err(RunError::OutOfMemory);
        }
        match store.global_get(global) {
            Ok((class, handle)) => {
                let value = RawValue::Ref(class, handle);
                Ok(put_read(&mut self.registers, store, into, value))
            }
            Err(SlotFault::RootsFull) => Ok(Reply::Refused(Refusal::RootsFull)),
            // The global is there, so only memory is wanting.
            Err(_) => Err(RunError::OutOfMemory),
        }
    }
}
