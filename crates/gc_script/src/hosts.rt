//! The commands that make host objects and tell their numbers.

ghost use Rattle.std.specs.Prelude.{Ok};
ghost use Rattle.gc_commands.specs.declared.command.Command.TheVariants as Command;
ghost use Rattle.gc_script.specs.Endings.{answer_of};
ghost use Rattle.gc_script.specs.State.{State, HoldsState};
ghost use Rattle.gc_script.specs.Run.{RunsOne, GoesOn};
ghost use Rattle.gc_store.specs.Stores.{IsSameStore};

use crate::ending::Ending;
use crate::runner::Runner;
use crate::values::is_live;
use gc_commands::{Refusal, Reply};
use gc_heap::GcHeap;
use gc_store::{GcClass, PlaceHostFault, RawValue, ResourceLimiter, Store};

impl Runner {
    /// Makes a host object with that number, and puts it into register `d`.
    pub(crate) fn make_host<H: GcHeap, L: ResourceLimiter>(
        &mut self,
        store: &mut Store<H, u64>,
        limiter: &mut L,
        d: u16,
        n: u64,
    ) -> Ending
        ensures runs { (s : State) → HoldsState H.KIND store.old self.old s
            → RunsOne H.KIND store.old.alloc_counter (L.limits limiter.old) (L.limits limiter.new) s (Command.Host d n) (answer_of result) store.new self.new }
        ensures same { IsSameStore store.old store.new }
    {
        if self.registers.make_room(d).is_err() {
            return Ending::OutOfMemory;
        }
        match store.place_host(limiter, n) {
            Ok(handle) => {
                self.registers
                    .set(d, RawValue::Ref(GcClass::Extern, Some(handle)));
                Ending::Done
            }
            Err(PlaceHostFault::RootsFull) => Ending::Refused(Refusal::RootsFull),
            Err(PlaceHostFault::HeapOutOfMemory(_)) => {
                Ending::Refused(Refusal::GcHeapOutOfMemory)
            }
            Err(PlaceHostFault::Memory) => Ending::OutOfMemory,
        }
    }

    /// Tells the number of the host object in register `r`: `NoSuchName` where the register is unset, `Unrooted` where
    /// its root is gone, `WrongKind` where it holds anything else.
    pub(crate) fn host_number<H: GcHeap>(&self, store: &Store<H, u64>, r: u16) -> Reply
        ensures goes { (s : State) → HoldsState H.KIND store.now self.now s → GoesOn H.KIND s (Command.HostNumber r) (Ok result) store.now self.now }
    {
        let value = match self.registers.get(r) {
            Some(value) => value,
            None => return Reply::Refused(Refusal::NoSuchName),
        };
        if !is_live(store, &value) {
            return Reply::Refused(Refusal::Unrooted);
        }
        let root = match value.handle() {
            Some(root) => root,
            None => return Reply::Refused(Refusal::WrongKind),
        };
        match store.host_data(root) {
            Ok(Some(number)) => Reply::HostNumber(*number),
            Ok(None) => Reply::Refused(Refusal::WrongKind),
            // The root is live, so the store never answers this.
            Err(_) => Reply::Refused(Refusal::Unrooted),
        }
    }
}
