//! The commands on owned roots.

ghost use Rattle.std.specs.Prelude.{◌≡◌, ℕ, Ok, Option, OnErr};
ghost use Rattle.gc_commands.specs.declared.command.Command.TheVariants as Command;
ghost use Rattle.gc_model.specs.Table.{Table};
ghost use Rattle.gc_model.specs.Accounts.{Account, HoldsAccount};
ghost use Rattle.gc_script.specs.Endings.{answer_of, ended};
ghost use Rattle.gc_script.specs.State.{State, HeldOwned, StandsOwned, HoldsState};
ghost use Rattle.gc_script.specs.Shapes.{give_up};
ghost use Rattle.gc_script.specs.Run.{GoesOn};
ghost use Rattle.gc_script.specs.Wants.{MayWant};
ghost use Rattle.gc_store.specs.Stores.{IsSameStore};

use crate::ending::Ending;
use crate::runner::Runner;
use crate::values::slot_of;
use gc_commands::Refusal;
use gc_heap::GcHeap;
use gc_store::{RawValue, RootFault, Store};

/// Gives up the owned root that an owned register held, where it held one.
fn give_up_held<H: GcHeap>(store: &mut Store<H, u64>, held: Option<RawValue>)
    ensures gives_up { (t : Table ℕ) (a : Account) (h : Option HeldOwned) → HoldsAccount H.KIND store.old t a → StandsOwned store.old held h
        → HoldsAccount H.KIND store.new (give_up h t) a }
    ensures same { IsSameStore store.old store.new }
{
    match held {
        Some(value) => match value.handle() {
            Some(handle) => match store.release(handle) {
                Ok(_) => {}
                // An owned register holds handles of this store, which never answers this.
                Err(_) => {}
            },
            None => {}
        },
        None => {}
    }
}

impl Runner {
    /// Makes an owned root for what register `r` names, and puts it into owned register `o`. What that held is given up
    /// afterwards.
    pub(crate) fn own<H: GcHeap>(&mut self, store: &mut Store<H, u64>, o: u16, r: u16) -> Ending
        ensures goes { (s : State) → HoldsState H.KIND store.old self.old s → GoesOn H.KIND s (Command.Own o r) (answer_of result) store.new self.new }
        ensures cause { OnErr (answer_of result) ((s : State) → HoldsState H.KIND store.old self.old s → MayWant H.KIND s (Command.Own o r)) }
        ensures same { IsSameStore store.old store.new }
    {
        let (class, named) = match self.reference_in(store, r) {
            Ok(slot) => slot,
            Err(why) => return Ending::Refused(why),
        };
        let handle = match named {
            Some(handle) => handle,
            None => return Ending::Refused(Refusal::WrongKind),
        };
        if self.owned.make_room(o).is_err() {
            return Ending::OutOfMemory;
        }
        match store.own_root(handle) {
            Ok(made) => {
                let before = self.owned.get(o);
                self.owned.set(o, RawValue::Ref(class, Some(made)));
                give_up_held(store, before);
                Ending::Done
            }
            Err(RootFault::RootsFull) => Ending::Refused(Refusal::RootsFull),
            // The root is live, so only memory is wanting.
            Err(_) => Ending::OutOfMemory,
        }
    }

    /// Pushes a scoped root for what owned register `o` names, and puts it into register `d`.
    pub(crate) fn root<H: GcHeap>(&mut self, store: &mut Store<H, u64>, d: u16, o: u16) -> Ending
        ensures goes { (s : State) → HoldsState H.KIND store.old self.old s → GoesOn H.KIND s (Command.Root d o) (answer_of result) store.new self.new }
        ensures cause { OnErr (answer_of result) ((s : State) → HoldsState H.KIND store.old self.old s → MayWant H.KIND s (Command.Root d o)) }
        ensures same { IsSameStore store.old store.new }
    {
        let held = match self.owned.get(o) {
            Some(held) => held,
            None => return Ending::Refused(Refusal::NoSuchName),
        };
        let (class, named) = match slot_of(&held) {
            Some(slot) => slot,
            // An owned register holds no number.
            None => return Ending::Refused(Refusal::Unrooted),
        };
        let handle = match named {
            Some(handle) => handle,
            None => return Ending::Refused(Refusal::Unrooted),
        };
        if store.object(handle).is_err() {
            return Ending::Refused(Refusal::Unrooted);
        }
        if self.registers.make_room(d).is_err() {
            return Ending::OutOfMemory;
        }
        match store.push_copy(handle) {
            Ok(pushed) => {
                self.registers.set(d, RawValue::Ref(class, Some(pushed)));
                Ending::Done
            }
            Err(RootFault::Unrooted) => Ending::Refused(Refusal::Unrooted),
            Err(RootFault::RootsFull) => Ending::Refused(Refusal::RootsFull),
            // The handle is this store's, so only memory is wanting.
            Err(_) => Ending::OutOfMemory,
        }
    }

    /// Gives up what owned register `o` names. Takes no memory.
    pub(crate) fn unroot<H: GcHeap>(
        &mut self,
        store: &mut Store<H, u64>,
        o: u16,
    ) -> Result<(), Refusal>
        ensures goes { (s : State) → HoldsState H.KIND store.old self.old s → GoesOn H.KIND s (Command.Unroot o) (Ok (ended result)) store.new self.new }
        ensures same { IsSameStore store.old store.new }
    {
        let held = match self.owned.get(o) {
            Some(held) => held,
            None => return Err(Refusal::NoSuchName),
        };
        let (class, named) = match slot_of(&held) {
            Some(slot) => slot,
            // An owned register holds no number.
            None => return Err(Refusal::Unrooted),
        };
        let handle = match named {
            Some(handle) => handle,
            None => return Err(Refusal::Unrooted),
        };
        match store.release(handle) {
            Ok(was_held) => {
                if !was_held {
                    return Err(Refusal::Unrooted);
                }
                self.owned.set(o, RawValue::Ref(class, None));
                Ok(())
            }
            // The handle is this store's, which never answers this.
            Err(_) => Err(Refusal::Unrooted),
        }
    }
}
