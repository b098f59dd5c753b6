//! The references that registers hold, and the command that compares two.

ghost use Rattle.std.specs.Prelude.{Ok};
ghost use Rattle.gc_commands.specs.declared.command.Command.TheVariants as Command;
ghost use Rattle.gc_script.specs.State.{State, HoldsState};
ghost use Rattle.gc_script.specs.Run.{GoesOn};
ghost use Rattle.gc_script.specs.Values.{FindsReference};

use crate::runner::Runner;
use crate::values::{is_live, slot_of};
use gc_commands::{Refusal, Reply};
use gc_heap::GcHeap;
use gc_store::{GcClass, GcRootIndex, Store};

impl Runner {
    /// The class and the handle of the reference in register `r`, without one for null: `NoSuchName` where the register is
    /// unset, `Unrooted` where its root is gone, `WrongKind` where it holds a number.
    #[inline(always)]
    pub(crate) fn reference_in<H: GcHeap>(
        &self,
        store: &Store<H, u64>,
        r: u16,
    ) -> Result<(GcClass, Option<GcRootIndex>), Refusal>
        ensures { (s : State) → HoldsState H.KIND store.now self.now s → FindsReference store.now s r result }
    {
        let value = match self.registers.get(r) {
            Some(value) => value,
            None => return Err(Refusal::NoSuchName),
        };
        if !is_live(store, &value) {
            return Err(Refusal::Unrooted);
        }
        match slot_of(&value) {
            Some(slot) => Ok(slot),
            None => Err(Refusal::WrongKind),
        }
    }

    /// Whether registers `r` and `q` hold the same reference.
    pub(crate) fn compare<H: GcHeap>(&self, store: &Store<H, u64>, r: u16, q: u16) -> Reply
        ensures goes { (s : State) → HoldsState H.KIND store.now self.now s → GoesOn H.KIND s (Command.Eq r q) (Ok result) store.now self.now }
    {
        let first = match self.registers.get(r) {
            Some(value) => value,
            None => return Reply::Refused(Refusal::NoSuchName),
        };
        let second = match self.registers.get(q) {
            Some(value) => value,
            None => return Reply::Refused(Refusal::NoSuchName),
        };
        if !is_live(store, &first) || !is_live(store, &second) {
            return Reply::Refused(Refusal::Unrooted);
        }
        let first_root = match first.handle() {
            Some(root) => root,
            None => return Reply::Refused(Refusal::WrongKind),
        };
        let second_root = match second.handle() {
            Some(root) => root,
            None => return Reply::Refused(Refusal::WrongKind),
        };
        match store.index_eq(first_root, second_root) {
            Ok(same) => Reply::Same(same),
            // Both roots are live, so the store never answers this.
            Err(_) => Reply::Refused(Refusal::Unrooted),
        }
    }
}
