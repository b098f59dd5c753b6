//! The commands that enter and leave scopes.

ghost use Rattle.std.specs.Prelude.{◌≡◌, ℕ, Ok};
ghost use Rattle.gc_commands.specs.declared.command.Command.TheVariants as Command;
ghost use Rattle.gc_script.specs.Endings.{answer_of, ended};
ghost use Rattle.gc_script.specs.State.{State, HoldsState};
ghost use Rattle.gc_script.specs.Run.{GoesOn};
ghost use Rattle.gc_store.specs.Stores.{IsSameStore};

use crate::ending::Ending;
use crate::runner::Runner;
use gc_commands::Refusal;
use gc_heap::GcHeap;
use gc_store::Store;

impl Runner {
    /// Enters a scope of roots.
    #[inline(always)]
    pub(crate) fn enter<H: GcHeap>(&mut self, store: &Store<H, u64>) -> Ending
        ensures goes { (s : State) → HoldsState H.KIND store.now self.old s → GoesOn H.KIND s Command.Enter (answer_of result) store.now self.new }
    {
        match self.marks.push(store.enter_gc_lifo_scope()) {
            Ok(()) => Ending::Done,
            Err(_) => Ending::OutOfMemory,
        }
    }

    /// Leaves the scope that was entered last.
    #[inline(always)]
    pub(crate) fn leave<H: GcHeap>(&mut self, store: &mut Store<H, u64>) -> Result<(), Refusal>
        ensures goes { (s : State) → HoldsState H.KIND store.old self.old s → GoesOn H.KIND s Command.Leave (Ok (ended result)) store.new self.new }
        ensures same { IsSameStore store.old store.new }
    {
        let Some(mark) = self.marks.pop() else {
            return Err(Refusal::NoSuchName);
        };
        // A scope that was left with more roots than stand has none to drop.
        let scope = mark.min(store.enter_gc_lifo_scope());
        store.exit_gc_lifo_scope(scope);
        Ok(())
    }
}
