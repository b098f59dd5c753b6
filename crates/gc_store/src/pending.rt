//! The pending exception, which is a root of a store.

ghost use Rattle.std.specs.Prelude.{◌≡◌, ◌≤◌, ◌<◌, ◌↔◌, IsTrue, None, OnErr, Err};
ghost use Rattle.gc_model.specs.Table.{Table};
ghost use Rattle.gc_model.specs.Pending.{take_pending};
ghost use Rattle.gc_model.specs.Holds.{HoldsTable};
ghost use Rattle.gc_model.specs.Accounts.{Account, HoldsAccount};
ghost use Rattle.gc_store.specs.Thrown.{NamesException, SetsPending, AnswersPending, TellsTag};
ghost use Rattle.gc_store.specs.Stores.{IsSameStore, scoped_places};

use crate::store::Store;
use gc_heap::GcHeap;
use gc_types::Tag;
use gc_values::root::{GcRootIndex, RootFault, RootedObject};

impl<H: GcHeap, D: Drop> Store<H, D> {
    /// Makes an exception the pending one, in place of one that was. `WrongStore` where the handle is another store's,
    /// `Unrooted` where it isn't live. It takes no memory.
    pub fn set_pending(&mut self, exception: GcRootIndex) -> Result<(), RootFault>
        requires { NamesException D H.KIND self.old exception }
        ensures sets { (t : Table D) (a : Account) → HoldsAccount H.KIND self.old t a → SetsPending H.KIND self.old t a exception result self.new }
        ensures err { OnErr result (self.new ≡ self.old) }
        ensures same { IsSameStore self.old self.new }
        ensures spare { self.old.spare ≤ self.new.spare }
    {
        self.owner.is_ready();
        match self.word_of(exception) {
            Ok(word) => {
                self.owner.set_pending(word);
                Ok(())
            }
            Err(fault) => Err(fault),
        }
    }

    /// Takes the pending exception: it gets a new scoped root, and none is pending. None exactly where none is.
    /// `RootsFull` where one is pending and no further scoped root may be made; after a refusal it stays pending.
    pub fn take_pending(&mut self) -> Result<Option<GcRootIndex>, RootFault>
        ensures takes { (t : Table D) (a : Account) → HoldsAccount H.KIND self.old t a → AnswersPending H.KIND t a result self.new }
        ensures err { OnErr result (self.new ≡ self.old) }
        ensures same { IsSameStore self.old self.new }
        ensures spare { scoped_places self.old ≤ scoped_places self.new }
        ensures reserved { 0 < self.old.spare → result ≡ Err RootFault.Memory → ⊥ }
    {
        self.owner.is_ready();
        let word = self.owner.pending();
        if word == 0 {
            return Ok(None);
        }
        match self.push_root(word) {
            Ok(handle) => {
                self.clear_pending();
                Ok(Some(handle))
            }
            Err(fault) => Err(fault),
        }
    }

    /// Leaves no exception pending.
    fn clear_pending(&mut self)
        ensures clears { (t : Table D) (a : Account) → HoldsAccount H.KIND self.old t a → HoldsAccount H.KIND self.new (take_pending t) a }
        ensures same { IsSameStore self.old self.new }
        ensures spare { scoped_places self.old ≤ scoped_places self.new }
    {
        self.owner.is_ready();
        self.owner.set_pending(0);
    }

    /// Whether an exception is pending.
    pub fn has_pending_exception(&self) -> bool
        ensures { (t : Table D) → HoldsTable H.KIND self.now t → IsTrue result ↔ ¬ (t.pending ≡ None) }
    {
        self.owner.is_ready();
        self.owner.pending() != 0
    }

    /// The tag of the pending exception; None exactly where none is pending.
    pub fn pending_exception_tag_and_instance(&self) -> Option<Tag>
        ensures { (t : Table D) → HoldsTable H.KIND self.now t → TellsTag t result }
    {
        self.owner.is_ready();
        let word = self.owner.pending();
        if word == 0 {
            return None;
        }
        match self.describe(word) {
            RootedObject::Exn(_, tag) => Some(tag),
            RootedObject::I31(_) => unreachable!(),
            RootedObject::Struct(_) => unreachable!(),
            RootedObject::Array(..) => unreachable!(),
            RootedObject::Host => unreachable!(),
        }
    }
}
