//! References by their raw words, for code that has no handles.
//!
//! The word of an object is where it lies, and is good until the heap collects next.

ghost use Rattle.std.specs.Prelude.{◌≡◌, ◌↔◌, ◌≤◌, ◌<◌, false, true, None, Err, IfOk, OnOk, OnErr};
ghost use Rattle.gc_model.specs.Values.{Reference};
ghost use Rattle.gc_model.specs.Table.{Table};
ghost use Rattle.gc_model.specs.Holds.{HoldsTable, Holds, Placing, IsWord};
ghost use Rattle.gc_model.specs.Accounts.{Account};
ghost use Rattle.gc_store.specs.OwnedWords.{HoldsThere};
ghost use Rattle.gc_store.specs.RawWords.{PushesWord, OwnsReference};
ghost use Rattle.gc_store.specs.Reading.{IsReferenceWord};
ghost use Rattle.gc_store.specs.Roots.{IsRootWord, is_of_store, NamesReference, NamesNothing, TellsWord};
ghost use Rattle.gc_store.specs.Stores.{IsSameStore, scoped_places};

use crate::store::Store;
use gc_heap::GcHeap;
use gc_values::root::{GcRootIndex, RootFault};

impl<H: GcHeap, D: Drop> Store<H, D> {
    /// The word of the handle's reference, to be kept until the heap collects next: `push_word` and
    /// `OwnedRooted::from_word` take it back. `WrongStore` where the handle is another store's, `Unrooted` where it isn't
    /// live. It takes no memory and makes no root: who keeps the word past a collection needs one.
    pub fn show_word(&mut self, handle: GcRootIndex) -> Result<u32, RootFault>
        ensures wrong_store { is_of_store self.old handle ≡ false → result ≡ Err RootFault.WrongStore }
        ensures live { (t : Table D) (place : Placing) (r : Reference) → Holds H.KIND self.old t place → NamesReference self.old t handle r
            → TellsWord place r result }
        ensures gone { is_of_store self.old handle ≡ true → (t : Table D) → HoldsTable H.KIND self.old t → NamesNothing self.old t handle
            → result ≡ Err RootFault.Unrooted }
        ensures held { IfOk result (IsRootWord D H.KIND self.new) }
        ensures rest { self.new ≡ self.old }
    {
        self.owner.is_ready();
        match self.word_of(handle) {
            Ok(word) => Ok(word),
            Err(fault) => Err(fault),
        }
    }

    /// Pushes a scoped root for the reference with that word; None exactly for 0, which is null. `RootsFull` where no
    /// further one may be made. The word has to be 0, that of a 31-bit number, or that of an object that the heap
    /// holds now.
    pub fn push_word(&mut self, word: u32) -> Result<Option<GcRootIndex>, RootFault>
        requires { IsReferenceWord D H.KIND self.old word }
        ensures pushes { (t : Table D) (place : Placing) (a : Account) (r : Reference) → HoldsThere H.KIND self.old t place a → IsWord place r word
            → PushesWord H.KIND t place a r result self.new }
        ensures null { IfOk result (λ found. (found ≡ None) ↔ (word ≡ 0)) }
        ensures err { OnErr result (self.new ≡ self.old) }
        ensures same { IsSameStore self.old self.new }
        ensures spare { scoped_places self.old ≤ scoped_places self.new }
        ensures reserved { 0 < self.old.spare → result ≡ Err RootFault.Memory → ⊥ }
    {
        self.push_reference(word)
    }

    /// Makes an owned root for the reference with that word, and no scoped one; None exactly for 0. `RootsFull` where no
    /// further owned root may be made. The word has to be one that `push_word` takes.
    pub fn own_reference(&mut self, word: u32) -> Result<Option<GcRootIndex>, RootFault>
        requires { IsReferenceWord D H.KIND self.old word }
        ensures owns { (t : Table D) (place : Placing) (a : Account) (r : Reference) → HoldsThere H.KIND self.old t place a → IsWord place r word
            → OwnsReference H.KIND t a r result self.new }
        ensures null { IfOk result (λ found. (found ≡ None) ↔ (word ≡ 0)) }
        ensures same { IsSameStore self.old self.new }
        ensures spare { self.old.spare ≤ self.new.spare }
    {
        self.owner.is_ready();
        if word == 0 {
            return Ok(None);
        }
        self.trim_owned();
        match self.own_word(word) {
            Ok(made) => Ok(Some(made)),
            Err(fault) => Err(fault),
        }
    }
}
