//! Handles of owned roots that say of which type what they name is.

ghost use Rattle.std.specs.Prelude.{◌≡◌, ◌↔◌, ◌≤◌, ◌<◌, true, false, Bool, None, Ok, Err, IfOk, OnErr};
ghost use Rattle.std.specs.Option.{option_map};
ghost use Rattle.std.specs.Result.{MatchResult};
ghost use Rattle.gc_model.specs.Values.{Reference};
ghost use Rattle.gc_model.specs.Table.{Table};
ghost use Rattle.gc_model.specs.Holds.{HoldsTable, Placing, IsWord};
ghost use Rattle.gc_model.specs.Accounts.{Account, HoldsAccount};
ghost use Rattle.gc_store.specs.Handles.{PushesRoot};
ghost use Rattle.gc_store.specs.OwnedRoots.{MakesOwned, AddsHandle, DropsHandle};
ghost use Rattle.gc_store.specs.OwnedWords.{HoldsThere};
ghost use Rattle.gc_store.specs.RawWords.{IsRawWord, OwnsReference};
ghost use Rattle.gc_store.specs.Roots.{is_of_store, NamesReference, NamesNothing};
ghost use Rattle.gc_store.specs.Stores.{IsSameStore, scoped_places};
ghost use Rattle.gc_values.specs.declared.root.RootFault.TheVariants as RootFault;

use crate::rooted::{GcRef, Rooted, RootedGcRef};
use gc_heap::GcHeap;
use gc_store::Store;
use gc_values::root::{GcRootIndex, RootFault};
use std::marker::PhantomData;

/// A handle of an owned root. What that names is kept until its last handle is given up by `unroot`: a handle that is
/// dropped gives nothing up.
#[derive(Drop)]
#[derive_where(Debug)]
pub struct OwnedRooted<T: GcRef> {
    index: GcRootIndex,
    marker: PhantomData<T>,
}

impl<T: GcRef> RootedGcRef<T> for OwnedRooted<T> {
    ghost index = { λ r. r.index };

    fn root_index(&self) -> GcRootIndex {
        self.index
    }
}

impl<T: GcRef> OwnedRooted<T> {
    /// A handle of that root.
    fn of_root(index: GcRootIndex) -> OwnedRooted<T>
        ensures { result.index ≡ index }
    {
        OwnedRooted {
            index,
            marker: PhantomData,
        }
    }

    /// The same root under another type.
    pub fn cast<U: GcRef>(self) -> OwnedRooted<U>
        ensures { result.index ≡ self.index }
    {
        OwnedRooted::of_root(self.index)
    }

    /// Makes an owned root for the reference with that word, and no scoped root; None exactly for 0. `RootsFull` where no
    /// further owned root may be made. The word has to be one that `push_word` takes, of a reference of this type.
    pub fn from_word<H: GcHeap, D: Drop>(
        store: &mut Store<H, D>,
        word: u32,
    ) -> Result<Option<OwnedRooted<T>>, RootFault>
        requires { IsRawWord D H.KIND store.old T.KIND word }
        ensures owns { (t : Table D) (place : Placing) (a : Account) (r : Reference) → HoldsThere H.KIND store.old t place a → IsWord place r word
            → MatchResult result (λ found. OwnsReference H.KIND t a r (Ok (option_map (λ (h : OwnedRooted T). h.index) found)) store.new)
            (λ fault. OwnsReference H.KIND t a r (Err fault) store.new) }
        ensures null { IfOk result (λ found. (option_map (λ (h : OwnedRooted T). h.index) found ≡ None) ↔ (word ≡ 0)) }
        ensures same { IsSameStore store.old store.new }
        ensures spare { store.old.spare ≤ store.new.spare }
    {
        match store.own_reference(word) {
            Ok(Some(index)) => Ok(Some(OwnedRooted::of_root(index))),
            Ok(None) => Ok(None),
            Err(fault) => Err(fault),
        }
    }

    /// Pushes a scoped root for what the handle names. `WrongStore` where it is another store's, `Unrooted` where its
    /// root has no handles any more, `RootsFull` where no further scoped root may be made.
    pub fn to_rooted<H: GcHeap, D: Drop>(
        &self,
        store: &mut Store<H, D>,
    ) -> Result<Rooted<T>, RootFault>
        ensures wrong_store { is_of_store store.old self.now.index ≡ false → result ≡ Err RootFault.WrongStore }
        ensures live { (t : Table D) (a : Account) (r : Reference) → HoldsAccount H.KIND store.old t a → NamesReference store.old t self.now.index r
            → MatchResult result (λ made. PushesRoot H.KIND t a r (Ok made.index) store.new) (λ fault. PushesRoot H.KIND t a r (Err fault) store.new) }
        ensures gone { is_of_store store.old self.now.index ≡ true → (t : Table D) → HoldsTable H.KIND store.old t
            → NamesNothing store.old t self.now.index → result ≡ Err RootFault.Unrooted }
        ensures err { OnErr result (store.new ≡ store.old) }
        ensures same { IsSameStore store.old store.new }
        ensures spare { scoped_places store.old ≤ scoped_places store.new }
        ensures reserved { 0 < store.old.spare → result ≡ Err RootFault.Memory → ⊥ }
    {
        match store.push_copy(self.index) {
            Ok(index) => Ok(Rooted::of_root(index)),
            Err(fault) => Err(fault),
        }
    }

    /// Adds a handle to the owned root. `WrongStore` where it is another store's, `Unrooted` where it has no handles any
    /// more, `RootsFull` exactly where it has 2^32 - 1. It takes no memory.
    pub fn clone_in<H: GcHeap, D: Drop>(
        &self,
        store: &mut Store<H, D>,
    ) -> Result<OwnedRooted<T>, RootFault>
        ensures adds { (t : Table D) (a : Account) → HoldsAccount H.KIND store.old t a
            → MatchResult result (λ made. AddsHandle H.KIND store.old t a self.now.index (Ok tt) store.new × (made.index ≡ self.now.index))
            (λ fault. AddsHandle H.KIND store.old t a self.now.index (Err fault) store.new) }
        ensures err { OnErr result (store.new ≡ store.old) }
        ensures same { IsSameStore store.old store.new }
        ensures spare { store.old.spare ≤ store.new.spare }
    {
        match store.add_handle(self.index) {
            Ok(()) => Ok(OwnedRooted::of_root(self.index)),
            Err(fault) => Err(fault),
        }
    }

    /// Gives the handle up; its root goes with the last one. Another store's handle is handed back; one of this store
    /// that isn't live changes nothing. It takes no memory.
    pub fn unroot<H: GcHeap, D: Drop>(self, store: &mut Store<H, D>) -> Result<(), OwnedRooted<T>>
        ensures drops { (t : Table D) (a : Account) → HoldsAccount H.KIND store.old t a
            → MatchResult result (λ done. (is_of_store store.old self.index ≡ true)
            × ((was_held : Bool) × DropsHandle H.KIND store.old t a self.index was_held store.new))
            (λ back. (is_of_store store.old self.index ≡ false) × (back.index ≡ self.index)) }
        ensures err { OnErr result (store.new ≡ store.old) }
        ensures same { IsSameStore store.old store.new }
        ensures spare { store.old.spare ≤ store.new.spare }
    {
        match store.release(self.index) {
            Ok(_) => Ok(()),
            Err(_) => Err(self),
        }
    }
}

impl<T: GcRef> Rooted<T> {
    /// Makes an owned root for what the handle names. `WrongStore` where the handle is another store's, `Unrooted` where it
    /// isn't live, `RootsFull` where no further owned root may be made.
    pub fn to_owned_rooted<H: GcHeap, D: Drop>(
        &self,
        store: &mut Store<H, D>,
    ) -> Result<OwnedRooted<T>, RootFault>
        ensures owns { (t : Table D) (a : Account) → HoldsAccount H.KIND store.old t a
            → MatchResult result (λ made. MakesOwned H.KIND store.old t a self.now.index (Ok made.index) store.new)
            (λ fault. MakesOwned H.KIND store.old t a self.now.index (Err fault) store.new) }
        ensures same { IsSameStore store.old store.new }
        ensures spare { store.old.spare ≤ store.new.spare }
    {
        match store.own_root(self.root_index()) {
            Ok(index) => Ok(OwnedRooted::of_root(index)),
            Err(fault) => Err(fault),
        }
    }
}
