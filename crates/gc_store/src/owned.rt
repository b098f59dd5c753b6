//! Owned roots: each stands as long as it has handles, whatever scope is left.

ghost use Rattle.std.specs.Prelude.{◌≡◌, ◌≤◌, ◌-◌, ◌<◌, ◌^◌, true, false, OnOk, OnErr};
ghost use Rattle.gc_model.specs.Values.{Reference};
ghost use Rattle.gc_model.specs.Table.{Table};
ghost use Rattle.gc_model.specs.Holds.{Holds, Placing, IsWord};
ghost use Rattle.gc_model.specs.Accounts.{Account, IsAccount, HoldsAccount};
ghost use Rattle.gc_store.specs.Roots.{IsRootWord, is_of_store};
ghost use Rattle.gc_values.specs.Words.{owned_id, AreOwnedRising};
ghost use Rattle.gc_values.specs.declared.root.RootSlot.TheVariants as RootSlot;
ghost use Rattle.gc_store.specs.OwnedRoots.{MakesOwned, AddsHandle, DropsHandle, ReleasesHandle};
ghost use Rattle.gc_store.specs.OwnedWords.{HoldsThere, IsTrimmed, AddsOwned, OwnsWord, owned_is_full, FindsHeld, FindsHeldNumber, GivesMore};
ghost use Rattle.gc_store.specs.Stores.{IsSameStore};

use crate::store::Store;
use gc_heap::GcHeap;
use gc_owner::OwnedEntry;
use gc_values::engine::StoreId;
use gc_values::root::{GcRootIndex, RootFault, RootSlot};
use gc_values::word::{find_owned, owned_id};
use std::alloc::AllocError;

/// How many owned roots there are at first before one that is made trims them, and no fewer later.
pub(crate) const FIRST_MARK: usize = 8;

/// The handle of the owned root of that number, in the store with that id.
fn owned_handle(store_id: StoreId, number: u64) -> GcRootIndex
    ensures { result ≡ record { store_id = store_id; generation = number; slot = RootSlot.Owned (owned_id number) } }
{
    GcRootIndex {
        store_id,
        generation: number,
        slot: RootSlot::Owned(owned_id(number)),
    }
}

/// One more than so many handles; none where they are as many as may be.
fn more_handles(handles: u32) -> Option<u32>
    ensures { GivesMore handles result }
{
    if handles == u32::MAX {
        None
    } else {
        Some(handles + 1)
    }
}

/// Where the owned root of that number stands, if it has handles.
fn held_index(entries: &[OwnedEntry], number: u64) -> Option<usize>
    requires rising { AreOwnedRising entries.now }
    ensures { FindsHeldNumber entries.now number result }
{
    match find_owned(entries, number) {
        Some(index) => {
            if entries[index].handles == 0 {
                return None;
            }
            Some(index)
        }
        None => None,
    }
}

impl<H: GcHeap, D: Drop> Store<H, D> {
    /// Whether no further owned root may be made, by those that stand.
    fn owned_is_full(&self) -> bool
        ensures { result ≡ owned_is_full self.now }
    {
        self.owner.owned().len() >= self.config.max_owned as usize || self.owner.owns() == u64::MAX
    }

    /// Drops the owned roots without handles where there are as many owned roots as the mark says, or as may be.
    /// The mark is then twice what is left.
    pub(crate) fn trim_owned(&mut self)
        ensures holds { (t : Table D) (place : Placing) (a : Account) → HoldsThere H.KIND self.old t place a → HoldsThere H.KIND self.new t place a }
        ensures trimmed { IsTrimmed self.new }
        ensures same { IsSameStore self.old self.new }
        ensures spare { self.old.spare ≤ self.new.spare }
    {
        self.owner.is_ready();
        let count = self.owner.owned().len();
        if count < self.mark && count < self.config.max_owned as usize {
            return;
        }
        self.owner.trim();
        self.mark = self.owner.owned().len().saturating_mul(2).max(FIRST_MARK);
    }

    /// Adds an owned root for a copy of a word of the store.
    fn add_owned(&mut self, word: u32) -> Result<(), AllocError>
        requires word { IsRootWord D H.KIND self.old word }
        requires room { owned_is_full self.old ≡ false }
        requires numbered { self.old.owns < 2 ^ 64 - 1 }
        ensures ok { OnOk result (AddsOwned H.KIND self.old word self.new) }
        ensures err { OnErr result (self.new ≡ self.old) }
        ensures same { IsSameStore self.old self.new }
        ensures spare { self.old.spare ≤ self.new.spare }
    {
        self.owner.own(word)
    }

    /// Makes an owned root for a copy of a word of the store, and answers its handle.
    pub(crate) fn own_word(&mut self, word: u32) -> Result<GcRootIndex, RootFault>
        requires word { IsRootWord D H.KIND self.old word }
        requires trimmed { IsTrimmed self.old }
        ensures owns { (t : Table D) (place : Placing) (a : Account) (r : Reference) → HoldsThere H.KIND self.old t place a → IsWord place r word
            → OwnsWord H.KIND t a r result self.new }
        ensures same { IsSameStore self.old self.new }
        ensures spare { self.old.spare ≤ self.new.spare }
    {
        if self.owned_is_full() {
            return Err(RootFault::RootsFull);
        }
        let made = owned_handle(self.id, self.owner.owns());
        match self.add_owned(word) {
            Ok(()) => Ok(made),
            Err(_) => Err(RootFault::Memory),
        }
    }

    /// Makes an owned root for what the handle names, with one handle, which is the answer. `WrongStore` where the
    /// handle is another store's, `Unrooted` where it isn't live, `RootsFull` where no further owned root may be made.
    pub fn own_root(&mut self, handle: GcRootIndex) -> Result<GcRootIndex, RootFault>
        ensures owns { (t : Table D) (a : Account) → HoldsAccount H.KIND self.old t a → MakesOwned H.KIND self.old t a handle result self.new }
        ensures same { IsSameStore self.old self.new }
        ensures spare { self.old.spare ≤ self.new.spare }
    {
        self.owner.is_ready();
        match self.word_of(handle) {
            Ok(word) => {
                self.trim_owned();
                self.own_word(word)
            }
            Err(fault) => Err(fault),
        }
    }

    /// Where the owned root stands that the handle names, as long as it has handles; none for a handle of another
    /// root, or of none that is there.
    fn held_place(&self, handle: GcRootIndex) -> Option<usize>
        ensures { FindsHeld self.now handle result }
    {
        match handle.slot {
            RootSlot::Scoped(_) => None,
            RootSlot::Owned(id) => {
                if owned_id(handle.generation) != id {
                    return None;
                }
                held_index(self.owner.owned(), handle.generation)
            }
        }
    }

    /// Whether the handle is this store's.
    fn is_own(&self, handle: GcRootIndex) -> bool
        ensures { result ≡ is_of_store self.now handle }
    {
        handle.store_id == self.id
    }

    /// Adds a handle to the owned root that a handle of this store names.
    fn add_own_handle(&mut self, handle: GcRootIndex) -> Result<(), RootFault>
        requires { is_of_store self.old handle ≡ true }
        ensures adds { (t : Table D) (a : Account) → HoldsAccount H.KIND self.old t a → AddsHandle H.KIND self.old t a handle result self.new }
        ensures err { OnErr result (self.new ≡ self.old) }
        ensures same { IsSameStore self.old self.new }
        ensures spare { self.old.spare ≤ self.new.spare }
    {
        match self.held_place(handle) {
            Some(index) => {
                let handles = self.owner.owned()[index].handles;
                match more_handles(handles) {
                    Some(more) => {
                        self.owner.set_handles(index, more);
                        Ok(())
                    }
                    None => Err(RootFault::RootsFull),
                }
            }
            None => Err(RootFault::Unrooted),
        }
    }

    /// Adds a handle to the owned root that the handle names. `WrongStore` where it is another store's, `Unrooted`
    /// where it is of no owned root that has handles, `RootsFull` where that has 2^32 - 1. It takes no memory.
    pub fn add_handle(&mut self, handle: GcRootIndex) -> Result<(), RootFault>
        ensures adds { (t : Table D) (a : Account) → HoldsAccount H.KIND self.old t a → AddsHandle H.KIND self.old t a handle result self.new }
        ensures err { OnErr result (self.new ≡ self.old) }
        ensures same { IsSameStore self.old self.new }
        ensures spare { self.old.spare ≤ self.new.spare }
    {
        if self.is_own(handle) {
            self.add_own_handle(handle)
        } else {
            Err(RootFault::WrongStore)
        }
    }

    /// Gives up a handle of this store; whether it was of an owned root that has handles.
    fn drop_handle(&mut self, handle: GcRootIndex) -> bool
        requires { is_of_store self.old handle ≡ true }
        ensures drops { (t : Table D) (a : Account) → HoldsAccount H.KIND self.old t a → DropsHandle H.KIND self.old t a handle result self.new }
        ensures same { IsSameStore self.old self.new }
        ensures spare { self.old.spare ≤ self.new.spare }
    {
        match self.held_place(handle) {
            Some(index) => {
                let handles = self.owner.owned()[index].handles;
                self.owner.set_handles(index, handles - 1);
                true
            }
            None => false,
        }
    }

    /// Gives up a handle: where it is of an owned root that has handles, that has one fewer, and goes with its last,
    /// which is answered by true; where it isn't live nothing changes, and the answer is false. `WrongStore` where it
    /// is another store's. It takes no memory.
    pub fn release(&mut self, handle: GcRootIndex) -> Result<bool, RootFault>
        ensures releases { (t : Table D) (a : Account) → HoldsAccount H.KIND self.old t a → ReleasesHandle H.KIND self.old t a handle result self.new }
        ensures err { OnErr result (self.new ≡ self.old) }
        ensures same { IsSameStore self.old self.new }
        ensures spare { self.old.spare ≤ self.new.spare }
    {
        if self.is_own(handle) {
            Ok(self.drop_handle(handle))
        } else {
            Err(RootFault::WrongStore)
        }
    }
}
