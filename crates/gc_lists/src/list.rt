//! Lists.

ghost use Rattle.std.specs.Prelude.{◌≡◌, ◌&&◌, ℕ, ℤ, List, Ok, Err, OnErr, true, false, IsErrOf, MatchResult, slice_get};
ghost use Rattle.gc_model.specs.Holds.{HoldsTable};
ghost use Rattle.gc_model.specs.Table.{Table};
ghost use Rattle.gc_model.specs.Accounts.{Account, HoldsAccount};
ghost use Rattle.gc_model.specs.Policy.{policy_state};
ghost use Rattle.gc_store.specs.Stores.{IsSameStore};
ghost use Rattle.gc_lists.specs.Answers.{Conses, Copied, FailsToCopy, Releases, Tails};
ghost use Rattle.gc_lists.specs.Kits.{KitStands, is_kit_of};
ghost use Rattle.gc_lists.specs.Refusals.{CountsOn};
ghost use Rattle.gc_lists.specs.Versions.{ListOfStands, ListStands, StandsForList, StandsForListOf, is_version_of};

use crate::fault::ListFault;
use crate::kit::Kit;
use crate::roots::{give_up, is_kit_of, is_version_of, keep, number_in, refused};
use crate::walk::{NEXT, NUMBER, walk};
use gc_heap::GcHeap;
use gc_store::laws::stores_hold_tables;
use gc_store::{
    Contents, GcClass, GcRootIndex, Place, PlaceFault, RawValue, ResourceLimiter, Store,
};
use std::alloc::Global;

/// A version of a list: empty, or an owned root. What that names is kept until the version is released: one that is
/// dropped keeps its cells.
#[derive(Debug, Drop)]
pub struct HeapList {
    root: Option<GcRootIndex>,
}

impl HeapList {
    /// The empty list.
    pub fn empty() -> HeapList
        ensures { result.root ≡ None }
    {
        HeapList { root: None }
    }

    /// A list with one more number in front of this one, which stays. It makes one cell.
    ///
    /// Refused are, in this order: `WrongStore` where the kit or this list is another store's; `RootsFull` where no
    /// further scoped root may be made; `HeapOutOfMemory` as `Store::place` tells; and `RootsFull` where no further owned
    /// root may be made.
    pub fn cons<H: GcHeap, D: Drop, L: ResourceLimiter>(
        &self,
        kit: &Kit,
        store: &mut Store<H, D>,
        limiter: &mut L,
        head: i64,
    ) -> Result<HeapList, ListFault>
        requires kit { KitStands store.old kit.now }
        requires stands { is_kit_of store.old kit.now ≡ true → ListOfStands D H.KIND store.old self.now.root kit.now.cell }
        ensures wrong_store { (is_kit_of store.old kit.now && is_version_of store.old self.now.root) ≡ false
            → (result ≡ Err ListFault.WrongStore) × (store.new ≡ store.old) }
        ensures conses { is_kit_of store.old kit.now ≡ true → is_version_of store.old self.now.root ≡ true → (t : Table D) (a : Account) (xs : List ℤ)
            → HoldsAccount H.KIND store.old t a → StandsForListOf store.old t self.now.root kit.now.cell xs
            → Conses H.KIND kit.now store.old self.now.root xs head (policy_state t a (L.limits limiter.old)) (L.limits limiter.new) result store.new }
        ensures limit { (L.limits limiter.new).limit ≡ (L.limits limiter.old).limit }
        ensures counts { CountsOn (L.limits limiter.old) (L.limits limiter.new) }
        ensures same { IsSameStore store.old store.new }
    {
        stores_hold_tables(store);
        if !is_kit_of(store, kit) || !is_version_of(store, self.root) {
            return Err(ListFault::WrongStore);
        }
        let scope = store.enter_gc_lifo_scope();
        let values = [RawValue::I64(head), RawValue::Ref(GcClass::Any, self.root)];
        match store.place(limiter, Place::Struct(kit.cell()), Contents::Each(&values)) {
            Ok(cell) => match keep(store, scope, cell) {
                Ok(root) => Ok(HeapList { root: Some(root) }),
                Err(fault) => Err(fault),
            },
            Err(PlaceFault::FuncTableFull) => unreachable!(),
            Err(PlaceFault::ContTableFull) => unreachable!(),
            Err(PlaceFault::TooLarge) => unreachable!(),
            Err(PlaceFault::RootsFull) => Err(ListFault::RootsFull),
            Err(PlaceFault::HeapOutOfMemory(full)) => Err(ListFault::HeapOutOfMemory(full)),
            Err(PlaceFault::Memory) => Err(ListFault::Memory),
        }
    }

    /// The first number; None for the empty list. `WrongStore` where it is another store's. It takes no memory.
    pub fn head<H: GcHeap, D: Drop>(
        &self,
        store: &mut Store<H, D>,
    ) -> Result<Option<i64>, ListFault>
        requires stands { ListStands D H.KIND store.old self.now.root }
        ensures wrong_store { is_version_of store.old self.now.root ≡ false → (result ≡ Err ListFault.WrongStore) × (store.new ≡ store.old) }
        ensures head { (t : Table D) (xs : List ℤ) → HoldsTable H.KIND store.old t → StandsForList store.old t self.now.root xs
            → result ≡ Ok (slice_get xs 0) }
        ensures keeps { (t : Table D) (a : Account) (xs : List ℤ) → HoldsAccount H.KIND store.old t a → StandsForList store.old t self.now.root xs
            → HoldsAccount H.KIND store.new t a }
        ensures same { IsSameStore store.old store.new }
    {
        let Some(root) = self.root else {
            return Ok(None);
        };
        if !is_version_of(store, self.root) {
            return Err(ListFault::WrongStore);
        }
        match store.read_value(root, NUMBER) {
            Ok(value) => Ok(Some(number_in(&value))),
            Err(fault) => Err(refused(fault)),
        }
    }

    /// The list without its first number, empty for the empty list. This one stays.
    ///
    /// Refused are, in this order: `WrongStore` where it is another store's; `RootsFull` where no further scoped root may be
    /// made, or no further owned one.
    pub fn tail<H: GcHeap, D: Drop>(&self, store: &mut Store<H, D>) -> Result<HeapList, ListFault>
        requires stands { ListStands D H.KIND store.old self.now.root }
        ensures wrong_store { is_version_of store.old self.now.root ≡ false → (result ≡ Err ListFault.WrongStore) × (store.new ≡ store.old) }
        ensures tails { is_version_of store.old self.now.root ≡ true → (t : Table D) (a : Account) (ty : ℕ) (xs : List ℤ) → HoldsAccount H.KIND store.old t a
            → StandsForListOf store.old t self.now.root ty xs → Tails H.KIND ty xs t result store.new }
        ensures same { IsSameStore store.old store.new }
    {
        let Some(root) = self.root else {
            return Ok(HeapList::empty());
        };
        if !is_version_of(store, self.root) {
            return Err(ListFault::WrongStore);
        }
        let scope = store.enter_gc_lifo_scope();
        match store.read_value(root, NEXT) {
            Ok(value) => match value.handle() {
                Some(next) => match keep(store, scope, next) {
                    Ok(kept) => Ok(HeapList { root: Some(kept) }),
                    Err(fault) => Err(fault),
                },
                None => Ok(HeapList::empty()),
            },
            Err(fault) => Err(refused(fault)),
        }
    }

    /// All numbers in order, in a time and a memory that are linear in their number.
    ///
    /// Refused are, in this order: `WrongStore` where it is another store's; `RootsFull` where there isn't room for as many
    /// further scoped roots as there are numbers.
    pub fn copy_out<H: GcHeap, D: Drop>(
        &self,
        alloc: Global,
        store: &mut Store<H, D>,
    ) -> Result<Vec<i64>, ListFault>
        requires stands { ListStands D H.KIND store.old self.now.root }
        ensures wrong_store { is_version_of store.old self.now.root ≡ false → IsErrOf result ListFault.WrongStore × (store.new ≡ store.old) }
        ensures copies { is_version_of store.old self.now.root ≡ true → (t : Table D) (a : Account) (xs : List ℤ) → HoldsAccount H.KIND store.old t a
            → StandsForList store.old t self.now.root xs
            → MatchResult result (λ numbers. Copied H.KIND xs t numbers.items store.new) (λ fault. FailsToCopy H.KIND xs t fault store.new) }
        ensures same { IsSameStore store.old store.new }
    {
        if !is_version_of(store, self.root) {
            return Err(ListFault::WrongStore);
        }
        let scope = store.enter_gc_lifo_scope();
        let copied = walk(alloc, store, self.root);
        store.exit_gc_lifo_scope(scope);
        copied
    }

    /// Gives the version up: its cells are kept no longer by it. Another store's version is handed back; one whose root
    /// isn't live any more changes nothing. It takes no memory.
    pub fn release<H: GcHeap, D: Drop>(self, store: &mut Store<H, D>) -> Result<(), HeapList>
        ensures releases { (t : Table D) (a : Account) → HoldsAccount H.KIND store.old t a
            → MatchResult result (λ done. (is_version_of store.old self.root ≡ true) × Releases H.KIND store.old t a self.root store.new)
            (λ back. (is_version_of store.old self.root ≡ false) × (back.root ≡ self.root)) }
        ensures err { OnErr result (store.new ≡ store.old) }
        ensures same { IsSameStore store.old store.new }
    {
        give_up(store, self.root, self)
    }
}
