//! Maps.

ghost use Rattle.std.specs.Prelude.{◌≡◌, ◌&&◌, ◌+◌, ◌-◌, ◌*◌, ◌^◌, ◌≤◌, ◌<◌, ℕ, true, false, length};
ghost use Rattle.std.specs.Prelude.{Option, None, Ok, Err, OnErr, MatchResult, IsErrOf};
ghost use Rattle.std.specs.FinMap as finite;
ghost use Rattle.gc_model.specs.Allocation.{Limits};
ghost use Rattle.gc_model.specs.Holds.{HoldsTable};
ghost use Rattle.gc_model.specs.Table.{Table};
ghost use Rattle.gc_model.specs.Accounts.{Account, HoldsAccount};
ghost use Rattle.gc_store.specs.Stores.{IsSameStore};
ghost use Rattle.gc_lists.specs.declared.kit.Kit.{Kit};
ghost use Rattle.gc_lists.specs.Answers.{Releases};
ghost use Rattle.gc_lists.specs.Frames.{most_objects};
ghost use Rattle.gc_lists.specs.Kits.{KitStands, is_kit_of};
ghost use Rattle.gc_lists.specs.Refusals.{CountsOn};
ghost use Rattle.gc_lists.specs.Versions.{is_version_of};
ghost use Rattle.gc_maps.specs.Answers.{AnswersMap};
ghost use Rattle.gc_maps.specs.Copies.{CopiedEntries, FailsToCopyEntries};
ghost use Rattle.gc_maps.specs.Ends.{EndsMakingNodes};
ghost use Rattle.gc_maps.specs.Maps.{IntMap, MapOfStands, MapStands, StandsForMap, StandsForMapOf};
ghost use Rattle.gc_maps.specs.Paths.{IsBuilt};
ghost use Rattle.gc_maps.specs.Searching.{nodes_toward};

use crate::copying::copy_part;
use crate::finding::{MOST_HEIGHT, look_up};
use crate::part::Part;
use crate::removing::take_out;
use crate::ways::put;
use gc_heap::GcHeap;
use gc_lists::roots::{give_up, is_kit_of, is_version_of, keep};
use gc_lists::{Kit, ListFault};
use gc_steps::Steps;
use gc_store::{GcRootIndex, ResourceLimiter, Store};
use std::alloc::Global;
use std::sync::ledger::Ledger;

/// A version of a map: empty, or an owned root. What that names is kept until the version is released: one that is
/// dropped keeps its nodes.
#[derive(Debug, Drop)]
pub struct HeapMap {
    root: Option<GcRootIndex>,
}

impl HeapMap {
    /// The empty map.
    pub fn empty() -> HeapMap
        ensures { result.root ≡ None }
    {
        HeapMap { root: None }
    }

    /// The value of a key; None where the map has no such key. It takes a step for each node that it reads: with n keys and s
    /// steps, 2^s is at most the square of n + 1. It makes no root, and leaves the store as it was.
    ///
    /// `WrongStore` where the map is another store's; it is refused in no other way.
    pub fn get<H: GcHeap, D: Drop, G: Ledger>(
        &self,
        store: &mut Store<H, D>,
        key: i64,
        steps: &mut Steps<G>,
    ) -> Result<Option<i64>, ListFault>
        requires stands { MapStands D H.KIND store.old self.now.root }
        ensures wrong_store { is_version_of store.old self.now.root ≡ false → result ≡ Err ListFault.WrongStore }
        ensures gets { is_version_of store.old self.now.root ≡ true → (t : Table D) (m : IntMap) → HoldsTable H.KIND store.old t
            → StandsForMap store.old t self.now.root m → result ≡ Ok (finite.get m key) }
        ensures few_steps { (t : Table D) (m : IntMap) → HoldsTable H.KIND store.old t → StandsForMap store.old t self.now.root m
            → 2 ^ (steps.new - steps.old) ≤ (finite.len m + 1) * (finite.len m + 1) }
        ensures each_step { is_version_of store.old self.now.root ≡ true → (t : Table D) (ty : ℕ) (m : IntMap) → HoldsTable H.KIND store.old t
            → (stands : StandsForMapOf store.old t self.now.root ty m) → steps.new ≡ steps.old + nodes_toward key stands.is.tree }
        ensures no_step { is_version_of store.old self.now.root ≡ false → steps.new ≡ steps.old }
        ensures rest { store.new ≡ store.old }
    {
        if !is_version_of(store, self.root) {
            return Err(ListFault::WrongStore);
        }
        Ok(look_up(store, self.root, key, steps))
    }

    /// A map in which the key has the value, and every other key what it has here; this map stays. It makes the nodes on the
    /// way to the key anew and shares the others: at most three for each level, of which a map has fewer than 92.
    ///
    /// Refused are, in this order: `WrongStore` where the kit or this map is another store's; `RootsFull` where no further
    /// scoped root may be made; `HeapOutOfMemory` as `Store::place` tells of a node; and `RootsFull` where no further owned
    /// root may be made.
    pub fn insert<H: GcHeap, D: Drop, L: ResourceLimiter>(
        &self,
        kit: &Kit,
        store: &mut Store<H, D>,
        limiter: &mut L,
        key: i64,
        value: i64,
    ) -> Result<HeapMap, ListFault>
        requires kit { KitStands store.old kit.now }
        requires stands { is_kit_of store.old kit.now ≡ true → MapOfStands D H.KIND store.old self.now.root kit.now.node }
        ensures wrong_store { (is_kit_of store.old kit.now && is_version_of store.old self.now.root) ≡ false
            → (result ≡ Err ListFault.WrongStore) × (store.new ≡ store.old) }
        ensures inserts { is_kit_of store.old kit.now ≡ true → is_version_of store.old self.now.root ≡ true → (t : Table D) (a : Account) (m : IntMap)
            → HoldsAccount H.KIND store.old t a → StandsForMapOf store.old t self.now.root kit.now.node m
            → AnswersMap H.KIND store.old.alloc_counter kit.now (finite.insert m key value) t (L.limits limiter.old) (L.limits limiter.new) result store.new }
        ensures limit { (L.limits limiter.new).limit ≡ (L.limits limiter.old).limit }
        ensures counts { CountsOn (L.limits limiter.old) (L.limits limiter.new) }
        ensures same { IsSameStore store.old store.new }
    {
        if !is_kit_of(store, kit) || !is_version_of(store, self.root) {
            return Err(ListFault::WrongStore);
        }
        let scope = store.enter_gc_lifo_scope();
        let built = put(store, limiter, kit, self.root, key, value);
        keep_built(store, scope, built)
    }

    /// A map without the key, in which every other key has what it has here; this map stays. Where it has no such key, what
    /// comes out is the same map, by an owned root of its own, or the empty map. It makes the nodes on the way to the key
    /// anew, and on to the least key behind that where its node has both children: at most three for each level, of which a
    /// map has fewer than 92.
    ///
    /// Refused are, in this order: `WrongStore` where the kit or this map is another store's; `RootsFull` where no further
    /// scoped root may be made; `HeapOutOfMemory` as `Store::place` tells of a node; and `RootsFull` where no further owned
    /// root may be made.
    pub fn remove<H: GcHeap, D: Drop, L: ResourceLimiter>(
        &self,
        kit: &Kit,
        store: &mut Store<H, D>,
        limiter: &mut L,
        key: i64,
    ) -> Result<HeapMap, ListFault>
        requires kit { KitStands store.old kit.now }
        requires stands { is_kit_of store.old kit.now ≡ true → MapOfStands D H.KIND store.old self.now.root kit.now.node }
        ensures wrong_store { (is_kit_of store.old kit.now && is_version_of store.old self.now.root) ≡ false
            → (result ≡ Err ListFault.WrongStore) × (store.new ≡ store.old) }
        ensures removes { is_kit_of store.old kit.now ≡ true → is_version_of store.old self.now.root ≡ true → (t : Table D) (a : Account) (m : IntMap)
            → HoldsAccount H.KIND store.old t a → StandsForMapOf store.old t self.now.root kit.now.node m
            → AnswersMap H.KIND store.old.alloc_counter kit.now (finite.remove m key) t (L.limits limiter.old) (L.limits limiter.new) result store.new }
        ensures limit { (L.limits limiter.new).limit ≡ (L.limits limiter.old).limit }
        ensures counts { CountsOn (L.limits limiter.old) (L.limits limiter.new) }
        ensures same { IsSameStore store.old store.new }
    {
        if !is_kit_of(store, kit) || !is_version_of(store, self.root) {
            return Err(ListFault::WrongStore);
        }
        let scope = store.enter_gc_lifo_scope();
        let built = take_out(store, limiter, kit, self.root, key);
        keep_built(store, scope, built)
    }

    /// All keys with their values, by rising key, in a time and a memory that are linear in their number. It leaves a scope for
    /// each key, so that it needs fewer than 1,024 scoped roots, however many keys there are.
    ///
    /// Refused are, in this order: `WrongStore` where the map is another store's; and `RootsFull` where no further scoped
    /// root may be made, at first or on the way.
    pub fn copy_out<H: GcHeap, D: Drop>(
        &self,
        alloc: Global,
        store: &mut Store<H, D>,
    ) -> Result<Vec<(i64, i64)>, ListFault>
        requires stands { MapStands D H.KIND store.old self.now.root }
        ensures wrong_store { is_version_of store.old self.now.root ≡ false → IsErrOf result ListFault.WrongStore × (store.new ≡ store.old) }
        ensures copies { is_version_of store.old self.now.root ≡ true → (t : Table D) (a : Account) (m : IntMap) → HoldsAccount H.KIND store.old t a
            → StandsForMap store.old t self.now.root m
            → MatchResult result (λ entries. CopiedEntries H.KIND m t entries.items store.new)
            (λ fault. FailsToCopyEntries H.KIND m t fault store.new) }
        ensures same { IsSameStore store.old store.new }
    {
        if !is_version_of(store, self.root) {
            return Err(ListFault::WrongStore);
        }
        let mut entries = Vec::new(alloc);
        match copy_part(store, self.root, MOST_HEIGHT, &mut entries) {
            Ok(()) => Ok(entries),
            Err(fault) => Err(fault),
        }
    }

    /// Gives the version up: its nodes are kept no longer by it. Another store's version is handed back; one whose root
    /// isn't live any more changes nothing. It takes no memory.
    pub fn release<H: GcHeap, D: Drop>(self, store: &mut Store<H, D>) -> Result<(), HeapMap>
        ensures releases { (t : Table D) (a : Account) → HoldsAccount H.KIND store.old t a
            → MatchResult result (λ done. (is_version_of store.old self.root ≡ true) × Releases H.KIND store.old t a self.root store.new)
            (λ back. (is_version_of store.old self.root ≡ false) × (back.root ≡ self.root)) }
        ensures err { OnErr result (store.new ≡ store.old) }
        ensures same { IsSameStore store.old store.new }
    {
        give_up(store, self.root, self)
    }
}

/// Makes an owned root for a tree that was built, or none for one without nodes, and leaves the scope.
fn keep_built<H: GcHeap, D: Drop>(
    store: &mut Store<H, D>,
    scope: usize,
    built: Result<Part, ListFault>,
) -> Result<HeapMap, ListFault>
    ensures keeps { (counter : Option ℕ) (kit : Kit) (nodes most : ℕ) (t : Table D) (limits limits' : Limits) (m : IntMap)
        → nodes ≤ most_objects → most < most_objects → scope ≡ length t.scoped
        → EndsMakingNodes H.KIND counter kit nodes most t limits limits' (λ s u part. IsBuilt s u kit.node part (finite.entries m)) built store.old
        → AnswersMap H.KIND counter kit m t limits limits' result store.new }
    ensures same { IsSameStore store.old store.new }
{
    match built {
        Ok(part) => match part.root {
            Some(root) => match keep(store, scope, root) {
                Ok(kept) => Ok(HeapMap { root: Some(kept) }),
                Err(fault) => Err(fault),
            },
            None => {
                store.exit_gc_lifo_scope(scope);
                Ok(HeapMap::empty())
            }
        },
        Err(fault) => {
            store.exit_gc_lifo_scope(scope);
            Err(fault)
        }
    }
}
