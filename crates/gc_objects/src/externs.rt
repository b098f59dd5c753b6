//! References of the embedder: host objects, and any other reference but an exception.

ghost use Rattle.std.specs.Prelude.{◌≡◌, ◌<◌, ◌≤◌, false, true, IfOk, OnErr, IsErrAnd, Err};
ghost use Rattle.std.specs.Borrow.{sem};
ghost use Rattle.gc_types.specs.declared.kind.VMGcKind.{VMGcKind};
ghost use Rattle.gc_model.specs.Holds.{HoldsTable};
ghost use Rattle.gc_model.specs.Reads.{host_value_of};
ghost use Rattle.gc_model.specs.Table.{Table};
ghost use Rattle.gc_model.specs.Values.{Reference};
ghost use Rattle.gc_model.specs.Accounts.{Account, HoldsAccount};
ghost use Rattle.gc_model.specs.Policy.{policy_state};
ghost use Rattle.gc_store.specs.HostLends.{LendsValue, store_lends_host};
ghost use Rattle.gc_store.specs.Roots.{is_of_store, NamesReference, NamesNothing};
ghost use Rattle.gc_store.specs.Stores.{IsSameStore, scoped_places};
ghost use Rattle.gc_store.specs.Kinds.{NamesKind, IsScopedOfKind};
ghost use Rattle.gc_objects.specs.Answered.{Answers};
ghost use Rattle.gc_objects.specs.Hosts.{IsHostHanded, MakesHost, TellsHostValue, CopiesHandle};

use crate::faults::AllocFault;
use crate::marks::{AnyRef, ExternRef};
use gc_heap::GcHeap;
use gc_rooted::{Rooted, RootedGcRef};
use gc_store::laws::stores_hold_tables;
use gc_store::{GcRootIndex, HostDataFault, PlaceHostFault, ResourceLimiter, RootFault, Store};

/// What the store answered to a host value, as a typed handle.
fn handed<H: GcHeap, D: Drop>(
    store: &Store<H, D>,
    answer: Result<GcRootIndex, PlaceHostFault<D>>,
) -> Result<Rooted<ExternRef>, AllocFault<D>>
    requires { IfOk answer (IsScopedOfKind D H.KIND store.now VMGcKind.ExternRef) }
    ensures answer { IsHostHanded answer result }
    ensures kind { IfOk result (λ handle. NamesKind D H.KIND store.now VMGcKind.ExternRef handle.index) }
{
    match answer {
        Ok(root) => Ok(Rooted::from_gc_root_index(store, root)),
        Err(PlaceHostFault::RootsFull) => Err(AllocFault::RootsFull),
        Err(PlaceHostFault::HeapOutOfMemory(full)) => Err(AllocFault::HeapOutOfMemory(full)),
        Err(PlaceHostFault::Memory) => Err(AllocFault::Memory),
    }
}

impl ExternRef {
    /// Makes a host object with that value, and a scoped root for it.
    ///
    /// Refused are, in this order: `RootsFull`, and `HeapOutOfMemory`, which has the value, as `Store::place_host` tells. On any
    /// other refusal the value is dropped. The allocation goes by the store's policy of growth.
    pub fn new<H: GcHeap, D: Drop, L: ResourceLimiter>(
        store: &mut Store<H, D>,
        limiter: &mut L,
        value: D,
    ) -> Result<Rooted<ExternRef>, AllocFault<D>>
        ensures makes { (t : Table D) (a : Account) → HoldsAccount H.KIND store.old t a
            → MakesHost H.KIND store.old.alloc_counter value (policy_state t a (L.limits limiter.old)) (L.limits limiter.new) result store.new }
        ensures kind { IfOk result (λ handle. NamesKind D H.KIND store.new VMGcKind.ExternRef handle.index) }
        ensures same { IsSameStore store.old store.new }
        ensures spare { scoped_places store.old ≤ scoped_places store.new }
    {
        stores_hold_tables(store);
        let placed = store.place_host(limiter, value);
        handed(store, placed)
    }

    /// The value of the host object; None exactly where the reference is no host object. `WrongStore`, then `Unrooted`.
    pub fn data<'a, H: GcHeap, D: Drop, R: RootedGcRef<ExternRef>>(
        store: &'a Store<H, D>,
        this: &R,
    ) -> Result<Option<&'a D>, RootFault>
        ensures { (t : Table D) → HoldsTable H.KIND store.now t
            → Answers store.now t (is_of_store store.now (R.index this.now)) (R.index this.now) (TellsHostValue t) result }
    {
        store.host_data(this.root_index())
    }

    /// The value of the host object, for writing. `WrongStore`, then `Unrooted`, then `NotHost` where the reference is no host
    /// object.
    pub fn data_mut<'a, H: GcHeap, D: Drop, R: RootedGcRef<ExternRef>>(
        store: &'a mut Store<H, D>,
        this: &R,
    ) -> Result<&'a mut D, HostDataFault>
        ensures* writes_back { sem 𝓛 (store_lends_host H.row D.row H.State.row H.GcHeap store.entry (R.index this.now) result) }
        ensures wrong_store { is_of_store store.old (R.index this.now) ≡ false → IsErrAnd result (λ fault. fault ≡ HostDataFault.WrongStore) }
        ensures live { (t : Table D) (r : Reference) → HoldsTable H.KIND store.old t → NamesReference store.old t (R.index this.now) r
            → LendsValue (host_value_of t r) result }
        ensures gone { is_of_store store.old (R.index this.now) ≡ true → (t : Table D) → HoldsTable H.KIND store.old t
            → NamesNothing store.old t (R.index this.now) → IsErrAnd result (λ fault. fault ≡ HostDataFault.Unrooted) }
    {
        store.host_data_mut(this.root_index())
    }

    /// A new scoped root for a reference to anything of class any, as the embedder's: `WrongStore`, `Unrooted`, then `RootsFull`.
    pub fn convert_any<H: GcHeap, D: Drop>(
        store: &mut Store<H, D>,
        any: Rooted<AnyRef>,
    ) -> Result<Rooted<ExternRef>, RootFault>
        requires { NamesKind D H.KIND store.old VMGcKind.AnyRef any.index }
        ensures converts { (t : Table D) (a : Account) → HoldsAccount H.KIND store.old t a → CopiesHandle H.KIND store.old t a any.index result store.new }
        ensures kind { IfOk result (λ handle. NamesKind D H.KIND store.new VMGcKind.ExternRef handle.index) }
        ensures err { OnErr result (store.new ≡ store.old) }
        ensures same { IsSameStore store.old store.new }
        ensures spare { scoped_places store.old ≤ scoped_places store.new }
        ensures reserved { 0 < store.old.spare → result ≡ Err RootFault.Memory → ⊥ }
    {
        match store.push_copy(any.root_index()) {
            Ok(root) => Ok(Rooted::from_gc_root_index(store, root)),
            Err(fault) => Err(fault),
        }
    }
}
