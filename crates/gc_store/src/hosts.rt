//! Host objects and their values.

ghost use Rattle.std.specs.Prelude.{◌≡◌, ◌<◌, ◌≤◌, ◌^◌, ◌⊎◌, ℕ, true, false, length, IsOkAnd, IsErrAnd, Err, option_copied, OnErr};
ghost use Rattle.std.specs.Option.{option_copied_mut};
ghost use Rattle.std.specs.Borrow.{sem};
ghost use Rattle.std.specs.FinMap as map;
ghost use Rattle.gc_tables.specs.SideTables.{max_entries};
ghost use Rattle.gc_view.specs.Pages.{max_pages};
ghost use Rattle.gc_owner.specs.Growing.{state_of};
ghost use Rattle.gc_model.specs.Table.{Table};
ghost use Rattle.gc_model.specs.Values.{Reference};
ghost use Rattle.gc_model.specs.Reads.{host_value_of};
ghost use Rattle.gc_model.specs.Holds.{HoldsTable, Holds, Placing};
ghost use Rattle.gc_model.specs.Accounts.{Account, HoldsAccount};
ghost use Rattle.gc_model.specs.Policy.{policy_state};
ghost use Rattle.gc_store.specs.Handles.{PushesRoot};
ghost use Rattle.gc_store.specs.HostLends.{told_of_host, LendsValue};
ghost use Rattle.gc_store.specs.HostPlaces.{PlacesHost};
ghost use Rattle.gc_store.specs.HostSteps.{AllocatesRootedHost, MakesRootedHost, TellsHostId, FindsHostId};
ghost use Rattle.gc_store.specs.Roots.{NamesReference, NamesNothing, is_of_store};
ghost use Rattle.gc_store.specs.Stores.{IsSameStore, scoped_places};

use crate::place::{count_allocation, scoped_handle};
use crate::store::Store;
use gc_heap::GcHeap;
use gc_heap::ref_kinds::RefKinds;
use gc_memory::offsets::external_size;
use gc_owner::{HeapOwner, HostFault, PagesFault, ResourceLimiter};
use gc_refs::VMGcRef;
use gc_tables::ExternRefHostDataId;
use gc_values::faults::GcHeapOutOfMemory;
use gc_values::make::collect_if_due;
use gc_values::root::{GcRootIndex, RootFault};
use thiserror::Error;

/// Why a host object is not placed.
#[derive(Debug, Drop)]
pub enum PlaceHostFault<D> {
    /// No further root may be made. The value is dropped.
    RootsFull,
    /// The heap has no room, and it was refused more. It has the value.
    HeapOutOfMemory(GcHeapOutOfMemory<D>),
    /// Out of memory. The value is dropped, and the table is as it was; a collection may have run, and the heap may
    /// have got its first pages and a growth.
    Memory,
}

/// Why no host value is lent for writing.
#[derive(Clone, Copy, Debug, PartialEq, Eq, Error)]
pub enum HostDataFault {
    #[error("the handle is another store's")]
    WrongStore,
    #[error("the handle's root was dropped")]
    Unrooted,
    #[error("it is no host object")]
    NotHost,
}

impl From<RootFault> for HostDataFault {
    ghost from_gives = { λ fault e. e ≡ told_of_host fault };

    fn from(fault: RootFault) -> HostDataFault {
        match fault {
            RootFault::WrongStore => HostDataFault::WrongStore,
            // A look-up fails in no other way than these two.
            RootFault::Unrooted => HostDataFault::Unrooted,
            RootFault::RootsFull => HostDataFault::Unrooted,
            RootFault::Memory => HostDataFault::Unrooted,
        }
    }
}

/// There is no room for a host object, whose value is handed back.
fn without_room<D>(value: D, bytes_needed: u64) -> PlaceHostFault<D>
    ensures { result ≡ PlaceHostFault.HeapOutOfMemory (record { inner = value; bytes_needed = bytes_needed }) }
{
    PlaceHostFault::HeapOutOfMemory(GcHeapOutOfMemory::new(value, bytes_needed))
}

/// Makes a host object and its scoped root, of which it answers the index.
fn allocate_host<H: GcHeap, D: Drop, L: ResourceLimiter>(
    owner: &mut HeapOwner<H, D>,
    limiter: &mut L,
    value: D,
) -> Result<u32, PlaceHostFault<D>>
    requires idle { owner.old.seen.idle ≡ true }
    requires attached { owner.old.seen.heap.attached ≡ true }
    requires room { 0 < owner.old.seen.roots.spare }
    requires few { length owner.old.seen.roots.scoped < 2 ^ 32 }
    requires hosts { map.len owner.old.seen.hosts < max_entries }
    ensures { AllocatesRootedHost H.KIND value (state_of owner.old.seen (L.limits limiter.old)) (state_of owner.new.seen (L.limits limiter.new)) result }
{
    owner.is_ready();
    match owner.place_host(limiter, value) {
        Ok(index) => Ok(index),
        Err(HostFault::Full(_)) => unreachable!(),
        Err(HostFault::HeapOutOfMemory(back, bytes_needed)) => {
            Err(without_room(back, bytes_needed))
        }
        Err(HostFault::Memory(_)) => Err(PlaceHostFault::Memory),
    }
}

/// Makes the heap where it isn't made, collects where the allocation is due for it, and then makes a host object and
/// its scoped root, of which it answers the index.
fn make_host<H: GcHeap, D: Drop, L: ResourceLimiter>(
    owner: &mut HeapOwner<H, D>,
    limiter: &mut L,
    first_pages: u32,
    is_due: bool,
    value: D,
) -> Result<u32, PlaceHostFault<D>>
    requires idle { owner.old.seen.idle ≡ true }
    requires pages { first_pages ≤ max_pages }
    requires room { 0 < owner.old.seen.roots.spare }
    requires few { length owner.old.seen.roots.scoped < 2 ^ 32 }
    requires hosts { map.len owner.old.seen.hosts < max_entries }
    ensures { MakesRootedHost H.KIND value first_pages is_due (state_of owner.old.seen (L.limits limiter.old))
        (state_of owner.new.seen (L.limits limiter.new)) result }
{
    match owner.make_heap(limiter, first_pages) {
        Ok(()) => {
            collect_if_due(owner, is_due);
            allocate_host(owner, limiter, value)
        }
        Err(PagesFault::Refused) => Err(without_room(value, H::need(external_size(H::KIND)))),
        Err(PagesFault::Memory) => Err(PlaceHostFault::Memory),
    }
}

/// The id of the host value of the object with that word; None where it is no host object.
fn id_of<H: GcHeap>(heap: &H, gc_ref: &VMGcRef) -> Option<ExternRefHostDataId>
    requires { H.sound heap.now }
    ensures { TellsHostId (H.seen heap.now) gc_ref.now result }
{
    match gc_ref.as_externref(heap) {
        Some(external) => heap.externref_host_data(&external).ok(),
        None => None,
    }
}

impl<H: GcHeap, D: Drop> Store<H, D> {
    ghost use Rattle.gc_store.specs.HostLends.{store_lends_value, store_lends_host};

    /// Places a host object with that value, and pushes a scoped root for it. Refused are, in this order: `RootsFull`
    /// where no further scoped root may be made; `HeapOutOfMemory`, with the value, where the limiter refused the
    /// heap's first pages, or where there is no room and a growth was refused: by the limiter, or unasked, as the heap
    /// would have more than 65,535 pages. It is counted as an allocation, and collects and grows as `place` does.
    pub fn place_host<L: ResourceLimiter>(
        &mut self,
        limiter: &mut L,
        value: D,
    ) -> Result<GcRootIndex, PlaceHostFault<D>>
        ensures same { IsSameStore self.old self.new }
        ensures spare { scoped_places self.old ≤ scoped_places self.new }
        ensures places { (t : Table D) (a : Account) → HoldsAccount H.KIND self.old t a
            → PlacesHost H.KIND self.old.alloc_counter value (policy_state t a (L.limits limiter.old)) (L.limits limiter.new) result self.new }
    {
        self.owner.is_ready();
        if self.roots_full() {
            return Err(PlaceHostFault::RootsFull);
        }
        if self.owner.reserve(1).is_err() {
            return Err(PlaceHostFault::Memory);
        }
        let is_due = count_allocation(&mut self.tries, self.config.alloc_counter);
        let first_pages = self.config.first_pages;
        match make_host(&mut self.owner, limiter, first_pages, is_due, value) {
            Ok(index) => Ok(scoped_handle(self.id, self.owner.generation(), index)),
            Err(fault) => Err(fault),
        }
    }

    /// The id of the host value of what the handle names; None where that is no host object.
    fn host_id(&self, handle: GcRootIndex) -> Result<Option<ExternRefHostDataId>, RootFault>
        ensures wrong_store { is_of_store self.now handle ≡ false → result ≡ Err RootFault.WrongStore }
        ensures live { (t : Table D) (place : Placing) (r : Reference) → Holds H.KIND self.now t place → NamesReference self.now t handle r
            → FindsHostId self.now t place r result }
        ensures gone { is_of_store self.now handle ≡ true → (t : Table D) → HoldsTable H.KIND self.now t → NamesNothing self.now t handle
            → result ≡ Err RootFault.Unrooted }
    {
        self.owner.is_ready();
        match self.word_of(handle) {
            Ok(word) => {
                let gc_ref = VMGcRef::from_raw_u32(word).unwrap();
                Ok(id_of(self.owner.heap(), &gc_ref))
            }
            Err(fault) => Err(fault),
        }
    }

    /// The value of the host object that the handle names; None where it names no host object. `WrongStore` where it
    /// is another store's handle, `Unrooted` where it isn't live.
    pub fn host_data(&self, handle: GcRootIndex) -> Result<Option<&D>, RootFault>
        ensures wrong_store { is_of_store self.now handle ≡ false → IsErrAnd result (λ fault. fault ≡ RootFault.WrongStore) }
        ensures live { (t : Table D) (r : Reference) → HoldsTable H.KIND self.now t → NamesReference self.now t handle r
            → IsOkAnd result (λ found. option_copied found ≡ host_value_of t r) }
        ensures gone { is_of_store self.now handle ≡ true → (t : Table D) → HoldsTable H.KIND self.now t → NamesNothing self.now t handle
            → IsErrAnd result (λ fault. fault ≡ RootFault.Unrooted) }
    {
        match self.host_id(handle) {
            Ok(Some(id)) => Ok(self.owner.host(id)),
            Ok(None) => Ok(None),
            Err(fault) => Err(fault),
        }
    }

    /// The host value under that id, for writing; None where the id names none.
    fn host_mut(&mut self, id: ExternRefHostDataId) -> Option<&mut D>
        ensures* writes_back { sem 𝓛 (store_lends_value H.row D.row H.State.row H.GcHeap self.entry id result) }
        ensures value { option_copied_mut result ≡ map.get self.old.hosts id }
    {
        match self.owner.host_mut(id) {
            Some(value) => Some(value),
            None => None,
        }
    }

    /// The value of the host object that the handle names, for writing. `WrongStore` where it is another store's handle,
    /// `Unrooted` where it isn't live, `NotHost` where it names no host object.
    pub fn host_data_mut(&mut self, handle: GcRootIndex) -> Result<&mut D, HostDataFault>
        ensures* writes_back { sem 𝓛 (store_lends_host H.row D.row H.State.row H.GcHeap self.entry handle result) }
        ensures wrong_store { is_of_store self.old handle ≡ false → IsErrAnd result (λ fault. fault ≡ HostDataFault.WrongStore) }
        ensures live { (t : Table D) (r : Reference) → HoldsTable H.KIND self.old t → NamesReference self.old t handle r
            → LendsValue (host_value_of t r) result }
        ensures gone { is_of_store self.old handle ≡ true → (t : Table D) → HoldsTable H.KIND self.old t → NamesNothing self.old t handle
            → IsErrAnd result (λ fault. fault ≡ HostDataFault.Unrooted) }
    {
        match self.host_id(handle) {
            Ok(Some(id)) => match self.host_mut(id) {
                Some(value) => Ok(value),
                None => Err(HostDataFault::NotHost),
            },
            Ok(None) => Err(HostDataFault::NotHost),
            Err(fault) => Err(HostDataFault::from(fault)),
        }
    }

    /// Pushes a scoped root for what the handle names. `RootsFull` where no further one may be made; `WrongStore` and
    /// `Unrooted` before that, as `object` does.
    pub fn push_copy(&mut self, handle: GcRootIndex) -> Result<GcRootIndex, RootFault>
        ensures wrong_store { is_of_store self.old handle ≡ false → result ≡ Err RootFault.WrongStore }
        ensures live { (t : Table D) (a : Account) (r : Reference) → HoldsAccount H.KIND self.old t a → NamesReference self.old t handle r
            → PushesRoot H.KIND t a r result self.new }
        ensures gone { is_of_store self.old handle ≡ true → (t : Table D) → HoldsTable H.KIND self.old t → NamesNothing self.old t handle
            → result ≡ Err RootFault.Unrooted }
        ensures err { OnErr result (self.new ≡ self.old) }
        ensures same { IsSameStore self.old self.new }
        ensures spare { scoped_places self.old ≤ scoped_places self.new }
        ensures reserved { 0 < self.old.spare → result ≡ Err RootFault.Memory → ⊥ }
    {
        self.owner.is_ready();
        match self.word_of(handle) {
            Ok(word) => self.push_root(word),
            Err(fault) => Err(fault),
        }
    }
}
