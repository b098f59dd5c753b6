//! Growth of a store's heap.

ghost use Rattle.std.specs.Prelude.{◌≡◌, ◌≤◌, ◌*◌, ◌-◌, true, false};
ghost use Rattle.gc_view.specs.Pages.{page, max_pages};
ghost use Rattle.gc_model.specs.Allocation.{Limits};
ghost use Rattle.gc_model.specs.Table.{Table};
ghost use Rattle.gc_model.specs.Holds.{HoldsTable};
ghost use Rattle.gc_model.specs.Accounts.{Account, HoldsAccount};
ghost use Rattle.gc_store.specs.Expansion.{GrowsStore, CollectsFor, unused_bytes};
ghost use Rattle.gc_model.specs.Policy.{policy_state};
ghost use Rattle.gc_store.specs.Stores.{IsSameStore};

use crate::store::Store;
use gc_heap::GcHeap;
use gc_owner::{PagesFault, ResourceLimiter};
use gc_values::faults::GcHeapOutOfMemory;
use std::alloc::AllocError;
use thiserror::Error;

/// Why a heap did not grow.
#[derive(Clone, Copy, Debug, PartialEq, Eq, Error)]
pub enum GrowFault {
    /// The limiter refused the heap's first pages or the growth, or the heap would have more than
    /// 65,535 pages.
    #[error("GC heap growth failed")]
    GcHeapGrowthFailed,
    /// Out of memory. The heap may have been collected, or have got its first pages.
    #[error("out of memory")]
    Memory,
}

impl<H: GcHeap, D: Drop> Store<H, D> {
    /// The bytes of the heap's memory; 0 where no heap is made.
    pub fn gc_heap_capacity(&self) -> usize
        ensures seen { result ≡ self.now.heap.capacity }
        ensures table { (t : Table D) → HoldsTable H.KIND self.now t → result ≡ page * t.pages }
    {
        self.owner.heap().heap_slice().len()
    }

    /// Whether the heap is made. It takes no memory.
    pub fn heap_is_made(&self) -> bool
        ensures seen { result ≡ self.now.heap.attached }
        ensures table { (t : Table D) → HoldsTable H.KIND self.now t → result ≡ t.made }
    {
        self.owner.is_made()
    }

    /// Lets the heap grow by so many bytes: nothing happens for 0. Else the heap is collected where it
    /// has to be before a growth, and made where it isn't; then the limiter is asked once, for as many
    /// pages again as there are and for no fewer than hold the bytes. No smaller growth is tried.
    /// `GcHeapGrowthFailed` where the limiter refused, or there would be more than 65,535 pages. Its
    /// time is that of a collection, beside that of the memory.
    pub fn gc_heap_grow<L: ResourceLimiter>(
        &mut self,
        limiter: &mut L,
        bytes: u64,
    ) -> Result<(), GrowFault>
        ensures grows { (t : Table D) (a : Account) → HoldsAccount H.KIND self.old t a
            → GrowsStore H.KIND bytes (policy_state t a (L.limits limiter.old)) (L.limits limiter.new) result self.new }
        ensures same { IsSameStore self.old self.new }
        ensures spare { self.old.spare ≤ self.new.spare }
    {
        if bytes == 0 {
            return Ok(());
        }
        self.owner.is_ready();
        let first_pages = self.config.first_pages;
        match self.owner.expand(limiter, first_pages, bytes) {
            Ok(()) => Ok(()),
            Err(PagesFault::Refused) => Err(GrowFault::GcHeapGrowthFailed),
            Err(PagesFault::Memory) => Err(GrowFault::Memory),
        }
    }

    /// Collects, and lets the heap grow by the bytes that were needed where it has fewer beside those
    /// that are allocated then. That the growth was refused is overlooked. (wasmtime's `gc` with its
    /// reason.)
    pub fn gc_for<L: ResourceLimiter>(
        &mut self,
        limiter: &mut L,
        why: &GcHeapOutOfMemory<()>,
    ) -> Result<(), AllocError>
        ensures collects { (t : Table D) (a : Account) → HoldsAccount H.KIND self.old t a
            → CollectsFor H.KIND why.now.bytes_needed (policy_state t a (L.limits limiter.old)) (L.limits limiter.new) result self.new }
        ensures same { IsSameStore self.old self.new }
        ensures spare { self.old.spare ≤ self.new.spare }
    {
        self.gc();
        if self.unused_bytes() >= why.bytes_needed() {
            return Ok(());
        }
        match self.gc_heap_grow(limiter, why.bytes_needed()) {
            Ok(()) => Ok(()),
            Err(GrowFault::GcHeapGrowthFailed) => Ok(()),
            Err(GrowFault::Memory) => Err(AllocError),
        }
    }

    /// The bytes of the heap beside those that are allocated.
    fn unused_bytes(&self) -> u64
        ensures { (t : Table D) (a : Account) (limits : Limits) → HoldsAccount H.KIND self.now t a → result ≡ unused_bytes H.KIND (policy_state t a limits) }
    {
        (self.gc_heap_capacity() - self.owner.heap().allocated_bytes()) as u64
    }
}
