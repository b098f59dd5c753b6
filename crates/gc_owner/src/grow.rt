//! Pages for the heap.

ghost use Rattle.std.specs.Prelude.{◌≡◌, ◌≤◌, true, false, Err};
ghost use Rattle.gc_view.specs.Pages.{max_pages};
ghost use Rattle.gc_heap.specs.Content.{IsHeap};
ghost use Rattle.gc_owner.specs.Limiters.{Limits};
ghost use Rattle.gc_owner.specs.Growing.{collects_first, state_of, MakesHeap, GrowsMemory, Readies, GrowsBy, Expands};

use crate::limiter::ResourceLimiter;
use crate::owner::HeapOwner;
use crate::pages::{PagesFault, grow_memory, make_heap};
use gc_heap::GcHeap;

/// Whether an allocation that needs so many bytes and finds no room collects before it grows, by the
/// heap's capacity and what was in use after its last collection, in bytes (wasmtime's rule): where
/// both together stay below half of the capacity.
pub fn should_collect_first(
    bytes_needed: u64,
    gc_heap_capacity: usize,
    last_gc_heap_usage: usize,
) -> bool
    ensures { result ≡ collects_first bytes_needed gc_heap_capacity last_gc_heap_usage }
{
    if gc_heap_capacity == 0 {
        return false;
    }
    if bytes_needed == 0 {
        return true;
    }
    if bytes_needed > i64::MAX as u64 {
        return false;
    }
    match last_gc_heap_usage.checked_add(bytes_needed as usize) {
        Some(usage) => usage < gc_heap_capacity / 2,
        None => true,
    }
}

impl<H: GcHeap, D: Drop> HeapOwner<H, D> {
    /// Gives the heap its first pages, where it has no memory: the limiter is asked once, for all of them,
    /// and not for none. A spent owner (`spent`) answers `Memory`, always.
    pub fn make_heap<L: ResourceLimiter>(
        &mut self,
        limiter: &mut L,
        first_pages: u32,
    ) -> Result<(), PagesFault>
        requires idle { self.old.seen.idle ≡ true }
        requires pages { first_pages ≤ max_pages }
        ensures made { MakesHeap H.KIND first_pages self.old.seen.heap self.new.seen.heap (L.limits limiter.old) (L.limits limiter.new) result }
        ensures spent { self.old.seen.roots.has_places ≡ false → result ≡ Err PagesFault.Memory }
        ensures rest { self.new.seen ≡ record self.old.seen { heap = self.new.seen.heap } }
    {
        if !self.roots.has_places() {
            return Err(PagesFault::Memory);
        }
        let alloc = self.alloc;
        make_heap(alloc, &mut self.heap, first_pages, limiter)
    }

    /// Collects where the heap has to be collected before it may grow.
    fn ready_to_grow(&mut self)
        requires idle { self.old.seen.idle ≡ true }
        requires attached { self.old.seen.heap.attached ≡ true }
        ensures idle { self.new.seen.idle ≡ true }
        ensures attached { self.new.seen.heap.attached ≡ true }
        ensures lower { self.new.seen.heap.needs_gc ≡ false }
        ensures readied { (limits : Limits) → Readies H.KIND (state_of self.old.seen limits) (state_of self.new.seen limits) }
    {
        if self.heap().needs_gc_before_next_growth() {
            self.collect();
        }
    }

    /// Asks the limiter for the pages of a growth by so many bytes, and gives them to the heap.
    fn add_pages<L: ResourceLimiter>(
        &mut self,
        limiter: &mut L,
        bytes: u64,
    ) -> Result<(), PagesFault>
        requires idle { self.old.seen.idle ≡ true }
        requires attached { self.old.seen.heap.attached ≡ true }
        requires ready { self.old.seen.heap.needs_gc ≡ false }
        ensures grown { GrowsMemory H.KIND bytes self.old.seen.heap self.new.seen.heap (L.limits limiter.old) (L.limits limiter.new) result }
        ensures is_heap { IsHeap H.KIND self.new.seen.heap }
        ensures rest { self.new.seen ≡ record self.old.seen { heap = self.new.seen.heap } }
    {
        grow_memory(&mut self.heap, limiter, bytes)
    }

    /// Lets a heap that has its memory grow by so many bytes: it is collected where it has to be before a
    /// growth, and then the limiter is asked once, for as many pages again as there are and for no fewer than
    /// hold the bytes. Its time is that of a collection, beside that of the memory.
    pub fn grow_by<L: ResourceLimiter>(
        &mut self,
        limiter: &mut L,
        bytes: u64,
    ) -> Result<(), PagesFault>
        requires idle { self.old.seen.idle ≡ true }
        requires attached { self.old.seen.heap.attached ≡ true }
        ensures { GrowsBy H.KIND bytes (state_of self.old.seen (L.limits limiter.old)) (state_of self.new.seen (L.limits limiter.new)) result }
    {
        self.ready_to_grow();
        self.add_pages(limiter, bytes)
    }

    /// Makes the heap where it isn't made, and then lets it grow by so many bytes.
    pub fn expand<L: ResourceLimiter>(
        &mut self,
        limiter: &mut L,
        first_pages: u32,
        bytes: u64,
    ) -> Result<(), PagesFault>
        requires idle { self.old.seen.idle ≡ true }
        requires pages { first_pages ≤ max_pages }
        ensures { Expands H.KIND first_pages bytes (state_of self.old.seen (L.limits limiter.old)) (state_of self.new.seen (L.limits limiter.new)) result }
    {
        match self.make_heap(limiter, first_pages) {
            Ok(()) => self.grow_by(limiter, bytes),
            Err(fault) => Err(fault),
        }
    }
}
