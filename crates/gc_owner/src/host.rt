//! Host values, and external objects for them.

ghost use Rattle.std.specs.Prelude.{◌≡◌, ◌<◌, ◌^◌, true, length, Some, option_copied};
ghost use Rattle.std.specs.Option.{option_copied_mut};
ghost use Rattle.std.specs.Borrow.{sem};
ghost use Rattle.std.specs.FinMap as map;
ghost use Rattle.gc_owner.specs.Growing.{state_of};
ghost use Rattle.gc_owner.specs.Makes.{IsFreeHost};
ghost use Rattle.gc_owner.specs.HostValues.{PlacesExternal};
ghost use Rattle.gc_owner.specs.HostSteps.{PutsIn, PutsValue};

use crate::allocate::{AllocateFault, Description};
use crate::limiter::ResourceLimiter;
use crate::owner::HeapOwner;
use gc_heap::GcHeap;
use gc_tables::{ExternRefHostDataId, ExternRefHostDataTable, SlabFault};

/// Why a host value gets no external object. It is handed back.
#[derive(Debug, Drop)]
pub enum HostFault<D> {
    /// The table of host values has no free id.
    Full(D),
    /// The heap has no room, and it was refused more; it would have to grow by so many bytes.
    HeapOutOfMemory(D, u64),
    /// Out of memory. A collection may have run, and the heap may have grown.
    Memory(D),
}

/// Puts a value into a table of host values, under an id that no value had.
fn put_in<D: Drop>(
    hosts: &mut ExternRefHostDataTable<D>,
    value: D,
) -> Result<ExternRefHostDataId, SlabFault<D>>
    ensures { PutsIn value hosts.old.entries hosts.new.entries result }
{
    match hosts.alloc(value) {
        Ok(id) => {
            let _bounded = id.into_raw();
            Ok(id)
        }
        Err(fault) => Err(fault),
    }
}

impl<H: GcHeap, D: Drop> HeapOwner<H, D> {
    ghost use Rattle.gc_owner.specs.HostLends.{owner_lends_host};

    /// The host value under that id; None exactly where the id names none.
    pub fn host(&self, id: ExternRefHostDataId) -> Option<&D>
        ensures { option_copied result ≡ map.get self.now.seen.hosts id }
    {
        let _heap = &self.heap;
        self.hosts.get(id).ok()
    }

    /// The host value under that id, for writing; None exactly where the id names none.
    pub fn host_mut(&mut self, id: ExternRefHostDataId) -> Option<&mut D>
        requires idle { self.old.seen.idle ≡ true }
        ensures* writes_back { sem 𝓛 (owner_lends_host H.row D.row H.State.row H.GcHeap self.entry id result) }
        ensures value { option_copied_mut result ≡ map.get self.old.seen.hosts id }
    {
        match self.hosts.get_mut(id) {
            Ok(value) => Some(value),
            Err(_) => None,
        }
    }

    /// Puts a host value into the table, under an id that no value had.
    fn put_value(&mut self, value: D) -> Result<ExternRefHostDataId, SlabFault<D>>
        requires idle { self.old.seen.idle ≡ true }
        ensures { PutsValue value self.old.seen self.new.seen result }
    {
        put_in(&mut self.hosts, value)
    }

    /// Takes a host value out of the table, which no external object has.
    fn take_value(&mut self, id: ExternRefHostDataId) -> D
        requires idle { self.old.seen.idle ≡ true }
        requires free { IsFreeHost self.old.seen id }
        ensures value { map.get self.old.seen.hosts id ≡ Some result }
        ensures rest { self.new.seen ≡ record self.old.seen { hosts = map.remove self.old.seen.hosts id } }
    {
        match self.hosts.dealloc(id) {
            Ok(value) => value,
            Err(_) => unreachable!(),
        }
    }

    /// Makes an external object for a host value, under an id that no value had, and pushes a scoped root for
    /// it, of which it answers the index. The id is taken first, and given back where there is no room.
    pub fn place_host<L: ResourceLimiter>(
        &mut self,
        limiter: &mut L,
        value: D,
    ) -> Result<u32, HostFault<D>>
        requires idle { self.old.seen.idle ≡ true }
        requires attached { self.old.seen.heap.attached ≡ true }
        requires room { 0 < self.old.seen.roots.spare }
        requires few { length self.old.seen.roots.scoped < 2 ^ 32 }
        ensures { PlacesExternal H.KIND value (state_of self.old.seen (L.limits limiter.old)) (state_of self.new.seen (L.limits limiter.new)) result }
    {
        let id = match self.put_value(value) {
            Ok(id) => id,
            Err(SlabFault::Full(back)) => return Err(HostFault::Full(back)),
            Err(SlabFault::Memory(back)) => return Err(HostFault::Memory(back)),
        };
        self.is_ready();
        match self.allocate(limiter, &Description::External(id)) {
            Ok(index) => Ok(index),
            Err(AllocateFault::HeapOutOfMemory(need)) => {
                Err(HostFault::HeapOutOfMemory(self.take_value(id), need))
            }
            Err(AllocateFault::TooLarge) => unreachable!(),
            Err(AllocateFault::Memory) => Err(HostFault::Memory(self.take_value(id))),
        }
    }
}
