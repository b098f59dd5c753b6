//! More memory for a heap that holds objects.

ghost use Rattle.std.specs.Prelude.{◌≡◌, ◌*◌, ◌≤◌, ◌+◌, ◌↔◌, OnOk, OnErr, IfErr, IsErrOf, IsOkUnless, true, false};
ghost use Rattle.gc_view.specs.Pages.{page, max_pages};
ghost use Rattle.gc_heap.specs.Heap.{grown};
ghost use Rattle.test_mutator.specs.Refusals.{CanGrow, RefusesGrowth};

use crate::fault::MutatorFault;
use crate::mutator::Mutator;
use gc_heap::GcHeap;
use gc_memory::memory::{MAX_PAGES, PAGE};

/// Takes the memory of a heap, and gives it back with so many pages more. Without memory for them it is
/// given back as it was.
fn grow_heap<H: GcHeap>(heap: &mut H, pages: u32) -> Result<(), MutatorFault>
    requires sound { H.sound heap.old }
    requires attached { (H.seen heap.old).attached ≡ true }
    requires open { (H.seen heap.old).needs_gc ≡ false }
    requires fits { (H.seen heap.old).capacity + page * pages ≤ page * max_pages }
    ensures sound { H.sound heap.new }
    ensures ok { OnOk result (H.seen heap.new ≡ grown H.KIND (H.seen heap.old) (page * pages)) }
    ensures err { OnErr result (H.seen heap.new ≡ H.seen heap.old) }
    ensures why { IsOkUnless result MutatorFault.Memory }
{
    let mut memory = heap.take_memory();
    match memory.grow(pages) {
        Ok(()) => {
            heap.replace_memory(memory, PAGE as u64 * u64::from(pages));
            Ok(())
        }
        Err(_) => {
            heap.replace_memory(memory, 0);
            Err(MutatorFault::Memory)
        }
    }
}

impl<H: GcHeap> Mutator<H> {
    /// Grows the memory of the heap by so many pages. All objects stay. `CollectFirst` exactly where the
    /// heap asks for a collection first, and else `Full` exactly where the memory would have more than
    /// 65,535 pages.
    pub fn grow(&mut self, pages: u32) -> Result<(), MutatorFault>
        ensures grown { OnOk result (self.new ≡ record self.old { heap = grown H.KIND self.old.heap (page * pages) }) }
        ensures err { OnErr result (self.new ≡ self.old) }
        ensures first { IsErrOf result MutatorFault.CollectFirst ↔ (self.old.heap.needs_gc ≡ true) }
        ensures can { OnOk result (CanGrow self.old pages) }
        ensures why { IfErr result (RefusesGrowth self.old pages) }
    {
        if self.heap.needs_gc_before_next_growth() {
            return Err(MutatorFault::CollectFirst);
        }
        let capacity = self.heap.heap_slice().len() as u64;
        if capacity + PAGE as u64 * u64::from(pages) > PAGE as u64 * u64::from(MAX_PAGES) {
            return Err(MutatorFault::Full);
        }
        grow_heap(&mut self.heap, pages)
    }
}
