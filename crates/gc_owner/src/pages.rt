//! The pages of a heap: its first ones, and more.

ghost use Rattle.std.specs.Prelude.{◌≡◌, ◌≤◌, ◌+◌, ◌*◌, true, false, Err, OnOk, OnErr};
ghost use Rattle.gc_view.specs.Pages.{page, max_pages};
ghost use Rattle.gc_owner.specs.Growing.{asked};
ghost use Rattle.gc_heap.specs.Heap.{grown};
ghost use Rattle.gc_owner.specs.Tracing.{StaysCollectable};
ghost use Rattle.gc_owner.specs.Growing.{pages_of, GrowsMemory};
ghost use Rattle.gc_owner.specs.Growing.{MakesHeap};

use crate::limiter::ResourceLimiter;
use gc_heap::{GcHeap, HeapMemory};
use gc_memory::memory::{MAX_PAGES, PAGE};
use std::alloc::Global;
use thiserror::Error;

/// Why a heap gets no pages.
#[derive(Clone, Copy, Debug, PartialEq, Eq, Error)]
pub enum PagesFault {
    /// The limiter refused them, or the heap would have more than 65,535.
    #[error("the heap gets no pages")]
    Refused,
    #[error("out of memory")]
    Memory,
}

/// Gives the heap its first pages, where it has no memory.
pub(crate) fn make_heap<H: GcHeap, L: ResourceLimiter>(
    alloc: Global,
    heap: &mut H,
    first_pages: u32,
    limiter: &mut L,
) -> Result<(), PagesFault>
    requires sound { H.sound heap.old }
    requires pages { first_pages ≤ max_pages }
    ensures sound { H.sound heap.new }
    ensures made { MakesHeap H.KIND first_pages (H.seen heap.old) (H.seen heap.new) (L.limits limiter.old) (L.limits limiter.new) result }
    ensures keeps { StaysCollectable H.KIND (H.seen heap.old) (H.seen heap.new) }
{
    if heap.is_attached() {
        return Ok(());
    }
    if first_pages != 0 && !limiter.growing(0, first_pages) {
        return Err(PagesFault::Refused);
    }
    match HeapMemory::new(alloc, first_pages) {
        Ok(memory) => match heap.attach(memory) {
            Ok(()) => Ok(()),
            Err(_) => Err(PagesFault::Memory),
        },
        Err(_) => Err(PagesFault::Memory),
    }
}

/// How many pages a heap has.
fn pages<H: GcHeap>(heap: &H) -> u32
    requires { H.sound heap.now }
    ensures pages { result ≡ pages_of (H.seen heap.now) }
    ensures few { result ≤ max_pages }
{
    (heap.heap_slice().len() / PAGE) as u32
}

/// The pages that a growth by so many bytes asks for: as many as there are, as far as the greatest
/// number allows, and no fewer than hold the bytes.
fn asked_pages(pages: u32, bytes: u64) -> u64
    requires { pages ≤ max_pages }
    ensures { result ≡ asked pages bytes }
{
    let page = PAGE as u64;
    let doubled = u64::from(pages.min(MAX_PAGES - pages));
    let wanted = bytes / page + u64::from(bytes % page != 0);
    doubled.max(wanted)
}

/// Asks the limiter for the pages of a growth by so many bytes, and gives them to the heap. Nobody
/// is asked for more pages than a heap may have.
pub(crate) fn grow_memory<H: GcHeap, L: ResourceLimiter>(
    heap: &mut H,
    limiter: &mut L,
    bytes: u64,
) -> Result<(), PagesFault>
    requires sound { H.sound heap.old }
    requires attached { (H.seen heap.old).attached ≡ true }
    requires ready { (H.seen heap.old).needs_gc ≡ false }
    ensures sound { H.sound heap.new }
    ensures grown { GrowsMemory H.KIND bytes (H.seen heap.old) (H.seen heap.new) (L.limits limiter.old) (L.limits limiter.new) result }
    ensures keeps { StaysCollectable H.KIND (H.seen heap.old) (H.seen heap.new) }
{
    let from = pages(heap);
    let added = asked_pages(from, bytes);
    if added > u64::from(MAX_PAGES - from) {
        return Err(PagesFault::Refused);
    }
    let added = added as u32;
    if !limiter.growing(from, from + added) {
        return Err(PagesFault::Refused);
    }
    extend(heap, added)
}

/// Gives the heap so many pages more.
fn extend<H: GcHeap>(heap: &mut H, added: u32) -> Result<(), PagesFault>
    requires sound { H.sound heap.old }
    requires attached { (H.seen heap.old).attached ≡ true }
    requires ready { (H.seen heap.old).needs_gc ≡ false }
    requires few { pages_of (H.seen heap.old) + added ≤ max_pages }
    ensures sound { H.sound heap.new }
    ensures ok { OnOk result (H.seen heap.new ≡ grown H.KIND (H.seen heap.old) (page * added)) }
    ensures err { OnErr result ((H.seen heap.new ≡ H.seen heap.old) × (result ≡ Err PagesFault.Memory)) }
{
    let mut memory = heap.take_memory();
    match memory.grow(added) {
        Ok(()) => {
            heap.replace_memory(memory, u64::from(added) * PAGE as u64);
            Ok(())
        }
        Err(_) => {
            heap.replace_memory(memory, 0);
            Err(PagesFault::Memory)
        }
    }
}
