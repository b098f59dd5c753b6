//! Growth, and a heap that is refused it.

use crate::page::Page;
use gc_heap::GcHeap;
use gc_store::{GcHeapOutOfMemory, PageLimit, PlaceHostFault, ResourceLimiter, Scripted, Store};
use std::alloc::{AllocError, Global};

/// The bytes of a page.
const PAGE: usize = 65_536;

/// Grows, and writes what was answered and how many pages there are then.
fn grow<H: GcHeap, L: ResourceLimiter>(
    store: &mut Store<H, u64>,
    limiter: &mut L,
    bytes: u64,
    page: &mut Page,
) {
    page.refused("grow", store.gc_heap_grow(limiter, bytes));
    let pages = store.gc_heap_capacity() / PAGE;
    writeln!(page, "behind a growth by {bytes}: pages {pages}")
}

/// Collects for want of those bytes, and writes how many pages there are then.
fn collect_for<H: GcHeap>(
    store: &mut Store<H, u64>,
    limiter: &mut Scripted,
    why: &GcHeapOutOfMemory<()>,
    page: &mut Page,
) {
    page.refused("gc_for", store.gc_for(limiter, why));
    let pages = store.gc_heap_capacity() / PAGE;
    writeln!(page, "behind a collection: pages {pages}")
}

/// A limiter is asked once for the first pages and once for each growth, also for that of a collection.
fn run_asked_once<H: GcHeap>(
    alloc: Global,
    store: &mut Store<H, u64>,
    why: &GcHeapOutOfMemory<()>,
    page: &mut Page,
) -> Result<(), AllocError> {
    let mut limiter = Scripted::new(vec![in alloc; true, true, false]?);
    collect_for(store, &mut limiter, why, page);
    grow(store, &mut limiter, 1, page);
    collect_for(store, &mut limiter, why, page);
    let refusals = limiter.refusals();
    writeln!(page, "refusals {refusals}");
    Ok(())
}

/// Writes why there is no room for a host value, which comes back, and answers how many bytes are wanted.
fn take_back(fault: GcHeapOutOfMemory<u64>, page: &mut Page) -> GcHeapOutOfMemory<()> {
    writeln!(page, "{fault}");
    let (value, why) = fault.take_inner();
    writeln!(page, "value {value}");
    why
}

/// Asks for a host object to which the limiter refuses the first pages, and answers why there is no room.
fn refuse_host<H: GcHeap>(
    store: &mut Store<H, u64>,
    page: &mut Page,
) -> Option<GcHeapOutOfMemory<()>> {
    match store.place_host(&mut PageLimit::new(0), 7) {
        Err(PlaceHostFault::HeapOutOfMemory(fault)) => Some(take_back(fault, page)),
        _ => None,
    }
}

/// A heap is refused its first pages; then it is made for want of room, and grows up to the limit.
pub(crate) fn run_growth<H: GcHeap>(alloc: Global, store: &mut Store<H, u64>, page: &mut Page) {
    let Some(why) = refuse_host(store, page) else {
        return writeln!(page, "a host object is not refused for want of room");
    };
    let asked = run_asked_once(alloc, store, &why, page);
    page.refused("Scripted", asked);
    let mut limiter = PageLimit::new(4);
    grow(store, &mut limiter, 131_072, page);
    grow(store, &mut limiter, 1, page)
}
