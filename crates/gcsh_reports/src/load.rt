//! The report of an image that is loaded.

ghost use Rattle.std.specs.Prelude.{◌≡◌, ℕ, IfOk, Some, string_bytes};
ghost use Rattle.gc_model.specs.Holds.{HoldsKept};
ghost use Rattle.gc_model.specs.Table.{Table};
ghost use Rattle.gc_store.specs.Stores.{HoldsStart, IsSameStore};
ghost use Rattle.gcsh_reports.specs.Loading.{CountsKept, LeavesLoad, TellsLoad, refusal_line};

use gc_heap::GcHeap;
use gc_load_image::{LoadFault, load_image};
use gc_owner::ResourceLimiter;
use gc_store::Store;
use std::alloc::{AllocError, Global};

/// Loads the image that the bytes are into a new store, collects, and says how many objects the heap holds then, and how
/// many of them are host objects. Where the image isn't loaded the report is the name of the refusal. An error is want
/// of memory: the image was loaded and the heap collected all the same, or it wasn't loaded, and no root stands. Its time is that of
/// `load_image` and of a collection.
pub fn load_report<H: GcHeap, L: ResourceLimiter>(
    alloc: Global,
    store: &mut Store<H, u64>,
    limiter: &mut L,
    bytes: &[u8],
) -> Result<String, AllocError>
    requires { HoldsStart ℕ H.KIND store.old }
    ensures tells { IfOk result (λ text. TellsLoad H.KIND store.old.max_scoped bytes.now (L.limits limiter.old) (L.limits limiter.new)
        (string_bytes text) store.new) }
    ensures leaves { LeavesLoad H.KIND store.old.max_scoped bytes.now (L.limits limiter.old) (L.limits limiter.new) store.new }
    ensures same { IsSameStore store.old store.new }
{
    match load_image(alloc, store, limiter, bytes) {
        Ok(_) => {
            store.gc();
            held_text(alloc, store)
        }
        Err(fault) => refusal_text(alloc, &fault),
    }
}

/// What the heap of a store holds that was collected.
fn held_text<H: GcHeap>(alloc: Global, store: &Store<H, u64>) -> Result<String, AllocError>
    ensures { IfOk result (λ text. (t : Table ℕ) → HoldsKept H.KIND store.now t → CountsKept H.KIND t (string_bytes text)) }
{
    let objects = store.held_objects();
    let hosts = store.held_host_values();
    let mut text = String::new(alloc);
    write!(text, "loaded {objects} {hosts}\n")?;
    Ok(text)
}

/// The name of a refusal, as a line; want of memory has none.
fn refusal_text(alloc: Global, fault: &LoadFault) -> Result<String, AllocError>
    ensures { IfOk result (λ text. refusal_line fault.now ≡ Some (string_bytes text)) }
{
    let mut text = String::new(alloc);
    match fault {
        LoadFault::BadImage => text.push_str("BadImage\n")?,
        LoadFault::TooLarge => text.push_str("TooLarge\n")?,
        LoadFault::RootsFull => text.push_str("RootsFull\n")?,
        LoadFault::HeapOutOfMemory(_) => text.push_str("GcHeapOutOfMemory\n")?,
        LoadFault::Memory => return Err(AllocError),
    }
    Ok(text)
}
