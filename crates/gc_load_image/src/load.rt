//! An image is loaded into a new store.

ghost use Rattle.std.specs.Prelude.{◌≡◌, ℕ, [], Err, length};
ghost use Rattle.gc_store.specs.Stores.{HoldsStart, IsSameStore};
ghost use Rattle.gc_image.specs.Text.{FitsImage};
ghost use Rattle.gc_image.specs.Well.{AreRising, AreWellGlobals, AreWellObjects, IsWellImage};
ghost use Rattle.gc_load_image.specs.Loads.{KeepsSettings, Loads};
ghost use Rattle.gc_load_image.specs.Stages.{AreGlobalsInRange, AreInRange, FillsStore, LoadsImage, Making};

use crate::declare::declare_types;
use crate::fault::LoadFault;
use crate::globals::set_globals;
use crate::late::write_late;
use crate::making::make_objects;
use crate::values::global_values;
use gc_heap::GcHeap;
use gc_image::{GlobalLine, Image, ObjectLine, is_image_well, parse_image};
use gc_store::{ResourceLimiter, Store};
use std::alloc::Global;

/// Loads the image that bytes spell into a new store: its types are those of the image then, and its globals reach the objects of the
/// image. The answer is how many these are.
///
/// `BadImage` only where the bytes are no image that is well, as `check_image` says, and there no other answer comes but `Memory`; `TooLarge` where
/// no heap of the kind can hold an object of it; `RootsFull` where its objects and twice its references that aren't null are more than the scoped
/// roots that the store may have; `HeapOutOfMemory` where pages were refused for an object of it, which needs the bytes that the fault tells, and its
/// objects reach further than the heap that there is.
///
/// After `BadImage` the store is as it was. After each of the others, and after `Memory`, the globals are null and no root stands. Its types are all
/// declared then; after `Memory` maybe the first of them, or none. Whatever the answer, the configuration of the store is as it was.
///
/// Its time is linear in the bytes, beside that of collections, of new memory and of declaring types; its memory is linear in the bytes.
pub fn load_image<H: GcHeap, L: ResourceLimiter>(
    alloc: Global,
    store: &mut Store<H, u64>,
    limiter: &mut L,
    bytes: &[u8],
) -> Result<u32, LoadFault>
    requires new { HoldsStart ℕ H.KIND store.old }
    ensures loads { Loads H.KIND store.old.max_scoped bytes.now (L.limits limiter.old) (L.limits limiter.new) result store.new }
    ensures untouched { result ≡ Err LoadFault.BadImage → store.new ≡ store.old }
    ensures settings { KeepsSettings store.old store.new }
    ensures same { IsSameStore store.old store.new }
{
    let Some(image) = parse_image(alloc, bytes)? else {
        return Err(LoadFault::BadImage);
    };
    if !is_image_well(alloc, &image)? {
        return Err(LoadFault::BadImage);
    }
    load(alloc, store, limiter, &image)
}

/// Loads an image that is well.
fn load<H: GcHeap, L: ResourceLimiter>(
    alloc: Global,
    store: &mut Store<H, u64>,
    limiter: &mut L,
    image: &Image,
) -> Result<u32, LoadFault>
    requires new { HoldsStart ℕ H.KIND store.old }
    requires fits { FitsImage image.now }
    requires well { IsWellImage image.now }
    ensures loads { LoadsImage H.KIND store.old.max_scoped image.now (L.limits limiter.old) (L.limits limiter.new) result store.new }
    ensures settings { KeepsSettings store.old store.new }
    ensures same { IsSameStore store.old store.new }
{
    declare_types(alloc, store, image.types())?;
    let scope = store.enter_gc_lifo_scope();
    let loaded = fill(alloc, store, limiter, image.objects(), image.globals());
    store.exit_gc_lifo_scope(scope);
    loaded
}

/// Makes the objects of an image and sets its globals. The roots that it pushed stand afterwards.
fn fill<H: GcHeap, L: ResourceLimiter>(
    alloc: Global,
    store: &mut Store<H, u64>,
    limiter: &mut L,
    objects: &[ObjectLine],
    globals: &[GlobalLine],
) -> Result<u32, LoadFault>
    requires objects { AreWellObjects store.old.types objects.now }
    requires globals { AreWellGlobals (length objects.now) globals.now }
    requires rising { AreRising globals.now }
    requires range { AreInRange objects.now }
    requires global_range { AreGlobalsInRange globals.now }
    requires making { Making H.KIND objects.now [] store.old }
    ensures fills { FillsStore H.KIND objects.now globals.now (L.limits limiter.old) (L.limits limiter.new) store.old result store.new }
    ensures same { IsSameStore store.old store.new }
{
    let handles = make_objects(alloc, store, limiter, objects)?;
    let Ok(count) = u32::try_from(handles.len()) else {
        // No store has so many roots.
        return Err(LoadFault::Memory);
    };
    write_late(store, objects, handles.as_slice());
    let held = global_values(alloc, store, handles.as_slice(), globals)?;
    set_globals(store, globals, held.as_slice());
    Ok(count)
}
