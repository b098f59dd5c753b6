//! The objects of an image are made by their numbers, each with its references to objects that were made before.

ghost use Rattle.std.specs.Prelude.{◌≡◌, [], Some, length, slice_get, sum_by, MatchResult};
ghost use Rattle.gc_store.specs.Stores.{IsSameStore};
ghost use Rattle.gc_image.specs.Well.{AreWellObjects};
ghost use Rattle.gc_load_image.specs.Stages.{AreInRange, MadeAll, MakesNext, Making, Stops, line_roots};

use crate::fault::LoadFault;
use crate::objects::allocate_line;
use crate::values::raw_values;
use gc_heap::GcHeap;
use gc_image::{ObjectLine, values_of};
use gc_store::{GcRootIndex, ResourceLimiter, Store};
use std::alloc::Global;

/// Makes the objects of an image, and answers their handles by number. What the roots that it pushed name stands until whoever
/// opened the scope around it leaves that.
pub(crate) fn make_objects<H: GcHeap, L: ResourceLimiter>(
    alloc: Global,
    store: &mut Store<H, u64>,
    limiter: &mut L,
    objects: &[ObjectLine],
) -> Result<Vec<GcRootIndex>, LoadFault>
    requires well { AreWellObjects store.old.types objects.now }
    requires range { AreInRange objects.now }
    requires making { Making H.KIND objects.now [] store.old }
    ensures makes { MatchResult result (λ handles. MadeAll H.KIND objects.now (L.limits limiter.old) (L.limits limiter.new) store.old handles.items store.new)
        (λ why. Stops H.KIND store.old.types objects.now (L.limits limiter.old) (L.limits limiter.new)
        (sum_by line_roots objects.now) store.old why store.new) }
    ensures same { IsSameStore store.old store.new }
{
    let mut handles = Vec::with_capacity(alloc, objects.len())?;
    for line in objects {
        let handle = make_object(alloc, store, limiter, objects, handles.as_slice(), line)?;
        handles.extend_from_slice(&[handle])?;
    }
    Ok(handles)
}

/// Makes the next object of an image, that of a line, behind those with handles.
fn make_object<H: GcHeap, L: ResourceLimiter>(
    alloc: Global,
    store: &mut Store<H, u64>,
    limiter: &mut L,
    objects: &[ObjectLine],
    handles: &[GcRootIndex],
    line: &ObjectLine,
) -> Result<GcRootIndex, LoadFault>
    requires here { slice_get objects.now (length handles.now) ≡ Some line.now }
    requires well { AreWellObjects store.old.types objects.now }
    requires range { AreInRange objects.now }
    requires making { Making H.KIND objects.now handles.now store.old }
    ensures makes { MakesNext H.KIND objects.now handles.now line.now (L.limits limiter.old) (L.limits limiter.new) store.old result store.new }
    ensures same { IsSameStore store.old store.new }
{
    let raws = raw_values(alloc, store, handles, values_of(line))?;
    allocate_line(store, limiter, line, raws.as_slice())
}
