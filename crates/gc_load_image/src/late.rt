//! The references are written that lead to objects which were made later than their own.

ghost use Rattle.std.specs.Prelude.{◌≡◌, ◌<◌, ◌+◌, Some, length, slice_get};
ghost use Rattle.gc_store.specs.Stores.{IsSameStore};
ghost use Rattle.gc_image.specs.Well.{AreWellObjects};
ghost use Rattle.gc_load_image.specs.Stages.{AreShort, Complete, LoadGoesOn, IsLate, IsValueAt, Writing};

use gc_heap::GcHeap;
use gc_image::{ImageReference, ImageValue, ObjectLine, values_of};
use gc_store::{GcClass, GcRootIndex, RawValue, Store};

/// Writes the references of all objects.
pub(crate) fn write_late<H: GcHeap>(
    store: &mut Store<H, u64>,
    objects: &[ObjectLine],
    handles: &[GcRootIndex],
)
    requires well { AreWellObjects store.old.types objects.now }
    requires short { AreShort objects.now }
    requires all { length handles.now ≡ length objects.now }
    requires writing { Writing H.KIND objects.now handles.now 0 0 store.old }
    ensures complete { Complete H.KIND objects.now handles.now store.new }
    ensures goes { LoadGoesOn 0 store.old store.new }
    ensures same { IsSameStore store.old store.new }
{
    for number in 0..objects.len() {
        write_values(store, objects, handles, number);
    }
}

/// Writes the references of the object with a number.
fn write_values<H: GcHeap>(
    store: &mut Store<H, u64>,
    objects: &[ObjectLine],
    handles: &[GcRootIndex],
    number: usize,
)
    requires inside { number < length objects.now }
    requires well { AreWellObjects store.old.types objects.now }
    requires short { AreShort objects.now }
    requires all { length handles.now ≡ length objects.now }
    requires writing { Writing H.KIND objects.now handles.now number 0 store.old }
    ensures writing { Writing H.KIND objects.now handles.now (number + 1) 0 store.new }
    ensures goes { LoadGoesOn 0 store.old store.new }
    ensures same { IsSameStore store.old store.new }
{
    for index in 0..values_of(&objects[number]).len() {
        write_value(store, objects, handles, number, index);
    }
}

/// The class and the number of a reference to an object that was made no earlier than the one with a number.
fn late_reference(number: usize, value: &ImageValue) -> Option<(GcClass, usize)>
    ensures { IsLate number value.now result }
{
    match *value {
        ImageValue::Ref(class, ImageReference::Object(named)) if named >= number => {
            Some((class, named))
        }
        _ => None,
    }
}

/// The handle of the object with a number.
fn handle_at(handles: &[GcRootIndex], number: usize) -> GcRootIndex
    requires { number < length handles.now }
    ensures { slice_get handles.now number ≡ Some result }
{
    handles[number]
}

/// Writes the value at an index of the object with a number, where it is such a reference.
fn write_value<H: GcHeap>(
    store: &mut Store<H, u64>,
    objects: &[ObjectLine],
    handles: &[GcRootIndex],
    number: usize,
    index: usize,
)
    requires value { IsValueAt objects.now number index }
    requires well { AreWellObjects store.old.types objects.now }
    requires short { AreShort objects.now }
    requires all { length handles.now ≡ length objects.now }
    requires writing { Writing H.KIND objects.now handles.now number index store.old }
    ensures writing { Writing H.KIND objects.now handles.now number (index + 1) store.new }
    ensures goes { LoadGoesOn 0 store.old store.new }
    ensures same { IsSameStore store.old store.new }
{
    let value = &values_of(&objects[number])[index];
    if let Some((class, named)) = late_reference(number, value) {
        let holder = handle_at(handles, number);
        let reference = RawValue::Ref(class, Some(handle_at(handles, named)));
        // It takes no memory, so it is always written.
        let _written = store.write_value(holder, index as u32, reference);
    }
}
