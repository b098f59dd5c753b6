//! Whether the numbers that objects and globals name are those of objects.

ghost use Rattle.std.specs.Prelude.{◌≡◌, ◌<◌, ℕ, Some, IsTrue, length, slice_get};
ghost use Rattle.gc_image.specs.declared.image.ImageValue.{ImageValue};
ghost use Rattle.gc_image.specs.Well.{GlobalHolds, number_named};
ghost use Rattle.gc_image_write.specs.Order.{AreBelow, AreClosed, NamesBelow};

use gc_image::{GlobalLine, ImageValue, ObjectLine, number_named, values_of};

/// Whether each number that an object or a global names is one of an object. Takes time linear in the values.
pub fn are_numbers_below(objects: &[ObjectLine], globals: &[GlobalLine]) -> bool
    ensures closed { IsTrue result → AreClosed objects.now }
    ensures held { IsTrue result → (number : ℕ) → GlobalHolds globals.now number → number < length objects.now }
{
    are_objects_below(objects) && are_globals_below(globals, objects.len())
}

/// Whether what the objects name is among them.
fn are_objects_below(objects: &[ObjectLine]) -> bool
    ensures { IsTrue result → AreClosed objects.now }
{
    for line in objects {
        if !are_below(values_of(line), objects.len()) {
            return false;
        }
    }
    true
}

/// Whether what the globals hold is among so many objects.
fn are_globals_below(globals: &[GlobalLine], count: usize) -> bool
    ensures { IsTrue result → (number : ℕ) → GlobalHolds globals.now number → number < count }
{
    for global in globals {
        if !is_below(&global.value, count) {
            return false;
        }
    }
    true
}

/// Whether what values name is among so many objects.
fn are_below(values: &[ImageValue], count: usize) -> bool
    ensures { IsTrue result → AreBelow count values.now }
{
    for value in values {
        if !is_below(value, count) {
            return false;
        }
    }
    true
}

/// Whether what a value names is among so many objects.
fn is_below(value: &ImageValue, count: usize) -> bool
    ensures { IsTrue result → NamesBelow count value.now }
{
    match number_named(value) {
        Some(number) => number < count,
        None => true,
    }
}
