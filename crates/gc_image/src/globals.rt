//! Whether the globals of an image are well.

ghost use Rattle.std.specs.Prelude.{◌↔◌, IsTrue};
ghost use Rattle.gc_image.specs.Well.{AreRising, AreWellGlobals, HoldsReference, IsWellGlobal};

use crate::image::{GlobalLine, ImageReference, ImageValue};
use gc_owner::GcClass;

/// How many globals a store has.
const GLOBALS: u16 = 16;

/// Whether each global is well, in an image of so many objects.
pub(crate) fn are_globals_well(globals: &[GlobalLine], count: usize) -> bool
    ensures { IsTrue result ↔ AreWellGlobals count globals.now }
{
    for global in globals {
        if !is_global_well(global, count) {
            return false;
        }
    }
    true
}

/// Whether a global is well.
fn is_global_well(global: &GlobalLine, count: usize) -> bool
    ensures { IsTrue result ↔ IsWellGlobal count global.now }
{
    global.index < GLOBALS && holds_reference(&global.value, count)
}

/// Whether a value is a reference that a global's line may hold.
fn holds_reference(value: &ImageValue, count: usize) -> bool
    ensures { IsTrue result ↔ HoldsReference count value.now }
{
    match *value {
        ImageValue::Ref(class, ImageReference::Null) => !matches!(class, GcClass::Any),
        ImageValue::Ref(_, ImageReference::Small(_)) => true,
        ImageValue::Ref(_, ImageReference::Object(number)) => number < count,
        _ => false,
    }
}

/// Whether each global has a greater index than the one before it.
pub(crate) fn are_rising(globals: &[GlobalLine]) -> bool
    ensures { IsTrue result ↔ AreRising globals.now }
{
    let mut i = 1;
    while i < globals.len() {
        if globals[i - 1].index >= globals[i].index {
            return false;
        }
        i += 1;
    }
    true
}
