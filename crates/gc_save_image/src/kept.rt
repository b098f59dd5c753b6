//! Whether values are as fields and elements keep them.

ghost use Rattle.std.specs.Prelude.{IsTrue};
ghost use Rattle.gc_model.specs.Stored.{value_type};
ghost use Rattle.gc_image.specs.Well.{as_object};
ghost use Rattle.gc_save_image.specs.Keeping.{AreKept, IsKeptIn, IsLineKept};

use gc_image::{ImageValue, ObjectLine, is_stored, value_type, values_of};
use gc_types::Types;

/// Whether each value of the objects is as its field or element keeps it. Takes time linear in the values.
pub(crate) fn are_kept(types: &Types, objects: &[ObjectLine]) -> bool
    ensures { IsTrue result → AreKept types.now.declarations objects.now }
{
    for line in objects {
        if !is_line_kept(types, line) {
            return false;
        }
    }
    true
}

/// Whether each value of one object is.
fn is_line_kept(types: &Types, line: &ObjectLine) -> bool
    ensures { IsTrue result → IsLineKept types.now.declarations line.now }
{
    let values = values_of(line);
    for (index, value) in values.iter().enumerate() {
        if !is_kept_at(types, line, index, value) {
            return false;
        }
    }
    true
}

/// Whether the value of that index is.
fn is_kept_at(types: &Types, line: &ObjectLine, index: usize, value: &ImageValue) -> bool
    ensures { IsTrue result → IsKeptIn (value_type types.now.declarations (as_object line.now) index) value.now }
{
    match value_type(types, line, index) {
        Some(field) => is_stored(field.element_type, value),
        None => true,
    }
}
