//! Whether the objects of an image are well.

ghost use Rattle.std.specs.Prelude.{◌≡◌, ◌↔◌, IsTrue, length, map, option_map};
ghost use Rattle.gc_types.specs.Declarations.{elem_at, struct_fields_at};
ghost use Rattle.gc_model.specs.Sizes.{exn_fields_at};
ghost use Rattle.gc_model.specs.Stored.{listed_type, value_type};
ghost use Rattle.gc_image.specs.Steps.{IsInTime};
ghost use Rattle.gc_image.specs.Well.{AreWellObjects, AreWellValues, HasShape, IsPacked, IsWellObject, IsWellValue, as_object, line_values, number_named};

use crate::fits::{fits, is_early, is_stored};
use crate::image::{ImageReference, ImageValue, ObjectLine};
use gc_types::{FieldType, Types, VMSharedTypeIndex};

/// Whether each object is well.
pub(crate) fn are_objects_well(types: &Types, objects: &[ObjectLine]) -> bool
    ensures { IsTrue result ↔ AreWellObjects types.now.declarations objects.now }
{
    for (number, line) in objects.iter().enumerate() {
        if !is_object_well(types, objects, number, line) {
            return false;
        }
    }
    true
}

/// Whether the object with a number, which has that line, is well.
fn is_object_well(types: &Types, objects: &[ObjectLine], number: usize, line: &ObjectLine) -> bool
    ensures { IsTrue result ↔ IsWellObject types.now.declarations (map as_object objects.now) number line.now }
{
    has_shape(types, line) && are_values_well(types, objects, number, line)
}

/// Whether each value of a line is well.
fn are_values_well(types: &Types, objects: &[ObjectLine], number: usize, line: &ObjectLine) -> bool
    ensures { IsTrue result ↔ AreWellValues types.now.declarations (map as_object objects.now) number line.now }
{
    let values = values_of(line);
    for (index, value) in values.iter().enumerate() {
        if !is_value_well(types, objects, number, line, index, value) {
            return false;
        }
    }
    true
}

/// Whether the value of a line at an index is well.
fn is_value_well(
    types: &Types,
    objects: &[ObjectLine],
    number: usize,
    line: &ObjectLine,
    index: usize,
    value: &ImageValue,
) -> bool
    ensures { IsTrue result ↔ IsWellValue types.now.declarations (map as_object objects.now) number line.now index value.now }
{
    match value_type(types, line, index) {
        Some(field) => {
            fits(types, objects, field.element_type, value)
                && is_stored(field.element_type, value)
                && is_made_in_time(&field, number, value)
        }
        None => false,
    }
}

/// Whether what an early value names has a lower number than its object.
fn is_made_in_time(field: &FieldType, number: usize, value: &ImageValue) -> bool
    ensures { IsTrue result ↔ IsInTime field.now number value.now }
{
    match number_named(value) {
        Some(named) => !is_early(field) || named < number,
        None => true,
    }
}

/// The number of the object that a value names.
pub fn number_named(value: &ImageValue) -> Option<usize>
    ensures { result ≡ number_named value.now }
{
    match *value {
        ImageValue::Ref(_, ImageReference::Object(number)) => Some(number),
        _ => None,
    }
}

/// The values that a line spells; none where it spells bytes.
pub fn values_of(line: &ObjectLine) -> &[ImageValue]
    ensures { result.now ≡ line_values line.now }
{
    match line {
        ObjectLine::Struct { values, .. }
        | ObjectLine::Array { values, .. }
        | ObjectLine::Exn { values, .. } => values.as_slice(),
        ObjectLine::Bytes { .. } | ObjectLine::Host { .. } => &[],
    }
}

/// Whether the type of a line is of its kind, has as many fields as the line has values, and has elements of 8 bits exactly where
/// the line spells bytes.
fn has_shape(types: &Types, line: &ObjectLine) -> bool
    ensures { IsTrue result ↔ HasShape types.now.declarations line.now }
{
    match line {
        ObjectLine::Struct { ty, values } => {
            types.struct_len(VMSharedTypeIndex::new(*ty)) == Some(values.as_slice().len())
        }
        ObjectLine::Array { ty, .. } => has_elements(types, *ty, false),
        ObjectLine::Bytes { ty, .. } => has_elements(types, *ty, true),
        ObjectLine::Host { .. } => true,
        ObjectLine::Exn { ty, values, .. } => {
            exn_len(types, *ty) == Some(values.as_slice().len())
        }
    }
}

/// Whether a type is an array, of 8-bit elements or of others.
fn has_elements(types: &Types, ty: u32, are_packed: bool) -> bool
    ensures { IsTrue result ↔ IsPacked (elem_at types.now.declarations ty) are_packed }
{
    match types.array_elem(VMSharedTypeIndex::new(ty)) {
        Some(elem) => elem.element_type.is_i8() == are_packed,
        None => false,
    }
}

/// How many fields an exception type has; None where the index names none.
fn exn_len(types: &Types, ty: u32) -> Option<usize>
    ensures { result ≡ option_map length (exn_fields_at types.now.declarations ty) }
{
    let ty = VMSharedTypeIndex::new(ty);
    if types.exn_type(ty).is_some() {
        types.fields_len(ty)
    } else {
        None
    }
}

/// The type of the value of a line at an index; None where its type tells of none.
pub fn value_type(types: &Types, line: &ObjectLine, index: usize) -> Option<FieldType>
    ensures { result ≡ value_type types.now.declarations (as_object line.now) index }
{
    match line {
        ObjectLine::Struct { ty, .. } => struct_field(types, *ty, index),
        ObjectLine::Array { ty, .. } => types.array_elem(VMSharedTypeIndex::new(*ty)),
        ObjectLine::Bytes { ty, .. } => types.array_elem(VMSharedTypeIndex::new(*ty)),
        ObjectLine::Host { .. } => None,
        ObjectLine::Exn { ty, .. } => exn_field(types, *ty, index),
    }
}

/// The field of a struct type.
fn struct_field(types: &Types, ty: u32, index: usize) -> Option<FieldType>
    ensures { result ≡ listed_type (struct_fields_at types.now.declarations ty) index }
{
    let ty = VMSharedTypeIndex::new(ty);
    if types.struct_type(ty).is_some() {
        types.field(ty, index)
    } else {
        None
    }
}

/// The field of an exception type.
fn exn_field(types: &Types, ty: u32, index: usize) -> Option<FieldType>
    ensures { result ≡ listed_type (exn_fields_at types.now.declarations ty) index }
{
    let ty = VMSharedTypeIndex::new(ty);
    if types.exn_type(ty).is_some() {
        types.field(ty, index)
    } else {
        None
    }
}
