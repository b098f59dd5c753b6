//! Objects and globals under new numbers.

ghost use Rattle.std.specs.Prelude.{◌≡◌, ◌<◌, ℕ, Some, IfOk, length, map, slice_get};
ghost use Rattle.gc_save_image.specs.Renumbering.{AreNumbersOf, new_number_in, renumbered_global, renumbered_line, renumbered_value, reordered};

use gc_commands::ByteText;
use gc_image::{GlobalLine, ImageReference, ImageValue, ImageValues, ObjectLine};
use std::alloc::{AllocError, Global};

/// The new numbers by the old ones, of which there are so many, where objects are in that order.
pub(crate) fn numbers_of(
    alloc: Global,
    order: &[usize],
    count: usize,
) -> Result<Vec<usize>, AllocError>
    requires only { (n old : ℕ) → slice_get order.now n ≡ Some old → old < count }
    requires once { (n m old : ℕ) → slice_get order.now n ≡ Some old → slice_get order.now m ≡ Some old → n ≡ m }
    ensures { IfOk result (λ numbers. AreNumbersOf order.now numbers.items) }
{
    let mut numbers = vec![in alloc; 0_usize; count]?;
    for number in 0..order.len() {
        numbers[order[number]] = number;
    }
    Ok(numbers)
}

/// The new number of an old one; 0 where it has none.
fn number_in(numbers: &[usize], old: usize) -> usize
    ensures { result ≡ new_number_in numbers.now old }
{
    numbers.get(old).copied().unwrap_or(0)
}

/// A value under new numbers.
fn renumbered_value(value: &ImageValue, numbers: &[usize]) -> ImageValue
    ensures { result ≡ renumbered_value (new_number_in numbers.now) value.now }
{
    match *value {
        ImageValue::I32(number) => ImageValue::I32(number),
        ImageValue::I64(number) => ImageValue::I64(number),
        ImageValue::F32(bits) => ImageValue::F32(bits),
        ImageValue::F64(bits) => ImageValue::F64(bits),
        ImageValue::V128(bits) => ImageValue::V128(bits),
        ImageValue::Ref(class, ImageReference::Null) => ImageValue::Ref(
            class,
            ImageReference::Null,
        ),
        ImageValue::Ref(class, ImageReference::Small(number)) => {
            ImageValue::Ref(class, ImageReference::Small(number))
        }
        ImageValue::Ref(class, ImageReference::Object(old)) => {
            ImageValue::Ref(class, ImageReference::Object(number_in(numbers, old)))
        }
    }
}

/// Values under new numbers.
fn renumbered_values(
    alloc: Global,
    values: &[ImageValue],
    numbers: &[usize],
) -> Result<ImageValues, AllocError>
    ensures { IfOk result (λ new. new ≡ map (renumbered_value (new_number_in numbers.now)) values.now) }
{
    let mut renumbered = Vec::with_capacity(alloc, values.len())?;
    for value in values {
        renumbered.extend_from_slice(&[renumbered_value(value, numbers)])?;
    }
    Ok(ImageValues::from_vec(renumbered))
}

/// The line of an object under new numbers.
fn renumbered_line(
    alloc: Global,
    line: &ObjectLine,
    numbers: &[usize],
) -> Result<ObjectLine, AllocError>
    ensures { IfOk result (λ new. new ≡ renumbered_line (new_number_in numbers.now) line.now) }
{
    match line {
        ObjectLine::Struct { ty, values } => Ok(ObjectLine::Struct {
            ty: *ty,
            values: renumbered_values(alloc, values.as_slice(), numbers)?,
        }),
        ObjectLine::Array { ty, values } => Ok(ObjectLine::Array {
            ty: *ty,
            values: renumbered_values(alloc, values.as_slice(), numbers)?,
        }),
        ObjectLine::Bytes { ty, bytes } => Ok(ObjectLine::Bytes {
            ty: *ty,
            bytes: ByteText::from_vec(Vec::from_slice(alloc, bytes.as_slice())?),
        }),
        ObjectLine::Host { number } => Ok(ObjectLine::Host { number: *number }),
        ObjectLine::Exn { ty, tag, values } => Ok(ObjectLine::Exn {
            ty: *ty,
            tag: *tag,
            values: renumbered_values(alloc, values.as_slice(), numbers)?,
        }),
    }
}

/// The objects in an order, under the numbers that it gives them.
pub(crate) fn renumbered_objects(
    alloc: Global,
    objects: &[ObjectLine],
    order: &[usize],
    numbers: &[usize],
) -> Result<Vec<ObjectLine>, AllocError>
    requires { (n old : ℕ) → slice_get order.now n ≡ Some old → old < length objects.now }
    ensures { IfOk result (λ lines. lines.items ≡ reordered (new_number_in numbers.now) objects.now order.now) }
{
    let mut lines = Vec::with_capacity(alloc, order.len())?;
    for old in order {
        lines.push(renumbered_line(alloc, &objects[*old], numbers)?)?;
    }
    Ok(lines)
}

/// The globals under new numbers.
pub(crate) fn renumbered_globals(
    alloc: Global,
    globals: &[GlobalLine],
    numbers: &[usize],
) -> Result<Vec<GlobalLine>, AllocError>
    ensures { IfOk result (λ lines. lines.items ≡ map (renumbered_global (new_number_in numbers.now)) globals.now) }
{
    let mut lines = Vec::with_capacity(alloc, globals.len())?;
    for global in globals {
        lines.extend_from_slice(&[GlobalLine {
            index: global.index,
            value: renumbered_value(&global.value, numbers),
        }])?;
    }
    Ok(lines)
}
