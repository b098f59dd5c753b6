//! Writes the lines of objects and globals.

ghost use Rattle.std.specs.Prelude.{◌≡◌, ◌++◌, ◌∷◌, ◌≤◌, OnOk, List, codes, string_bytes};
ghost use Rattle.std.specs.Fmt.{decimal};
ghost use Rattle.gc_commands.specs.Words.{hex_digits};
ghost use Rattle.gc_image.specs.Text.{class_text, global_text, object_text, reference_text, value_text};
ghost use Rattle.gc_image_write.specs.Writing.{spaced_texts};

use gc_commands::{push_bytes, push_hex};
use gc_image::{GlobalLine, ImageReference, ImageValue, ObjectLine};
use gc_owner::GcClass;
use std::alloc::AllocError;

/// Appends the line of an object, without its line feed.
pub(crate) fn push_object(text: &mut String, object: &ObjectLine) -> Result<(), AllocError>
    ensures { OnOk result (string_bytes text.new ≡ string_bytes text.old ++ object_text object.now) }
{
    match object {
        ObjectLine::Struct { ty, values } => {
            write!(text, "s {ty}")?;
            push_values(text, values.as_slice())
        }
        ObjectLine::Array { ty, values } => {
            write!(text, "a {ty}")?;
            push_values(text, values.as_slice())
        }
        ObjectLine::Bytes { ty, bytes } => {
            write!(text, "b {ty} ")?;
            push_bytes(text, bytes.as_slice())
        }
        ObjectLine::Host { number } => write!(text, "h {number}"),
        ObjectLine::Exn { ty, tag, values } => {
            write!(text, "e {ty} {} {}", tag.instance, tag.index)?;
            push_values(text, values.as_slice())
        }
    }
}

/// Appends the line of a global, without its line feed.
pub(crate) fn push_global(text: &mut String, global: &GlobalLine) -> Result<(), AllocError>
    ensures { OnOk result (string_bytes text.new ≡ string_bytes text.old ++ global_text global.now) }
{
    write!(text, "global {} ", global.index)?;
    push_value(text, &global.value)
}

/// Appends values with a space in front of each.
fn push_values(text: &mut String, values: &[ImageValue]) -> Result<(), AllocError>
    ensures { OnOk result (string_bytes text.new ≡ string_bytes text.old ++ spaced_texts value_text values.now) }
{
    for value in values {
        text.push(' ')?;
        push_value(text, value)?;
    }
    Ok(())
}

/// Appends a value.
fn push_value(text: &mut String, value: &ImageValue) -> Result<(), AllocError>
    ensures { OnOk result (string_bytes text.new ≡ string_bytes text.old ++ value_text value.now) }
{
    match value {
        ImageValue::I32(n) => write!(text, "i32:{n}"),
        ImageValue::I64(n) => write!(text, "i64:{n}"),
        ImageValue::F32(bits) => push_digits(text, "f32", u128::from(*bits), 8),
        ImageValue::F64(bits) => push_digits(text, "f64", u128::from(*bits), 16),
        ImageValue::V128(bits) => push_digits(text, "v128", bits.as_u128(), 32),
        ImageValue::Ref(class, reference) => {
            text.push_str(name_of(*class))?;
            push_reference(text, reference)
        }
    }
}

/// Appends a name, a colon, and so many hexadecimal digits of a number.
fn push_digits(text: &mut String, name: &str, number: u128, digits: u32) -> Result<(), AllocError>
    requires { digits ≤ 32 }
    ensures { OnOk result (string_bytes text.new ≡ string_bytes text.old ++ (name.now ++ 58 ∷ hex_digits digits number)) }
{
    text.push_str(name)?;
    text.push(':')?;
    push_hex(text, number, digits)
}

/// The name of a class and its colon.
fn name_of(class: GcClass) -> &'static str
    ensures { result.now ≡ class_text class ++ codes ":" }
{
    match class {
        GcClass::Any => "any:",
        GcClass::Extern => "extern:",
        GcClass::Exn => "exn:",
    }
}

/// Appends what stands behind the colon of a reference.
fn push_reference(text: &mut String, reference: &ImageReference) -> Result<(), AllocError>
    ensures { OnOk result (string_bytes text.new ≡ string_bytes text.old ++ reference_text reference.now) }
{
    match reference {
        ImageReference::Null => text.push_str("null"),
        ImageReference::Small(n) => write!(text, "i31:{n}"),
        ImageReference::Object(number) => write!(text, "#{number}"),
    }
}
