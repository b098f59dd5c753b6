//! Writes the text of an image.

ghost use Rattle.std.specs.Prelude.{◌≡◌, ◌++◌, IfOk, OnOk, string_bytes};
ghost use Rattle.std.specs.List.{AllByRecursion};
ghost use Rattle.gc_commands.specs.Spelling.{spelling};
ghost use Rattle.gc_commands.specs.Spelling.{IsDeclaring};
ghost use Rattle.gc_image.specs.Text.{count_text, ended_line, global_text, image_text, object_text};
ghost use Rattle.gc_image_write.specs.Writing.{lines_of};

use crate::objects::{push_global, push_object};
use gc_commands::{Command, push_declaration};
use gc_image::{GlobalLine, Image, ObjectLine};
use std::alloc::{AllocError, Global};

/// The text of an image, whose types are commands that declare one each. Takes time and memory linear in the text.
pub fn write_image(alloc: Global, image: &Image) -> Result<Vec<u8>, AllocError>
    requires { AllByRecursion IsDeclaring image.now.types }
    ensures { IfOk result (λ bytes. bytes.items ≡ image_text image.now) }
{
    let mut text = String::new(alloc);
    text.push_str("image 1\n")?;
    push_types(&mut text, image.types())?;
    push_count(&mut text, image.objects().len())?;
    push_objects(&mut text, image.objects())?;
    push_globals(&mut text, image.globals())?;
    Ok(text.into_bytes())
}

/// Appends the line that says how many objects follow.
fn push_count(text: &mut String, count: usize) -> Result<(), AllocError>
    ensures { OnOk result (string_bytes text.new ≡ string_bytes text.old ++ ended_line (count_text count)) }
{
    write!(text, "objects {count}\n")
}

/// Appends a line for each type.
fn push_types(text: &mut String, types: &[Command]) -> Result<(), AllocError>
    requires { AllByRecursion IsDeclaring types.now }
    ensures { OnOk result (string_bytes text.new ≡ string_bytes text.old ++ lines_of spelling types.now) }
{
    for declared in types {
        push_declaration(text, declared)?;
        text.push('\n')?;
    }
    Ok(())
}

/// Appends a line for each object.
fn push_objects(text: &mut String, objects: &[ObjectLine]) -> Result<(), AllocError>
    ensures { OnOk result (string_bytes text.new ≡ string_bytes text.old ++ lines_of object_text objects.now) }
{
    for object in objects {
        push_object(text, object)?;
        text.push('\n')?;
    }
    Ok(())
}

/// Appends a line for each global.
fn push_globals(text: &mut String, globals: &[GlobalLine]) -> Result<(), AllocError>
    ensures { OnOk result (string_bytes text.new ≡ string_bytes text.old ++ lines_of global_text globals.now) }
{
    for global in globals {
        push_global(text, global)?;
        text.push('\n')?;
    }
    Ok(())
}
