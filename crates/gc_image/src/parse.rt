//! Reads an image.

ghost use Rattle.std.specs.Prelude.{◌≡◌, IfOk};
ghost use Rattle.gc_commands.specs.Reading.{Reads};
ghost use Rattle.gc_image.specs.Parts.{ImageParts};
ghost use Rattle.gc_image.specs.Reading.{ended_lines};
ghost use Rattle.gc_image.specs.Text.{FitsImage, image_text};

use crate::image::Image;
use crate::lines::Lines;
use crate::sections::{read_count, read_globals, read_head, read_objects, read_types};
use std::alloc::{AllocError, Global};

/// The image that bytes spell; None where they spell none. It need not be well. Takes time linear in the
/// bytes, and memory for its parts.
pub fn parse_image(alloc: Global, bytes: &[u8]) -> Result<Option<Image>, AllocError>
    ensures { IfOk result (λ image. Reads FitsImage image_text bytes.now image) }
{
    read_image(alloc, &mut Lines::of(bytes))
}

/// The image that the lines spell.
fn read_image(alloc: Global, lines: &mut Lines) -> Result<Option<Image>, AllocError>
    ensures { IfOk result (λ image. Reads FitsImage ended_lines lines.old image) }
{
    if !read_head(lines) {
        return Ok(None);
    }
    let types = read_types(alloc, lines)?;
    let Some(count) = read_count(lines) else {
        return Ok(None);
    };
    let Some(objects) = read_objects(alloc, count, lines)? else {
        return Ok(None);
    };
    let Some(globals) = read_globals(alloc, lines)? else {
        return Ok(None);
    };
    Ok(Some(Image::new(types, objects, globals)))
}

/// No two images have one spelling.
pub fn image_spelling_is_unique()
    ensures { (one other : ImageParts) → FitsImage one → FitsImage other → image_text one ≡ image_text other → one ≡ other }
{}
