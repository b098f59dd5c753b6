//! Whether bytes are an image that is well.

ghost use Rattle.std.specs.Prelude.{◌↔◌, IsTrue, IfOk};
ghost use Rattle.gc_image.specs.Well.{IsWell, IsWellImage};

use crate::declare::types_of;
use crate::globals::{are_globals_well, are_rising};
use crate::image::Image;
use crate::objects::are_objects_well;
use crate::parse::parse_image;
use crate::reach::are_reached;
use std::alloc::{AllocError, Global};

/// Whether bytes are the text of an image that is well: its types may be declared in turn; its objects' values fit
/// them; what an object must have from the start has a lower number; the globals, by rising index, hold references,
/// and reach every object. Takes memory for the image and its types.
pub fn check_image(alloc: Global, bytes: &[u8]) -> Result<bool, AllocError>
    ensures { IfOk result (λ is_well. IsTrue is_well ↔ IsWell bytes.now) }
{
    match parse_image(alloc, bytes)? {
        Some(image) => is_image_well(alloc, &image),
        None => Ok(false),
    }
}

/// Whether an image is well, as `check_image` says of its text. Takes memory for its types, and a mark and a number for each object.
pub fn is_image_well(alloc: Global, image: &Image) -> Result<bool, AllocError>
    ensures { IfOk result (λ is_well. IsTrue is_well ↔ IsWellImage image.now) }
{
    let Some(types) = types_of(alloc, image.types())? else {
        return Ok(false);
    };
    let objects = image.objects();
    let globals = image.globals();
    if !are_objects_well(&types, objects) {
        return Ok(false);
    }
    if !are_globals_well(globals, objects.len()) {
        return Ok(false);
    }
    if !are_rising(globals) {
        return Ok(false);
    }
    are_reached(alloc, objects, globals)
}
