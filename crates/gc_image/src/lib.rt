//! The text of heap images.
//!
//! An image is the text of a store's types and of the objects that its globals reach: types, objects and
//! globals, one a line. `parse_image` reads one, `check_image` says whether bytes are one that is well. Its
//! definitions are in `specs/`: `Text` (how an image is spelled) and `Well` (when one is well).
#![tactic(auto)]

pub mod check;
mod declare;
mod fits;
mod globals;
pub mod image;
pub mod laws;
mod lines;
mod object_lines;
pub mod objects;
pub mod parse;
mod reach;
mod sections;
mod values;

pub use check::{check_image, is_image_well};
pub use fits::{is_early, is_stored};
pub use image::{GlobalLine, Image, ImageReference, ImageValue, ImageValues, ObjectLine};
pub use objects::{number_named, value_type, values_of};
pub use parse::parse_image;
