//! Words that spell values.

ghost use Rattle.gc_commands.specs.Reading.{Reads};
ghost use Rattle.gc_image.specs.Text.{FitsImageReference, FitsImageValue, reference_text, value_text};

use crate::image::{ImageReference, ImageValue};
use gc_commands::hex::hex_number;
use gc_commands::numbers::{number, signed_number, small_signed_number};
use gc_commands::words::behind;
use gc_owner::GcClass;
use gc_refs::V128;

/// The greatest small integer.
const MAX_SMALL: u64 = 2_147_483_647;

/// The value that a word spells.
pub(crate) fn value_of(word: &[u8]) -> Option<ImageValue>
    ensures { Reads FitsImageValue value_text word.now result }
{
    if let Some(digits) = behind(word, b"i32:") {
        return Some(ImageValue::I32(small_signed_number(digits)?));
    }
    if let Some(digits) = behind(word, b"i64:") {
        return Some(ImageValue::I64(signed_number(digits)?));
    }
    if let Some(digits) = behind(word, b"f32:") {
        return Some(ImageValue::F32(hex_number(digits, 8)? as u32));
    }
    if let Some(digits) = behind(word, b"f64:") {
        return Some(ImageValue::F64(hex_number(digits, 16)? as u64));
    }
    if let Some(digits) = behind(word, b"v128:") {
        return Some(ImageValue::V128(V128::from(hex_number(digits, 32)?)));
    }
    if let Some(text) = behind(word, b"any:") {
        return Some(ImageValue::Ref(GcClass::Any, reference_of(text)?));
    }
    if let Some(text) = behind(word, b"extern:") {
        return Some(ImageValue::Ref(GcClass::Extern, reference_of(text)?));
    }
    let text = behind(word, b"exn:")?;
    Some(ImageValue::Ref(GcClass::Exn, reference_of(text)?))
}

/// The reference that the text behind a class and its colon spells.
fn reference_of(text: &[u8]) -> Option<ImageReference>
    ensures { Reads FitsImageReference reference_text text.now result }
{
    if let Some(digits) = behind(text, b"i31:") {
        return Some(ImageReference::Small(number(digits, MAX_SMALL)? as u32));
    }
    if let Some(digits) = behind(text, b"#") {
        return Some(ImageReference::Object(number(digits, u64::MAX)? as usize));
    }
    match text {
        b"null" => Some(ImageReference::Null),
        _ => None,
    }
}
