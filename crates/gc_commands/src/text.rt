//! Writes the reply to a command.

ghost use Rattle.std.specs.Prelude.{◌≡◌, ℕ, List, ◌++◌, ◌≤◌, codes, IfOk, IfSome, OnOk, string_bytes};
ghost use Rattle.gc_commands.specs.Text.{refusal_text, text_of, reply_value_text};
ghost use Rattle.gc_commands.specs.Words.{bytes_text, hex_digits};

use crate::hex::{push_bytes, push_hex};
use crate::reply::{Refusal, Reply, ReplyValue};
use std::alloc::{AllocError, Global};

/// The line of the reply of a command that was done and tells nothing, its line feed included.
pub const DONE_LINE: &str = "ok\n";

/// The text of a reply, without its line feed.
pub fn reply_text(alloc: Global, reply: &Reply) -> Result<String, AllocError>
    ensures { IfOk result (λ text. string_bytes text ≡ text_of reply.now) }
{
    let mut text = String::new(alloc);
    push_reply(&mut text, reply)?;
    Ok(text)
}

/// Appends the text of a reply, without its line feed, to a text whose room may be used again.
pub fn push_reply(text: &mut String, reply: &Reply) -> Result<(), AllocError>
    ensures { OnOk result (string_bytes text.new ≡ string_bytes text.old ++ text_of reply.now) }
{
    match reply {
        Reply::Done => text.push_str("ok"),
        Reply::Declared(t) => write!(text, "type {t}"),
        Reply::Value(value) => push_value(text, value),
        Reply::Length(n) => write!(text, "len {n}"),
        Reply::HostNumber(n) => write!(text, "data {n}"),
        Reply::Same(same) => text.push_str(if *same { "true" } else { "false" }),
        Reply::Held { objects, hosts } => write!(text, "held {objects} {hosts}"),
        Reply::Capacity(n) => write!(text, "cap {n}"),
        Reply::Increments(n) => write!(text, "increments {n}"),
        Reply::Bytes(bytes) => push_byte_text(text, bytes.as_slice()),
        Reply::Refused(refusal) => text.push_str(without_feed(refusal_line(*refusal))),
    }
}

/// The line of a reply that tells no value, number or bytes, its line feed included: it takes no buffer to write it.
/// None for other replies.
#[inline(always)]
pub fn fixed_line(reply: &Reply) -> Option<&'static str>
    ensures { IfSome result (λ line. line.now ≡ text_of reply.now ++ codes "\n") }
{
    match reply {
        Reply::Done => Some(DONE_LINE),
        Reply::Same(true) => Some("true\n"),
        Reply::Same(false) => Some("false\n"),
        Reply::Refused(refusal) => Some(refusal_line(*refusal)),
        _ => None,
    }
}

/// A line without its line feed.
fn without_feed(line: &str) -> &str
    ensures { (front : List ℕ) → line.now ≡ front ++ codes "\n" → result.now ≡ front }
{
    match line.strip_suffix('\n') {
        Some(front) => front,
        None => line,
    }
}

/// Appends the text of a value.
fn push_value(text: &mut String, value: &ReplyValue) -> Result<(), AllocError>
    ensures { OnOk result (string_bytes text.new ≡ string_bytes text.old ++ reply_value_text value.now) }
{
    match value {
        ReplyValue::I32(n) => write!(text, "i32 {n}"),
        ReplyValue::I64(n) => write!(text, "i64 {n}"),
        ReplyValue::F32(bits) => push_digits(text, "f32 ", u128::from(*bits), 8),
        ReplyValue::F64(bits) => push_digits(text, "f64 ", u128::from(*bits), 16),
        ReplyValue::V128(bits) => push_digits(text, "v128 ", bits.as_u128(), 32),
        ReplyValue::Null => text.push_str("null"),
        ReplyValue::I31(n) => write!(text, "i31 {n}"),
        ReplyValue::Struct(t) => write!(text, "struct {t}"),
        ReplyValue::Array(t) => write!(text, "array {t}"),
        ReplyValue::Host => text.push_str("host"),
        ReplyValue::Exn(t, tag) => write!(text, "exn {t} {tag}"),
        ReplyValue::Opaque => text.push_str("opaque"),
    }
}

/// The name of a refusal, with a line feed behind it: the line of its reply.
pub fn refusal_line(refusal: Refusal) -> &'static str
    ensures { result.now ≡ refusal_text refusal ++ codes "\n" }
{
    match refusal {
        Refusal::BadLine => "BadLine\n",
        Refusal::NoSuchName => "NoSuchName\n",
        Refusal::Unrooted => "Unrooted\n",
        Refusal::WrongKind => "WrongKind\n",
        Refusal::BadType => "BadType\n",
        Refusal::FieldCount => "FieldCount\n",
        Refusal::TypeMismatch => "TypeMismatch\n",
        Refusal::OutOfBounds => "OutOfBounds\n",
        Refusal::Immutable => "Immutable\n",
        Refusal::NotI8Array => "NotI8Array\n",
        Refusal::LengthMismatch => "LengthMismatch\n",
        Refusal::TooLarge => "TooLarge\n",
        Refusal::RootsFull => "RootsFull\n",
        Refusal::GcHeapOutOfMemory => "GcHeapOutOfMemory\n",
        Refusal::GcHeapGrowthFailed => "GcHeapGrowthFailed\n",
        Refusal::ThrownException => "ThrownException\n",
    }
}

/// Appends the text of bytes that were read.
fn push_byte_text(text: &mut String, bytes: &[u8]) -> Result<(), AllocError>
    ensures { OnOk result (string_bytes text.new ≡ string_bytes text.old ++ (codes "bytes " ++ bytes_text bytes.now)) }
{
    text.push_str("bytes ")?;
    push_bytes(text, bytes)
}

/// Appends a front, and so many hexadecimal digits of a number behind it.
fn push_digits(text: &mut String, front: &str, number: u128, digits: u32) -> Result<(), AllocError>
    requires { digits ≤ 32 }
    ensures { OnOk result (string_bytes text.new ≡ string_bytes text.old ++ (front.now ++ hex_digits digits number)) }
{
    text.push_str(front)?;
    push_hex(text, number, digits)
}
