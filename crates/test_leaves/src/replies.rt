//! The texts of replies.

use crate::answers::{Answers, answer_rows};
use crate::fault::CaseFault;
use crate::numbers::{bytes_of, low_u32, low_u64};
use gc_commands::{ByteText, Refusal, Reply, ReplyValue, reply_text};
use gc_refs::V128;
use std::alloc::{AllocError, Global};

/// Each refusal, in the order of the list in the crate.
const REFUSALS: [Refusal; 16] = [
    Refusal::BadLine,
    Refusal::NoSuchName,
    Refusal::Unrooted,
    Refusal::WrongKind,
    Refusal::BadType,
    Refusal::FieldCount,
    Refusal::TypeMismatch,
    Refusal::OutOfBounds,
    Refusal::Immutable,
    Refusal::NotI8Array,
    Refusal::LengthMismatch,
    Refusal::TooLarge,
    Refusal::RootsFull,
    Refusal::GcHeapOutOfMemory,
    Refusal::GcHeapGrowthFailed,
    Refusal::ThrownException,
];

/// Replies, of which nothing is kept.
#[derive(Drop)]
struct Replies {
    alloc: Global,
}

/// Adds each row on replies with its answer.
pub(crate) fn answer(alloc: Global, rows: &str, out: &mut String) -> Result<(), AllocError> {
    answer_rows(alloc, &mut Replies { alloc }, rows, out)
}

impl Answers for Replies {
    fn answer(
        &mut self,
        name: &str,
        _words: &[&str],
        numbers: &[u128],
        out: &mut String,
    ) -> Result<(), CaseFault> {
        match name {
            "refusals" => Ok(show_refusals(self.alloc, out)?),
            "bytes" => Ok(show_bytes(self.alloc, numbers, out)?),
            _ => match reply_of(name, numbers) {
                Some(reply) => Ok(show(self.alloc, &reply, out)?),
                None => Err(CaseFault::NoCase),
            },
        }
    }
}

/// Writes the text of a reply.
fn show(alloc: Global, reply: &Reply, out: &mut String) -> Result<(), AllocError> {
    let text = reply_text(alloc, reply)?;
    out.push_str(text.as_str())
}

/// Writes the text of each refusal.
fn show_refusals(alloc: Global, out: &mut String) -> Result<(), AllocError> {
    write!(out, "{}", REFUSALS.len())?;
    for refusal in REFUSALS {
        out.push_str(" ")?;
        show(alloc, &Reply::Refused(refusal), out)?;
    }
    Ok(())
}

/// Writes the text of bytes.
fn show_bytes(alloc: Global, numbers: &[u128], out: &mut String) -> Result<(), AllocError> {
    let bytes = bytes_of(alloc, numbers)?;
    show(alloc, &Reply::Bytes(ByteText::from_vec(bytes)), out)
}

/// The reply of that name, or the value of that type.
fn reply_of(name: &str, numbers: &[u128]) -> Option<Reply> {
    match (name, numbers) {
        ("done", []) => Some(Reply::Done),
        ("declared", [number]) => Some(Reply::Declared(low_u32(*number))),
        ("length", [number]) => Some(Reply::Length(low_u32(*number))),
        ("data", [number]) => Some(Reply::HostNumber(low_u64(*number))),
        ("same", [number]) => Some(Reply::Same(*number == 1)),
        ("held", [objects, hosts]) => Some(Reply::Held {
            objects: low_u64(*objects),
            hosts: low_u64(*hosts),
        }),
        ("capacity", [number]) => Some(Reply::Capacity(low_u64(*number))),
        ("increments", [number]) => Some(Reply::Increments(low_u64(*number))),
        _ => value_of(name, numbers).map(|value| Reply::Value(value)),
    }
}

/// The value of that type.
fn value_of(ty: &str, numbers: &[u128]) -> Option<ReplyValue> {
    match (ty, numbers) {
        ("null", []) => Some(ReplyValue::Null),
        ("host", []) => Some(ReplyValue::Host),
        ("opaque", []) => Some(ReplyValue::Opaque),
        ("exn", [number, tag]) => Some(ReplyValue::Exn(low_u32(*number), low_u32(*tag))),
        (_, [number]) => number_of(ty, *number),
        _ => None,
    }
}

/// The value of that type that a number tells.
fn number_of(ty: &str, number: u128) -> Option<ReplyValue> {
    match ty {
        "i32" => Some(ReplyValue::I32(low_u32(number).cast_signed())),
        "i64" => Some(ReplyValue::I64(low_u64(number).cast_signed())),
        "f32" => Some(ReplyValue::F32(low_u32(number))),
        "f64" => Some(ReplyValue::F64(low_u64(number))),
        "v128" => Some(ReplyValue::V128(V128::from(number))),
        "i31" => Some(ReplyValue::I31(low_u32(number))),
        "struct" => Some(ReplyValue::Struct(low_u32(number))),
        "array" => Some(ReplyValue::Array(low_u32(number))),
        _ => None,
    }
}
