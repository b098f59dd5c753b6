//! Numbers as bytes, and raw values.

ghost use Rattle.std.specs.Prelude.{◌≤◌};

use crate::answers::{Answers, answer_rows};
use crate::fault::CaseFault;
use crate::numbers::{low_u8, low_u16, low_u32, low_u64};
use gc_refs::{PodValType, V128, ValRaw};
use std::alloc::{AllocError, Global};

/// Values, of which nothing is kept.
#[derive(Drop)]
struct Values;

/// Adds each row on values with its answer.
pub(crate) fn answer(alloc: Global, rows: &str, out: &mut String) -> Result<(), AllocError> {
    answer_rows(alloc, &mut Values, rows, out)
}

impl Answers for Values {
    fn answer(
        &mut self,
        name: &str,
        words: &[&str],
        numbers: &[u128],
        out: &mut String,
    ) -> Result<(), CaseFault> {
        match (name, words, numbers) {
            ("bytes", [width], [number]) => Ok(show_bytes(width, *number, out)?),
            ("raw", [ty], [number]) => Ok(show_raw(&raw_of(ty, *number), out)?),
            _ => Err(CaseFault::NoCase),
        }
    }
}

/// Writes the bytes of a number of that width, and whether it is read back.
fn show_bytes(width: &str, number: u128, out: &mut String) -> Result<(), AllocError> {
    match width {
        "u8" => show_pod::<1, u8>(low_u8(number), out),
        "u16" => show_pod::<2, u16>(low_u16(number), out),
        "u32" => show_pod::<4, u32>(low_u32(number), out),
        "u64" => show_pod::<8, u64>(low_u64(number), out),
        "i8" => show_pod::<1, i8>(low_u8(number).cast_signed(), out),
        "i16" => show_pod::<2, i16>(low_u16(number).cast_signed(), out),
        "i32" => show_pod::<4, i32>(low_u32(number).cast_signed(), out),
        "i64" => show_pod::<8, i64>(low_u64(number).cast_signed(), out),
        _ => show_pod::<16, V128>(V128::from(number), out),
    }
}

/// The same, through the bound.
fn show_pod<const N: usize, T: PodValType<N> + PartialEq>(
    number: T,
    out: &mut String,
) -> Result<(), AllocError>
    requires { N ≤ 16 }
{
    let mut into = [0; N];
    number.write_le(&mut into);
    write!(out, "{:?} {}", into.as_slice(), T::read_le(&into) == number)
}

/// The raw value that a number of that type is.
fn raw_of(ty: &str, number: u128) -> ValRaw {
    match ty {
        "i32" => ValRaw::i32(low_u32(number).cast_signed()),
        "i64" => ValRaw::i64(low_u64(number).cast_signed()),
        "f32" => ValRaw::f32(low_u32(number)),
        "f64" => ValRaw::f64(low_u64(number)),
        "func" => ValRaw::funcref(low_u64(number)),
        "extern" => ValRaw::externref(low_u32(number)),
        "any" => ValRaw::anyref(low_u32(number)),
        "exn" => ValRaw::exnref(low_u32(number)),
        _ => ValRaw::v128(number),
    }
}

/// Writes what each getter reads.
fn show_raw(raw: &ValRaw, out: &mut String) -> Result<(), AllocError> {
    let (of_i32, of_i64) = (raw.get_i32(), raw.get_i64());
    let (of_f32, of_f64) = (raw.get_f32(), raw.get_f64());
    let (of_v128, func) = (raw.get_v128(), raw.get_funcref());
    write!(
        out,
        "i32 {of_i32} i64 {of_i64} f32 {of_f32} f64 {of_f64} v128 {of_v128} func {func}"
    )?;
    let (external, any, exn) = (raw.get_externref(), raw.get_anyref(), raw.get_exnref());
    write!(out, " extern {external} any {any} exn {exn}")
}
