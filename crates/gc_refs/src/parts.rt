//! Ranges of bytes whose first byte has an offset.

ghost use Rattle.std.specs.Prelude.{◌≡◌, ◌+◌, ◌-◌, ◌<◌, ◌≤◌, ◌^◌, length, MatchResult, OkIff};
ghost use Rattle.gc_refs.specs.Views.{IsInside, part_of, with_part, ReadsNumber, LendsPart, WritesPart, Copies};

use crate::fault::DataFault;
use crate::pod::PodValType;
use std::ops::Range;

/// Where the `count` bytes at an offset begin; `BadOffset` exactly where they aren't inside.
#[inline(always)]
pub(crate) fn place_of(
    first: u32,
    bytes: &[u8],
    offset: u32,
    count: usize,
) -> Result<usize, DataFault>
    ensures { OkIff result (IsInside first bytes.now offset count) (offset - first) }
{
    if offset < first {
        return Err(DataFault::BadOffset);
    }
    let place = (offset - first) as usize;
    let inside = place <= bytes.len() && count <= bytes.len() - place;
    if inside {
        Ok(place)
    } else {
        Err(DataFault::BadOffset)
    }
}

/// The `len` bytes at an offset.
#[inline(always)]
pub(crate) fn part(first: u32, bytes: &[u8], offset: u32, len: u32) -> Result<&[u8], DataFault>
    ensures { LendsPart first bytes.now offset len result }
{
    let count = len as usize;
    match place_of(first, bytes, offset, count) {
        Ok(place) => Ok(&bytes[place..place + count]),
        Err(fault) => Err(fault),
    }
}

/// The number at an offset.
#[inline(always)]
pub(crate) fn read_pod<const N: usize, T: PodValType<N>>(
    first: u32,
    bytes: &[u8],
    offset: u32,
) -> Result<T, DataFault>
    requires { N ≤ 16 }
    ensures { ReadsNumber N T.number_of first bytes.now offset result }
{
    match place_of(first, bytes, offset, N) {
        Ok(place) => Ok(T::read_le(bytes[place..].first_chunk().unwrap())),
        Err(fault) => Err(fault),
    }
}

/// Writes these bytes at an offset.
pub(crate) fn write_part(
    first: u32,
    bytes: &mut [u8],
    offset: u32,
    part: &[u8],
) -> Result<(), DataFault>
    ensures { WritesPart part.now first bytes.old bytes.new offset result }
{
    match place_of(first, bytes, offset, part.len()) {
        Ok(place) => {
            bytes[place..place + part.len()].copy_from_slice(part);
            Ok(())
        }
        Err(fault) => Err(fault),
    }
}

/// Writes a number at an offset.
pub(crate) fn write_pod<const N: usize, T: PodValType<N>>(
    first: u32,
    bytes: &mut [u8],
    offset: u32,
    value: T,
) -> Result<(), DataFault>
    requires { N ≤ 16 }
    ensures { WritesPart (T.bytes_of value) first bytes.old bytes.new offset result }
{
    let mut number = [0; N];
    value.write_le(&mut number);
    write_part(first, bytes, offset, &number)
}

/// Copies a range of the bytes to another place among them; the two may overlap.
pub(crate) fn copy_part(
    first: u32,
    bytes: &mut [u8],
    src: Range<u32>,
    dest: u32,
) -> Result<(), DataFault>
    ensures { Copies src.start src.end first bytes.old bytes.new dest result }
{
    if src.end < src.start {
        return Err(DataFault::BadOffset);
    }
    let count = (src.end - src.start) as usize;
    let Ok(start) = place_of(first, bytes, src.start, count) else {
        return Err(DataFault::BadOffset);
    };
    let Ok(place) = place_of(first, bytes, dest, count) else {
        return Err(DataFault::BadOffset);
    };
    bytes.copy_within(start..start + count, place);
    Ok(())
}
