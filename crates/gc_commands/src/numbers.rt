//! Numbers as words: plain decimals without leading zeros, and with a minus sign in front where they are negative.
//!
//! A reader answers None exactly where the word spells no number in its range.

ghost use Rattle.std.specs.Prelude.{◌≤◌, ◌<◌, ◌^◌, ◌↔◌, FitsSigned, IsTrue};
ghost use Rattle.std.specs.Fmt.{decimal, signed_decimal};
ghost use Rattle.std.specs.Int.{w32, w64};
ghost use Rattle.gc_commands.specs.Reading.{IsPlain, Reads};
ghost use Rattle.gc_commands.specs.Spelling.{type_count};

use crate::words::behind;

/// The number that a word spells; None where it spells none that is at most `most`.
pub fn number(word: &[u8], most: u64) -> Option<u64>
    ensures { Reads (λ n. n ≤ most) decimal word.now result }
{
    if !is_plain(word) {
        return None;
    }
    let mut n: u64 = 0;
    for byte in word {
        if !byte.is_ascii_digit() {
            return None;
        }
        n = n.checked_mul(10)?.checked_add(u64::from(*byte - b'0'))?;
    }
    if n <= most { Some(n) } else { None }
}

/// The register that a word spells, from 0 to 65535.
#[inline(always)]
pub(crate) fn register_of(word: &[u8]) -> Option<u16>
    ensures { Reads (λ r. r < 2 ^ 16) decimal word.now result }
{
    let r = number(word, u64::from(u16::MAX))?;
    Some(r as u16)
}

/// The index of a type that a word spells, from 0 to 4294967294; None where it spells none.
#[inline(always)]
pub fn type_of(word: &[u8]) -> Option<u32>
    ensures { Reads (λ t. t < type_count) decimal word.now result }
{
    let t = number(word, u64::from(u32::MAX) - 1)?;
    Some(t as u32)
}

/// The signed number that a word spells; None where it spells none that fits 64 bits. Zero has no sign.
pub fn signed_number(word: &[u8]) -> Option<i64>
    ensures { Reads (FitsSigned w64) signed_decimal word.now result }
{
    let Some(digits) = behind(word, b"-") else {
        let n = number(word, i64::MAX as u64)?;
        return Some(n as i64);
    };
    let n = number(digits, 1 << 63)?;
    if n == 0 {
        None
    } else {
        Some(-i128::from(n) as i64)
    }
}

/// The signed number that a word spells; None where it spells none that fits 32 bits. Zero has no sign.
pub fn small_signed_number(word: &[u8]) -> Option<i32>
    ensures { Reads (FitsSigned w32) signed_decimal word.now result }
{
    i32::try_from(signed_number(word)?).ok()
}

/// Whether a word is `0`, or begins with another digit.
#[inline(always)]
fn is_plain(word: &[u8]) -> bool
    ensures { IsTrue result ↔ IsPlain word.now }
{
    match word {
        [b'0'] => true,
        [first, ..] => matches!(first, b'1'..=b'9'),
        [] => false,
    }
}
