//! Hexadecimal digits in lower case: numbers of a width, and bytes. Read and written alike in commands, in replies and in
//! the texts of other crates.

ghost use Rattle.std.specs.Prelude.{◌≡◌, ◌<◌, ◌≤◌, ◌^◌, [], ◌∷◌, ◌++◌, IfOk, OnOk, string_bytes};
ghost use Rattle.std.specs.List.{AllByRecursion, flat_map};
ghost use Rattle.std.specs.Option.{option_map};
ghost use Rattle.gc_commands.specs.Reading.{Reads};
ghost use Rattle.gc_commands.specs.Words.{byte_text, bytes_text, hex_digit, hex_digits};

use std::alloc::{AllocError, Global};

/// The number that a word of so many digits spells, highest first, at most 32 of them; None where the word has another
/// length, or what is no digit in lower case.
pub fn hex_number(word: &[u8], digits: usize) -> Option<u128>
    requires { digits ≤ 32 }
    ensures { Reads (λ n. n < 16 ^ digits) (hex_digits digits) word.now result }
{
    if word.len() != digits {
        return None;
    }
    let mut number: u128 = 0;
    for digit in word {
        let value = hex_value(*digit)?;
        number = number * 16 + u128::from(value);
    }
    Some(number)
}

/// The bytes that a word spells: pairs of digits, or a dash for no bytes; None where it spells none. Takes memory for the
/// bytes, and time linear in the word.
pub fn bytes_of(alloc: Global, word: &[u8]) -> Result<Option<Vec<u8>>, AllocError>
    ensures { IfOk result (λ bytes. Reads (AllByRecursion (λ b. b < 2 ^ 8)) bytes_text word.now (option_map (λ bs. bs.items) bytes)) }
{
    match word {
        b"-" => Ok(Some(Vec::new(alloc))),
        b"" => Ok(None),
        _ => pairs_of(alloc, word),
    }
}

/// The bytes that pairs of digits spell.
fn pairs_of(alloc: Global, digits: &[u8]) -> Result<Option<Vec<u8>>, AllocError>
    ensures { IfOk result (λ bytes. Reads (AllByRecursion (λ b. b < 2 ^ 8)) (flat_map byte_text) digits.now (option_map (λ bs. bs.items) bytes)) }
{
    let mut bytes = Vec::with_capacity(alloc, digits.len() / 2)?;
    let mut rest = digits;
    while let [high, low, behind @ ..] = rest {
        let Some(byte) = byte_of(*high, *low) else {
            return Ok(None);
        };
        bytes.push(byte)?;
        rest = behind;
    }
    if rest.is_empty() {
        Ok(Some(bytes))
    } else {
        Ok(None)
    }
}

/// The byte that two digits spell.
fn byte_of(high: u8, low: u8) -> Option<u8>
    ensures { Reads (λ b. b < 2 ^ 8) byte_text (high ∷ low ∷ []) result }
{
    let high = hex_value(high)?;
    let low = hex_value(low)?;
    Some(high * 16 + low)
}

/// The value of a digit.
fn hex_value(digit: u8) -> Option<u8>
    ensures { Reads (λ d. d < 16) hex_digit digit result }
{
    match digit {
        b'0'..=b'9' => Some(digit - b'0'),
        b'a'..=b'f' => Some(digit - b'a' + 10),
        _ => None,
    }
}

/// Appends the text of bytes: pairs of digits, or a dash for no bytes. Takes time linear in the bytes.
pub fn push_bytes(text: &mut String, bytes: &[u8]) -> Result<(), AllocError>
    ensures { OnOk result (string_bytes text.new ≡ string_bytes text.old ++ bytes_text bytes.now) }
{
    if bytes.is_empty() {
        return text.push_str("-");
    }
    for byte in bytes {
        push_hex(text, u128::from(*byte), 2)?;
    }
    Ok(())
}

/// Appends so many hexadecimal digits of a number, highest first, at most 32 of them.
pub fn push_hex(text: &mut String, number: u128, digits: u32) -> Result<(), AllocError>
    requires { digits ≤ 32 }
    ensures { OnOk result (string_bytes text.new ≡ string_bytes text.old ++ hex_digits digits number) }
{
    for place in (0..digits).rev() {
        text.push(hex_digit_of(((number >> (4 * place)) % 16) as u32))?;
    }
    Ok(())
}

/// A digit from 0 to 15, in lower case.
fn hex_digit_of(digit: u32) -> char
    requires { digit < 16 }
    ensures { result ≡ hex_digit digit }
{
    match char::from_digit(digit, 16) {
        Some(glyph) => glyph,
        None => unreachable!(),
    }
}
