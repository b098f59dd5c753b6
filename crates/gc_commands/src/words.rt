//! The words of a line, one after the other: of a command's line, and of any line of words with one space between two.

ghost use Rattle.std.specs.Prelude.{◌≡◌, ◌==◌, ℕ, ◌<◌, ◌^◌, List, [], ◌∷◌, ◌++◌, MatchOption, length, position};
ghost use Rattle.std.specs.List.{count_by, slice_split};
ghost use Rattle.std.specs.Option.{option_map_or};

use std::marker::Model;

/// The words of a line that are still to be read. A space more than one between two words, before
/// the first or after the last makes an empty word.
#[derive(Drop)]
pub struct Words<'a> {
    rest: Option<&'a [u8]>,
}

impl<'a> Model for Words<'a> {
    ghost use Rattle.std.specs.Prelude.{◌==◌, ℕ, List, []};
    ghost use Rattle.std.specs.List.{slice_split};
    ghost use Rattle.std.specs.Option.{option_map_or};

    ghost Value = { List (List ℕ) };

    ghost view = { λ w. option_map_or (λ rest. slice_split (λ b. b == 32) rest.now) w.rest [] };
}

impl<'a> Words<'a> {
    /// The words of a line.
    pub fn of(line: &'a [u8]) -> Words<'a>
        ensures { result ≡ slice_split (λ b. b == 32) line.now }
    {
        Words { rest: Some(line) }
    }

    /// The words of what stands behind a line's first space; none where it has no space.
    #[inline(always)]
    pub(crate) fn behind_name(rest: Option<&'a [u8]>) -> Words<'a>
        ensures { result ≡ option_map_or (λ line. slice_split (λ b. b == 32) line.now) rest.entry [] }
    {
        Words { rest }
    }

    /// Takes the next word; None where none is left.
    pub fn next(&mut self) -> Option<&'a [u8]>
        ensures { MatchOption result ((self.old ≡ []) × (self.new ≡ [])) (λ word. self.old ≡ word.now ∷ self.new) }
    {
        let (word, rest) = cut_word(self.rest?);
        self.rest = rest;
        Some(word)
    }

    /// How many words are left.
    pub fn count(&self) -> usize
        ensures { result ≡ length self.now }
    {
        match self.rest {
            Some(rest) => count_spaces(rest) + 1,
            None => 0,
        }
    }

    /// The same words, to look at without taking them.
    pub fn ahead(&self) -> Words<'a>
        ensures { result ≡ self.now }
    {
        Words { rest: self.rest }
    }
}

/// The first word of a line, and what stands behind the space that ends it; None where no space does.
#[inline(always)]
fn cut_word(line: &[u8]) -> (&[u8], Option<&[u8]>)
    ensures { slice_split (λ b. b == 32) line.now ≡ result.0.now ∷ option_map_or (λ rest. slice_split (λ b. b == 32) rest.now) result.1 [] }
{
    match first_space(line) {
        Some(at) => (&line[..at], Some(&line[at + 1..])),
        None => (line, None),
    }
}

/// What stands behind a front; None where the word does not begin with it.
#[inline(always)]
pub fn behind<'a>(word: &'a [u8], front: &[u8]) -> Option<&'a [u8]>
    ensures { MatchOption result ((rest : List ℕ) → ¬ (word.now ≡ front.now ++ rest)) (λ rest. word.now ≡ front.now ++ rest.now) }
{
    word.strip_prefix(front)
}

/// Where the first space stands.
#[inline(always)]
pub(crate) fn first_space(bytes: &[u8]) -> Option<usize>
    ensures { result ≡ position (λ b. b == 32) bytes.now }
{
    bytes.iter().position(|byte| *byte == b' ')
}

/// How many spaces there are, which is fewer than `usize` has values.
fn count_spaces(bytes: &[u8]) -> usize
    ensures count { result ≡ count_by (λ b. b == 32) bytes.now }
    ensures bound { result < 2 ^ 63 }
{
    bytes.iter().filter(|byte| **byte == b' ').count()
}
