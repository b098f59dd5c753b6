//! The free runs, one by one.

use crate::run::Run;
use std::marker::Model;

/// Each free run as its place and its length, by rising place with the current run last.
#[derive(Drop)]
pub struct FreeBlocks<'a> {
    others: &'a [Run],
    current: Option<Run>,
}

impl<'a> Model for FreeBlocks<'a> {
    ghost use Rattle.std.specs.Prelude.{ℕ, List, map};
    ghost use Rattle.gc_free.specs.Listed.{pair_of, pairs_code, with_last};

    ghost Value = { List (ℕ × ℕ) };

    ghost coded = { pairs_code };

    ghost view = { λ s. map pair_of (with_last s.others.now s.current) };
}

impl<'a> FreeBlocks<'a> {
    ghost use Rattle.std.specs.Prelude.{◌≡◌, map};
    ghost use Rattle.gc_free.specs.Listed.{pair_of, with_last};

    pub(crate) fn new(others: &'a [Run], current: Option<Run>) -> FreeBlocks<'a>
        ensures { result ≡ map pair_of (with_last others.now current) }
    {
        FreeBlocks { others, current }
    }
}

impl<'a> Iterator for FreeBlocks<'a> {
    type Item = (u32, u32);

    ghost use Rattle.std.specs.Iterator.{YieldsFirst, item_count};

    ghost next_gives = { YieldsFirst (λ s. s) };

    ghost remaining = { item_count (λ s. s) };

    fn next(&mut self) -> Option<(u32, u32)> {
        if let Some((first, others)) = self.others.split_first() {
            self.others = others;
            return Some((first.place, first.length));
        }
        let run = self.current.take()?;
        Some((run.place, run.length))
    }
}
