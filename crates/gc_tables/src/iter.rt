//! The entries of a slab, one by one.

ghost use Rattle.std.specs.Prelude.{◌≡◌, ◌≤◌, length, map};
ghost use Rattle.gc_tables.specs.SideTables.{max_entries};
ghost use Rattle.gc_tables.specs.Slots.{value_of, numbered};

use crate::id::Id;
use crate::slab::Entry;
use std::marker::Model;

/// The entries that are left, each id with its value, by rising id.
#[derive(Drop)]
pub struct SlabIter<'a, T> {
    entries: &'a [Entry<T>],
    /// The id of the first of `entries`.
    first: u32,
}

impl<'a, T> Model for SlabIter<'a, T> {
    ghost use Rattle.std.specs.Prelude.{ℕ, List, ◌+◌, ◌≤◌, length, map};

    ghost Value = { List (ℕ × T) };

    ghost use Rattle.gc_tables.specs.SideTables.{max_entries};
    ghost use Rattle.gc_tables.specs.Slots.{value_of, numbered};

    ghost view = { λ it. numbered it.first (map value_of it.entries.now) };

    ghost invariant = { λ it. it.first + length it.entries.now ≤ max_entries };
}

impl<'a, T> SlabIter<'a, T> {
    pub(crate) fn new(entries: &'a [Entry<T>]) -> SlabIter<'a, T>
        requires { length entries.now ≤ max_entries }
        ensures { result ≡ numbered 0 (map value_of entries.now) }
    {
        SlabIter { entries, first: 0 }
    }
}

impl<'a, T> Iterator for SlabIter<'a, T> {
    type Item = (Id, &'a T);

    ghost use Rattle.std.specs.Iterator.{YieldsFirstBy, item_count};

    ghost next_gives = { YieldsFirstBy (λ item. (item.0, item.1.now)) (λ rest. rest) };

    ghost remaining = { item_count (λ rest. rest) };

    fn next(&mut self) -> Option<(Id, &'a T)> {
        while let Some((entry, rest)) = self.entries.split_first() {
            let id = Id::new(self.first);
            self.entries = rest;
            self.first += 1;
            if let Entry::Occupied(value) = entry {
                return Some((id, value));
            }
        }
        None
    }
}
