//! A slab: values of one type, each under an id that the slab picks.

ghost use Rattle.std.specs.Prelude.{ℕ, ◌≡◌, ◌≢◌, ◌↔◌, ◌+◌, ◌<◌, ◌≤◌, None, Some, Err, IsTrue, IfOk, OnErr, IfErr, IfNone, IsSome, option_copied};
ghost use Rattle.std.specs.Prelude.{slice_index_or, map as list_map};
ghost use Rattle.std.specs.Option.{option_copied_mut};
ghost use Rattle.std.specs.FinMap as map;
ghost use Rattle.std.specs.Borrow.{Lends, sem};
ghost use Rattle.gc_tables.specs.SideTables.{SideTable, max_entries, value_at, entry_count, ReservesEntries};
ghost use Rattle.gc_tables.specs.Slabs.{returned};
ghost use Rattle.gc_tables.specs.Slots.{value_of};

use crate::id::{Id, MAX_ENTRIES};
use crate::iter::SlabIter;
use std::alloc::{AllocError, Global};
use std::fmt::Debug;
use std::marker::Model;
use std::mem;
use thiserror::Error;

/// Why a slab doesn't take a value, which comes back with it.
#[derive(Debug, Drop, Error)]
#[error_bound(T: Debug)]
pub enum SlabFault<T> {
    #[error("the table is full")]
    Full(T),
    #[error("out of memory")]
    Memory(T),
}

/// Values of one type, each under an id that the slab picks.
///
/// An id names its value until that value is deallocated. Only then can it be given out again, and
/// ids of freed entries are reused before the slab grows. Each call but `iter`'s walk takes constant
/// time, where the slab doesn't grow.
#[derive(Drop)]
pub struct Slab<T> {
    entries: Vec<Entry<T>>,
    /// The first of the free places, each of which names the next.
    free: Option<Id>,
    /// How many places are occupied.
    len: u32,
}

/// A place of a slab.
#[derive(Drop)]
pub(crate) enum Entry<T> {
    /// Free, and the free place behind it.
    Free(Option<Id>),
    Occupied(T),
}

impl<T> Model for Slab<T> {
    ghost use Rattle.std.specs.Prelude.{◌-◌, vec_capacity};
    ghost use Rattle.gc_tables.specs.SideTables.{SideTable, side_table_code};

    ghost Value = { SideTable T };

    ghost coded = { side_table_code T.code };

    ghost use Rattle.gc_tables.specs.Slots.{entry_map, IsLinked};

    ghost view = { λ s. record {
      entries = entry_map s.entries.items;
      spare = vec_capacity s.entries - s.len;
    } };

    ghost invariant = { λ s. IsLinked s.entries.items s.free s.len };
}

impl<T> Entry<T> {
    ghost use Rattle.gc_tables.specs.contracts.slab.Entry.{the_row};

    fn value_mut(&mut self) -> &mut T
        requires { IsSome (value_of self.old) }
        ensures* lends { sem 𝓛 (Lends (the_row T.row) T.row self.entry result Entry.Occupied) }
        ensures value { value_of self.old ≡ Some result.now }
    {
        match self {
            Entry::Occupied(value) => value,
            Entry::Free(_) => unreachable!(),
        }
    }
}

/// The value at a place, if it has one.
fn occupant<T>(entries: &[Entry<T>], index: usize) -> Option<&T>
    ensures { option_copied result ≡ slice_index_or (list_map value_of entries.now) index None }
{
    match entries.get(index) {
        Some(Entry::Occupied(value)) => Some(value),
        _ => None,
    }
}

impl<T> Slab<T> {
    ghost use Rattle.gc_tables.specs.Lends.{lends_get, lends_value};

    /// A slab with no entries. It takes no memory.
    pub fn new(alloc: Global) -> Slab<T>
        ensures { result.entries ≡ map.empty }
    {
        Slab {
            entries: Vec::new(alloc),
            free: None,
            len: 0,
        }
    }

    /// Puts the value in, under an id that named no entry.
    ///
    /// `Full` exactly where the slab has 2^31 entries, this crate's own bound; `Memory` only where
    /// there was no spare place. Both hand the value back, and leave the entries as they were.
    pub fn alloc(&mut self, value: T) -> Result<Id, SlabFault<T>>
        ensures fresh { IfOk result (λ id. value_at self.old id ≡ None) }
        ensures added { IfOk result (λ id. self.new.entries ≡ map.insert self.old.entries id value) }

        ensures full { (result ≡ Err (SlabFault.Full value)) ↔ (entry_count self.old ≡ max_entries) }
        ensures room { 0 < self.old.spare → result ≢ Err (SlabFault.Memory value) }
        ensures returned { IfErr result (λ fault. returned fault ≡ value) }
        ensures err { OnErr result (self.new.entries ≡ self.old.entries) }

        ensures spare { self.old.spare ≤ self.new.spare + 1 }
    {
        if self.is_full() {
            return Err(SlabFault::Full(value));
        }
        if self.reserve(1).is_err() {
            return Err(SlabFault::Memory(value));
        }
        Ok(self.alloc_reserved(value))
    }

    /// Makes room: as many calls of `alloc` can't want memory, whatever is deallocated between them.
    pub fn reserve(&mut self, additional: usize) -> Result<(), AllocError>
        ensures { ReservesEntries self.old self.new additional result }
    {
        let free = self.entries.len() - self.len as usize;
        self.entries.reserve(additional.saturating_sub(free))
    }

    /// `alloc` for a caller that has made room.
    pub(crate) fn alloc_reserved(&mut self, value: T) -> Id
        requires room { 0 < self.old.spare }
        requires not_full { entry_count self.old < max_entries }
        ensures fresh { value_at self.old result ≡ None }
        ensures added { self.new.entries ≡ map.insert self.old.entries result value }
        ensures spare { self.old.spare ≡ self.new.spare + 1 }
    {
        match self.free {
            None => {
                let id = Id::new(self.entries.len() as u32);
                self.entries.push_reserved(Entry::Occupied(value));
                self.len += 1;
                id
            }
            Some(id) => {
                match mem::replace(&mut self.entries[id.index()], Entry::Occupied(value)) {
                    Entry::Free(next) => self.free = next,
                    Entry::Occupied(_) => unreachable!(),
                }
                self.len += 1;
                id
            }
        }
    }

    /// Takes the value out, and its id names nothing from then on. None exactly where the id names
    /// no entry. It takes no memory.
    pub fn dealloc(&mut self, id: Id) -> Option<T>
        ensures value { result ≡ value_at self.old id }
        ensures removed { self.new.entries ≡ map.remove self.old.entries id }
        ensures absent { IfNone result (self.new ≡ self.old) }
        ensures spare { self.old.spare ≤ self.new.spare }
    {
        if !self.contains(id) {
            return None;
        }
        Some(self.take(id))
    }

    fn take(&mut self, id: Id) -> T
        requires { IsSome (value_at self.old id) }
        ensures value { value_at self.old id ≡ Some result }
        ensures removed { self.new.entries ≡ map.remove self.old.entries id }
        ensures spare { self.old.spare ≤ self.new.spare }
    {
        let freed = Entry::Free(self.free);
        match mem::replace(&mut self.entries[id.index()], freed) {
            Entry::Occupied(value) => {
                self.free = Some(id);
                self.len -= 1;
                value
            }
            Entry::Free(_) => unreachable!(),
        }
    }

    fn contains(&self, id: Id) -> bool
        ensures { IsTrue result ↔ IsSome (value_at self.now id) }
    {
        self.get(id).is_some()
    }

    /// The value under that id. None exactly where the id names no entry.
    pub fn get(&self, id: Id) -> Option<&T>
        ensures { option_copied result ≡ value_at self.now id }
    {
        self.at(id.into_raw())
    }

    /// The value whose id is that number.
    pub(crate) fn at(&self, raw: u32) -> Option<&T>
        ensures { option_copied result ≡ value_at self.now raw }
    {
        occupant(&self.entries, raw as usize)
    }

    /// The value under that id, for writing. None exactly where the id names no entry.
    pub fn get_mut(&mut self, id: Id) -> Option<&mut T>
        ensures* writes_back { sem 𝓛 (lends_get T.row self.entry id result) }
        ensures value { option_copied_mut result ≡ value_at self.old id }
    {
        if self.contains(id) {
            Some(self.value_mut(id))
        } else {
            None
        }
    }

    fn value_mut(&mut self, id: Id) -> &mut T
        requires { IsSome (value_at self.old id) }
        ensures* writes_back { sem 𝓛 (lends_value T.row self.entry id result) }
        ensures value { value_at self.old id ≡ Some result.now }
    {
        self.entries[id.index()].value_mut()
    }

    /// The number of entries.
    pub fn len(&self) -> u64
        ensures value { result ≡ entry_count self.now }
        ensures bound { result ≤ max_entries }
        ensures ids { (id : ℕ) → IsSome (value_at self.now id) → id < max_entries }
    {
        u64::from(self.len)
    }

    /// Whether there are no entries.
    pub fn is_empty(&self) -> bool
        ensures { IsTrue result ↔ (entry_count self.now ≡ 0) }
    {
        self.len == 0
    }

    /// Whether no further value can be put in: there are 2^31 entries.
    pub(crate) fn is_full(&self) -> bool
        ensures value { IsTrue result ↔ (entry_count self.now ≡ max_entries) }
        ensures bound { entry_count self.now ≤ max_entries }
    {
        self.len == MAX_ENTRIES
    }

    /// Each id with its value, by rising id. The whole walk takes time linear in the largest number
    /// of entries that there were at once.
    pub fn iter(&self) -> SlabIter<'_, T>
        ensures { result ≡ map.entries self.now.entries }
    {
        SlabIter::new(self.entries.as_slice())
    }
}
