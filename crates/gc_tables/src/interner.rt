//! A table in which each value stands once.

ghost use Rattle.std.specs.Prelude.{ℕ, ◌≡◌, ◌↔◌, ◌+◌, ◌<◌, ◌≤◌, IsSome, IfSome, IfOk, OnErr, IsOk, IsNone, IsErrOf, IsTrue};
ghost use Rattle.std.specs.FinMap as map;
ghost use Rattle.gc_tables.specs.SideTables.{SideTable, max_entries, value_at, entry_count, ReservesEntries};
ghost use Rattle.gc_tables.specs.Interned.{IsInterned, IsIdOf, Interns};

use crate::id::Id;
use crate::slab::Slab;
use std::alloc::{AllocError, Global};
use std::collections::HashMap;
use std::hash::Hash;
use std::marker::Model;
use thiserror::Error;

/// Why a value isn't interned.
#[derive(Clone, Copy, Debug, PartialEq, Eq, Error)]
pub enum InternFault {
    #[error("the table is full")]
    Full,
    #[error("out of memory")]
    Memory,
}

/// Values that are one where `==` finds them equal.
pub(crate) trait Exact: Copy + Drop + Eq + Hash {
    ghost use Rattle.std.specs.Prelude.{◌≡◌, IsTrue};

    ghost exact: { (a : Self) (b : Self) → IsTrue (Self.eq a b) → a ≡ b };
}

impl Exact for u64 {
    ghost use Rattle.std.proofs.Common.{eqb-true};

    ghost exact = { eqb-true };
}

/// Values, each once, under ids that never change.
#[derive(Drop)]
pub(crate) struct Interner<K: Exact> {
    values: Slab<K>,
    ids: HashMap<K, Id>,
}

impl<K: Exact> Model for Interner<K> {
    ghost use Rattle.std.specs.Prelude.{min};
    ghost use Rattle.std.specs.HashMap.{spare};
    ghost use Rattle.gc_tables.specs.SideTables.{SideTable, side_table_code};
    ghost use Rattle.gc_tables.specs.Interned.{IsIndex};

    ghost Value = { SideTable K };

    ghost coded = { side_table_code K.code };

    ghost view = { λ i. record {
      entries = i.values.entries;
      spare = min i.values.spare (spare i.ids);
    } };

    ghost invariant = { λ i. IsIndex K.eq i.values.entries i.ids };
}

impl<K: Exact> Interner<K> {
    pub(crate) fn new(alloc: Global) -> Interner<K>
        ensures { result.entries ≡ map.empty }
    {
        Interner {
            values: Slab::new(alloc),
            ids: HashMap::new(alloc),
        }
    }

    /// The id of the value, which is put in where it isn't there.
    pub(crate) fn intern(&mut self, value: K) -> Result<Id, InternFault>
        ensures ok { IfOk result (Interns self.old self.new value) }
        ensures known { IsInterned self.old value → IsOk result }
        ensures full { IsErrOf result InternFault.Full ↔ ((entry_count self.old ≡ max_entries) × (¬ IsInterned self.old value)) }
        ensures room { 0 < self.old.spare → ¬ IsErrOf result InternFault.Memory }
        ensures err { OnErr result (self.new.entries ≡ self.old.entries) }
        ensures spare { self.old.spare ≤ self.new.spare + 1 }
    {
        if let Some(id) = self.id_of(value) {
            return Ok(id);
        }
        if self.values.is_full() {
            return Err(InternFault::Full);
        }
        if self.reserve(1).is_err() {
            return Err(InternFault::Memory);
        }
        Ok(self.add(value))
    }

    /// Puts a new value in. There is room.
    fn add(&mut self, value: K) -> Id
        requires room { 0 < self.old.spare }
        requires not_full { entry_count self.old < max_entries }
        requires new { ¬ IsInterned self.old value }
        ensures fresh { value_at self.old result ≡ None }
        ensures added { self.new.entries ≡ map.insert self.old.entries result value }
        ensures spare { self.old.spare ≤ self.new.spare + 1 }
    {
        let id = self.values.alloc_reserved(value);
        match self.ids.insert(value, id) {
            Ok(_) => id,
            Err(_) => unreachable!(),
        }
    }

    /// The id of the value; None exactly where it isn't there.
    pub(crate) fn id_of(&self, value: K) -> Option<Id>
        ensures some { IfSome result (IsIdOf self.now value) }
        ensures none { IsNone result ↔ (¬ IsInterned self.now value) }
    {
        self.ids.get(&value).copied()
    }

    /// The value whose id is that number; None exactly where it names none.
    pub(crate) fn at(&self, raw: u32) -> Option<K>
        ensures { result ≡ value_at self.now raw }
    {
        self.values.at(raw).copied()
    }

    pub(crate) fn len(&self) -> u64
        ensures value { result ≡ entry_count self.now }
        ensures bound { result ≤ max_entries }
        ensures ids { (id : ℕ) → IsSome (value_at self.now id) → id < max_entries }
    {
        self.values.len()
    }

    pub(crate) fn reserve(&mut self, additional: usize) -> Result<(), AllocError>
        ensures { ReservesEntries self.old self.new additional result }
    {
        self.values.reserve(additional)?;
        self.ids.reserve(additional)
    }
}
