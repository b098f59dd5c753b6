//! The table of continuations.

ghost use Rattle.std.specs.Prelude.{◌≡◌, ◌↔◌, ◌+◌, ◌-◌, ◌<◌, ◌≤◌, ℕ, Some, None, IsSome, IfSome, IfOk, OnErr, IsOk, Ok, IsNone, IsErrOf};
ghost use Rattle.std.specs.Option.{ForSome};
ghost use Rattle.std.specs.FinMap as map;
ghost use Rattle.gc_tables.specs.SideTables.{SideTable, max_entries, value_at, entry_count, ReservesEntries};
ghost use Rattle.gc_tables.specs.Interned.{IsInterned, IsIdOf, Interns};
ghost use Rattle.gc_tables.specs.Conts.{cont_at};

use crate::interner::{InternFault, Interner};
use std::alloc::{AllocError, Global};
use std::marker::Model;
use thiserror::Error;

/// A number names no continuation.
#[derive(Clone, Copy, Debug, PartialEq, Eq, Error)]
pub enum ContFault {
    #[error("the number names no continuation")]
    BadContRefId,
}

/// Continuations, which are plain numbers of the embedder's, each once. In the heap 0 stands for
/// none, and each other number is an id plus 1. Entries stay for good. Contracts see the ids.
#[derive(Drop)]
pub struct ContRefTable {
    interner: Interner<u64>,
}

impl Model for ContRefTable {
    ghost use Rattle.std.specs.Prelude.{ℕ};
    ghost use Rattle.std.specs.Coded.{coded_ℕ};
    ghost use Rattle.gc_tables.specs.SideTables.{SideTable, side_table_code};

    ghost Value = { SideTable ℕ };

    ghost coded = { side_table_code coded_ℕ };

    ghost view = { λ t. t.interner };
}

impl ContRefTable {
    /// A table with no entries. It takes no memory.
    pub fn new(alloc: Global) -> ContRefTable
        ensures { result.entries ≡ map.empty }
    {
        ContRefTable {
            interner: Interner::new(alloc),
        }
    }

    /// The number that stands for the continuation in the heap: the same for an equal one, and
    /// another for another. It takes constant time on average, where the table doesn't grow.
    ///
    /// `Full` exactly where there is a continuation that isn't interned, and 2^31 are; `Memory` only
    /// where there was no spare place. Both leave the entries as they were. A continuation that is
    /// interned already takes no memory.
    pub fn intern(&mut self, cont: Option<u64>) -> Result<u32, InternFault>
        ensures none { cont ≡ None → (result ≡ Ok 0) × (self.new ≡ self.old) }
        ensures some { ForSome cont (λ value. IfOk result (λ raw. (0 < raw) × Interns self.old self.new value (raw - 1))) }

        ensures known { ForSome cont (λ value. IsInterned self.old value → IsOk result) }

        ensures full { IsErrOf result InternFault.Full ↔ ((entry_count self.old ≡ max_entries)
            × ((value : ℕ) × (cont ≡ Some value) × (¬ IsInterned self.old value))) }
        ensures room { 0 < self.old.spare → ¬ IsErrOf result InternFault.Memory }
        ensures err { OnErr result (self.new.entries ≡ self.old.entries) }

        ensures spare { self.old.spare ≤ self.new.spare + 1 }
    {
        match cont {
            None => Ok(0),
            Some(value) => {
                let id = self.interner.intern(value)?;
                Ok(id.into_raw() + 1)
            }
        }
    }

    /// The continuation that the number stands for, which is none at 0. `BadContRefId` exactly where
    /// the number is neither 0 nor stands for an interned one. It takes no memory.
    pub fn get(&self, raw: u32) -> Result<Option<u64>, ContFault>
        ensures ok { IfOk result (λ cont. cont_at self.now raw ≡ Some cont) }
        ensures bad { IsErrOf result ContFault.BadContRefId ↔ (cont_at self.now raw ≡ None) }
    {
        let Some(below) = raw.checked_sub(1) else {
            return Ok(None);
        };
        match self.interner.at(below) {
            Some(value) => Ok(Some(value)),
            None => Err(ContFault::BadContRefId),
        }
    }

    /// The number of entries.
    pub fn len(&self) -> u64
        ensures value { result ≡ entry_count self.now }
        ensures bound { result ≤ max_entries }
        ensures ids { (id : ℕ) → IsSome (value_at self.now id) → id < max_entries }
    {
        self.interner.len()
    }

    /// What `intern` gave for an equal continuation; None exactly where it isn't interned.
    pub fn id_of(&self, cont: u64) -> Option<u32>
        ensures some { IfSome result (λ raw. (0 < raw) × IsIdOf self.now cont (raw - 1)) }
        ensures none { IsNone result ↔ (¬ IsInterned self.now cont) }
    {
        let id = self.interner.id_of(cont)?;
        Some(id.into_raw() + 1)
    }

    /// Makes room: as many calls of `intern` can't want memory.
    pub fn reserve(&mut self, additional: usize) -> Result<(), AllocError>
        ensures { ReservesEntries self.old self.new additional result }
    {
        self.interner.reserve(additional)
    }
}
