//! The table of host values.

ghost use Rattle.std.specs.Prelude.{ℕ, ◌≡◌, ◌≢◌, ◌⊎◌, ◌↔◌, ◌+◌, ◌<◌, ◌≤◌, Some, None, Err, IsSome, IfSome, IfOk, IfErr, OnOk, OnErr, IsNone, IsErrOf};
ghost use Rattle.std.specs.FinMap as map;
ghost use Rattle.std.specs.Borrow.{sem};
ghost use Rattle.gc_tables.specs.SideTables.{SideTable, max_entries, value_at, entry_count};
ghost use Rattle.gc_tables.specs.Slabs.{returned};

use crate::id::Id;
use crate::slab::{Slab, SlabFault};
use std::alloc::Global;
use std::marker::Model;
use thiserror::Error;

/// An id names no host value.
#[derive(Clone, Copy, Debug, PartialEq, Eq, Error)]
pub enum HostFault {
    #[error("the id names no host value")]
    BadHostDataId,
}

/// The id of a host value. Contracts see it as the id of the table's slab; in the heap stands the
/// number one above, so that 0 is no id.
#[derive(Clone, Copy, Debug, PartialEq, Eq, Hash)]
pub struct ExternRefHostDataId {
    id: Id,
}

impl Model for ExternRefHostDataId {
    ghost use Rattle.std.specs.Prelude.{ℕ};

    ghost Value = { ℕ };

    ghost view = { λ i. i.id };

    ghost inverse = { λ n. record { id = n } };
}

impl ExternRefHostDataId {
    /// The number that stands for the id in the heap: the id plus 1.
    pub fn into_raw(self) -> u32
        ensures value { result ≡ self + 1 }
        ensures bound { result ≤ max_entries }
    {
        self.id.into_raw() + 1
    }

    /// The id that the number stands for. None exactly for 0 and above 2^31. An id need not name an
    /// entry.
    pub fn from_raw(raw: u32) -> Option<ExternRefHostDataId>
        ensures some { IfSome result (λ id. id + 1 ≡ raw) }
        ensures none { IsNone result ↔ ((raw ≡ 0) ⊎ (max_entries < raw)) }
    {
        let below = raw.checked_sub(1)?;
        let id = Id::try_from_raw(below)?;
        Some(ExternRefHostDataId { id })
    }
}

/// The host values of external objects.
#[derive(Drop)]
pub struct ExternRefHostDataTable<D> {
    slab: Slab<D>,
}

impl<D> Model for ExternRefHostDataTable<D> {
    ghost use Rattle.gc_tables.specs.SideTables.{SideTable, side_table_code};

    ghost Value = { SideTable D };

    ghost coded = { side_table_code D.code };

    ghost view = { λ t. t.slab };
}

impl<D> ExternRefHostDataTable<D> {
    ghost use Rattle.gc_tables.specs.HostLends.{lends_host};

    /// A table with no entries. It takes no memory.
    pub fn new(alloc: Global) -> ExternRefHostDataTable<D>
        ensures { result.entries ≡ map.empty }
    {
        ExternRefHostDataTable {
            slab: Slab::new(alloc),
        }
    }

    /// Puts the value in, under an id that named no entry.
    ///
    /// `Full` exactly where there are 2^31 entries; `Memory` only where there was no spare place.
    /// Both hand the value back, and leave the entries as they were.
    pub fn alloc(&mut self, value: D) -> Result<ExternRefHostDataId, SlabFault<D>>
        ensures fresh { IfOk result (λ id. value_at self.old id ≡ None) }
        ensures added { IfOk result (λ id. self.new.entries ≡ map.insert self.old.entries id value) }

        ensures full { (result ≡ Err (SlabFault.Full value)) ↔ (entry_count self.old ≡ max_entries) }
        ensures room { 0 < self.old.spare → result ≢ Err (SlabFault.Memory value) }
        ensures returned { IfErr result (λ fault. returned fault ≡ value) }
        ensures err { OnErr result (self.new.entries ≡ self.old.entries) }

        ensures spare { self.old.spare ≤ self.new.spare + 1 }
    {
        match self.slab.alloc(value) {
            Ok(id) => Ok(ExternRefHostDataId { id }),
            Err(fault) => Err(fault),
        }
    }

    /// Takes the value out, and its id names nothing from then on. `BadHostDataId` exactly where the
    /// id names no entry. It takes no memory.
    pub fn dealloc(&mut self, id: ExternRefHostDataId) -> Result<D, HostFault>
        ensures ok { IfOk result (λ value. value_at self.old id ≡ Some value) }
        ensures removed { OnOk result (self.new.entries ≡ map.remove self.old.entries id) }
        ensures bad { IsErrOf result HostFault.BadHostDataId ↔ (value_at self.old id ≡ None) }
        ensures err { OnErr result (self.new ≡ self.old) }
        ensures spare { self.old.spare ≤ self.new.spare }
    {
        match self.slab.dealloc(id.id) {
            Some(value) => Ok(value),
            None => Err(HostFault::BadHostDataId),
        }
    }

    /// The value under that id. `BadHostDataId` exactly where the id names no entry.
    pub fn get(&self, id: ExternRefHostDataId) -> Result<&D, HostFault>
        ensures ok { IfOk result (λ value. value_at self.now id ≡ Some value.now) }
        ensures bad { IsErrOf result HostFault.BadHostDataId ↔ (value_at self.now id ≡ None) }
    {
        self.slab.get(id.id).ok_or(HostFault::BadHostDataId)
    }

    /// The value under that id, for writing. `BadHostDataId` exactly where the id names no entry.
    pub fn get_mut(&mut self, id: ExternRefHostDataId) -> Result<&mut D, HostFault>
        ensures* writes_back { sem 𝓛 (lends_host D.row self.entry id result) }
        ensures ok { IfOk result (λ value. value_at self.old id ≡ Some value.now) }
        ensures bad { IsErrOf result HostFault.BadHostDataId ↔ (value_at self.old id ≡ None) }
    {
        match self.slab.get_mut(id.id) {
            Some(value) => Ok(value),
            None => Err(HostFault::BadHostDataId),
        }
    }

    /// The number of entries.
    pub fn len(&self) -> u64
        ensures value { result ≡ entry_count self.now }
        ensures bound { result ≤ max_entries }
        ensures ids { (id : ℕ) → IsSome (value_at self.now id) → id < max_entries }
    {
        self.slab.len()
    }
}
