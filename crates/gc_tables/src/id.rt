//! The ids of entries.

ghost use Rattle.std.specs.Prelude.{◌≡◌, ◌↔◌, ◌<◌, ◌≤◌, IfSome, IsNone};
ghost use Rattle.gc_tables.specs.SideTables.{max_entries};

use std::marker::Model;

/// The greatest number of entries of a slab; each id is below it.
pub(crate) const MAX_ENTRIES: u32 = 0x8000_0000;

/// The id of an entry of a slab: a number below 2^31. It keeps naming its entry until that entry is
/// deallocated.
#[derive(Clone, Copy, Debug, PartialEq, Eq, Hash)]
pub struct Id {
    raw: u32,
}

impl Model for Id {
    ghost use Rattle.std.specs.Prelude.{ℕ, ◌<◌};
    ghost use Rattle.gc_tables.specs.SideTables.{max_entries};

    ghost Value = { ℕ };

    ghost view = { λ i. i.raw };

    ghost invariant = { λ i. i.raw < max_entries };

    ghost inverse = { λ n. record { raw = n } };
}

impl Id {
    pub(crate) fn new(raw: u32) -> Id
        requires { raw < max_entries }
        ensures { result ≡ raw }
    {
        Id { raw }
    }

    /// The number of the id.
    pub fn into_raw(self) -> u32
        ensures value { result ≡ self }
        ensures bound { result < max_entries }
    {
        self.raw
    }

    /// The id of that number. None exactly where it is 2^31 or more.
    pub fn try_from_raw(raw: u32) -> Option<Id>
        ensures some { IfSome result (λ id. id ≡ raw) }
        ensures none { IsNone result ↔ (max_entries ≤ raw) }
    {
        if raw >= MAX_ENTRIES {
            return None;
        }
        Some(Id { raw })
    }

    pub(crate) fn index(self) -> usize
        ensures { result ≡ self }
    {
        self.raw as usize
    }
}
