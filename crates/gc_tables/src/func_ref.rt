//! The table of functions.

ghost use Rattle.std.specs.Prelude.{ℕ, ◌≡◌, ◌⊎◌, ◌↔◌, ◌+◌, ◌<◌, ◌≤◌, Some, None, IsSome, IfSome, IfOk, OnErr, IsOk, IsNone, IsErrOf};
ghost use Rattle.std.specs.Option.{IsSomeAnd};
ghost use Rattle.std.specs.FinMap as map;
ghost use Rattle.gc_tables.specs.SideTables.{SideTable, max_entries, value_at, entry_count, ReservesEntries};
ghost use Rattle.gc_tables.specs.Interned.{IsInterned, IsIdOf, Interns};
ghost use Rattle.gc_tables.specs.Funcs.{FitsType};

use crate::id::Id;
use crate::interner::{Exact, InternFault, Interner};
use gc_types::{Func, Types, VMSharedTypeIndex};
use std::alloc::{AllocError, Global};
use std::marker::Model;
use thiserror::Error;

/// Why a function isn't read.
#[derive(Clone, Copy, Debug, PartialEq, Eq, Error)]
pub enum FuncFault {
    #[error("the id names no function")]
    BadFuncRefId,
    #[error("the function's type is no subtype of the expected one")]
    FuncTypeMismatch,
}

/// The id of a function value. Contracts see it as the id of the table's entry; in the heap stands
/// the number one above, so that 0 is no id.
#[derive(Clone, Copy, Debug, PartialEq, Eq, Hash)]
pub struct FuncRefTableId {
    id: Id,
}

impl Model for FuncRefTableId {
    ghost use Rattle.std.specs.Prelude.{ℕ};

    ghost Value = { ℕ };

    ghost view = { λ i. i.id };

    ghost inverse = { λ n. record { id = n } };
}

impl FuncRefTableId {
    /// The number that stands for the id in the heap: the id plus 1.
    pub fn into_raw(self) -> u32
        ensures value { result ≡ self + 1 }
        ensures bound { result ≤ max_entries }
    {
        self.id.into_raw() + 1
    }

    /// The id that the number stands for. None exactly for 0 and above 2^31. An id need not name an
    /// entry.
    pub fn from_raw(raw: u32) -> Option<FuncRefTableId>
        ensures some { IfSome result (λ id. id + 1 ≡ raw) }
        ensures none { IsNone result ↔ ((raw ≡ 0) ⊎ (max_entries < raw)) }
    {
        let below = raw.checked_sub(1)?;
        let id = Id::try_from_raw(below)?;
        Some(FuncRefTableId { id })
    }
}

impl Exact for Option<Func> {
    ghost use Rattle.gc_tables.specs.FuncEquality.{func_exact};

    ghost exact = { func_exact };
}

/// Function values, each once; none is one of them once it was interned. Entries stay for good.
#[derive(Drop)]
pub struct FuncRefTable {
    interner: Interner<Option<Func>>,
}

impl Model for FuncRefTable {
    ghost use Rattle.std.specs.Prelude.{Option};
    ghost use Rattle.std.specs.Coded.{coded_option};
    ghost use Rattle.gc_types.specs.declared.value.Func.{Func as FuncValue};
    ghost use Rattle.gc_tables.specs.SideTables.{SideTable, side_table_code};
    ghost use Rattle.gc_tables.specs.Funcs.{func_code};

    ghost Value = { SideTable (Option FuncValue) };

    ghost coded = { side_table_code (coded_option func_code) };

    ghost view = { λ t. t.interner };
}

impl FuncRefTable {
    /// A table with no entries. It takes no memory.
    pub fn new(alloc: Global) -> FuncRefTable
        ensures { result.entries ≡ map.empty }
    {
        FuncRefTable {
            interner: Interner::new(alloc),
        }
    }

    /// The id of the function value: the same for an equal one, and another for another. None has an
    /// id of its own. It takes constant time on average, where the table doesn't grow.
    ///
    /// `Full` exactly where the value is new and there are 2^31 entries; `Memory` only where there
    /// was no spare place. Both leave the entries as they were. A value that is interned already takes
    /// no memory.
    pub fn intern(&mut self, func: Option<Func>) -> Result<FuncRefTableId, InternFault>
        ensures ok { IfOk result (Interns self.old self.new func) }
        ensures known { IsInterned self.old func → IsOk result }

        ensures full { IsErrOf result InternFault.Full ↔ ((entry_count self.old ≡ max_entries) × (¬ IsInterned self.old func)) }
        ensures room { 0 < self.old.spare → ¬ IsErrOf result InternFault.Memory }
        ensures err { OnErr result (self.new.entries ≡ self.old.entries) }

        ensures spare { self.old.spare ≤ self.new.spare + 1 }
    {
        let id = self.interner.intern(func)?;
        Ok(FuncRefTableId { id })
    }

    /// The function value of that id, where it is none or its type is `expected` or a subtype of it.
    ///
    /// `BadFuncRefId` exactly where the id names no entry, and `FuncTypeMismatch` exactly where it
    /// names a function whose type isn't a subtype. It takes no memory, and the time of
    /// `Types::is_subtype`.
    pub fn get_typed(
        &self,
        types: &Types,
        id: FuncRefTableId,
        expected: VMSharedTypeIndex,
    ) -> Result<Option<Func>, FuncFault>
        ensures ok { IfOk result (λ func. value_at self.now id ≡ Some func) }
        ensures typed { IfOk result (FitsType types.now expected) }
        ensures bad { IsErrOf result FuncFault.BadFuncRefId ↔ (value_at self.now id ≡ None) }
        ensures mismatch { IsErrOf result FuncFault.FuncTypeMismatch ↔ IsSomeAnd (value_at self.now id) (λ func. ¬ FitsType types.now expected func) }
    {
        match self.get_untyped(id)? {
            None => Ok(None),
            Some(func) => {
                if !types.is_subtype(func.ty, expected) {
                    return Err(FuncFault::FuncTypeMismatch);
                }
                Ok(Some(func))
            }
        }
    }

    /// The function value of that id, whatever its type. `BadFuncRefId` exactly where the id names no
    /// entry. It takes no memory.
    pub fn get_untyped(&self, id: FuncRefTableId) -> Result<Option<Func>, FuncFault>
        ensures ok { IfOk result (λ func. value_at self.now id ≡ Some func) }
        ensures bad { IsErrOf result FuncFault.BadFuncRefId ↔ (value_at self.now id ≡ None) }
        ensures mismatch { ¬ IsErrOf result FuncFault.FuncTypeMismatch }
    {
        self.interner
            .at(id.id.into_raw())
            .ok_or(FuncFault::BadFuncRefId)
    }

    /// The number of entries.
    pub fn len(&self) -> u64
        ensures value { result ≡ entry_count self.now }
        ensures bound { result ≤ max_entries }
        ensures ids { (id : ℕ) → IsSome (value_at self.now id) → id < max_entries }
    {
        self.interner.len()
    }

    /// What `intern` gave for an equal value; None exactly where it isn't interned.
    pub fn id_of(&self, func: Option<Func>) -> Option<FuncRefTableId>
        ensures some { IfSome result (IsIdOf self.now func) }
        ensures none { IsNone result ↔ (¬ IsInterned self.now func) }
    {
        let id = self.interner.id_of(func)?;
        Some(FuncRefTableId { id })
    }

    /// Makes room: as many calls of `intern` can't want memory.
    pub fn reserve(&mut self, additional: usize) -> Result<(), AllocError>
        ensures { ReservesEntries self.old self.new additional result }
    {
        self.interner.reserve(additional)
    }
}
