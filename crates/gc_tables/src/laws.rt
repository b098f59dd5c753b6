//! What callers conclude from the clauses of the tables. These functions do nothing: their clauses
//! are the laws.

ghost use Rattle.std.specs.Prelude.{◌≡◌, ◌<◌, ◌-◌, ℕ, Option, Some};
ghost use Rattle.gc_types.specs.declared.value.Func.{Func as FuncValue};
ghost use Rattle.gc_tables.specs.SideTables.{SideTable, value_at};
ghost use Rattle.gc_tables.specs.Interned.{Interns};
ghost use Rattle.gc_tables.specs.Conts.{cont_at};

/// What stands under the id that a function value or a continuation was interned under is that value:
/// `get_untyped` and `get` read it.
pub fn read_back()
    ensures func { (old new : SideTable (Option FuncValue)) (func : Option FuncValue) (id : ℕ) → Interns old new func id → value_at new id ≡ Some func }
    ensures cont { (old new : SideTable ℕ) (value raw : ℕ) → 0 < raw → Interns old new value (raw - 1) → cont_at new raw ≡ Some (Some value) }
{}
