//! Reading and writing values through the store, once all tests passed.

ghost use Rattle.std.specs.Prelude.{◌≡◌, ◌≤◌, ◌<◌, ℕ, IfOk, IfSome, OnErr, Err};
ghost use Rattle.gc_model.specs.Holds.{HoldsTable};
ghost use Rattle.gc_model.specs.Table.{Table};
ghost use Rattle.gc_model.specs.Values.{Value};
ghost use Rattle.gc_model.specs.Accounts.{Account, HoldsAccount};
ghost use Rattle.gc_store.specs.Roots.{is_of_store, CanRead, HasValue};
ghost use Rattle.gc_store.specs.Values.{CanWrite};
ghost use Rattle.gc_store.specs.Stores.{IsSameStore, scoped_places};
ghost use Rattle.gc_objects.specs.Given.{raw_of, ValNamesKind};
ghost use Rattle.gc_objects.specs.Answered.{Answers, HasField};
ghost use Rattle.gc_objects.specs.Reads.{IsTypedSomewhere, ReadsAs, ReadsAt};
ghost use Rattle.gc_objects.specs.Writes.{WritesAs};

use crate::faults::{AccessFault, accessed};
use crate::places::NamedField;
use crate::val::{Val, raw_of, val_of};
use gc_heap::GcHeap;
use gc_store::{GcRootIndex, RootFault, Store, WriteFault};

/// Reads the value of that index of the object that a root names.
pub(crate) fn read<H: GcHeap, D: Drop>(
    store: &mut Store<H, D>,
    root: GcRootIndex,
    index: u32,
) -> Result<Val, RootFault>
    requires { CanRead D H.KIND store.old root index }
    ensures reads { (t : Table D) (a : Account) (x : Value) → HoldsAccount H.KIND store.old t a
        → HasValue store.old t root index x → ReadsAs H.KIND t a x result store.new }
    ensures kind { IfOk result (ValNamesKind D H.KIND store.new) }
    ensures err { OnErr result (store.new ≡ store.old) }
    ensures same { IsSameStore store.old store.new }
    ensures spare { scoped_places store.old ≤ scoped_places store.new }
    ensures reserved { 0 < store.old.spare → result ≡ Err RootFault.Memory → ⊥ }
{
    match store.read_value(root, index) {
        Ok(value) => Ok(val_of(store, &value)),
        Err(fault) => Err(fault),
    }
}

/// Reads the value of the field that was found of the object that a root names: `OutOfBounds` where there is none, and why it
/// wasn't looked for.
pub(crate) fn read_found<H: GcHeap, D: Drop>(
    store: &mut Store<H, D>,
    root: GcRootIndex,
    found: Result<Option<NamedField>, RootFault>,
) -> Result<Val, AccessFault>
    requires { IfOk found (λ some. IfSome some (λ named. IsTypedSomewhere D H.KIND store.old root named.index named.field)) }
    ensures reads { (t : Table D) (a : Account) (index : ℕ) → HoldsAccount H.KIND store.old t a
        → Answers store.old t (is_of_store store.old root) root (HasField t index) found
        → ReadsAt H.KIND store.old t a root index result store.new }
    ensures kind { IfOk result (ValNamesKind D H.KIND store.new) }
    ensures err { OnErr result (store.new ≡ store.old) }
    ensures same { IsSameStore store.old store.new }
    ensures spare { scoped_places store.old ≤ scoped_places store.new }
    ensures reserved { (t : Table D) (index : ℕ) → HoldsTable H.KIND store.old t
        → Answers store.old t (is_of_store store.old root) root (HasField t index) found
        → 0 < store.old.spare → result ≡ Err AccessFault.Memory → ⊥ }
{
    match found {
        Ok(Some(named)) => match read(store, root, named.index) {
            Ok(value) => Ok(value),
            Err(fault) => Err(accessed(fault)),
        },
        Ok(None) => Err(AccessFault::OutOfBounds),
        Err(fault) => Err(accessed(fault)),
    }
}

/// Writes a value that goes there into the object that a root names. `FuncTableFull` comes where no id is left for a function
/// that is new to the store, `ContTableFull` where none is left for a continuation, and `Memory` for these values alone.
pub(crate) fn write<H: GcHeap, D: Drop>(
    store: &mut Store<H, D>,
    root: GcRootIndex,
    index: u32,
    value: &Val,
) -> Result<(), AccessFault>
    requires { CanWrite D H.KIND store.old root index (raw_of value.now) }
    ensures writes { (t : Table D) (a : Account) → HoldsAccount H.KIND store.old t a
        → WritesAs H.KIND store.old store.new t a root index value.now result }
    ensures err { OnErr result (store.new ≡ store.old) }
    ensures same { IsSameStore store.old store.new }
    ensures spare { store.old.spare ≤ store.new.spare }
{
    match store.write_value(root, index, raw_of(value)) {
        Ok(()) => Ok(()),
        Err(WriteFault::FuncTableFull) => Err(AccessFault::FuncTableFull),
        Err(WriteFault::ContTableFull) => Err(AccessFault::ContTableFull),
        Err(WriteFault::Memory) => Err(AccessFault::Memory),
    }
}
