//! Whether a value is a store's, and whether it fits a type.

ghost use Rattle.std.specs.Prelude.{◌≡◌};
ghost use Rattle.gc_model.specs.Holds.{HoldsTable};
ghost use Rattle.gc_model.specs.Table.{Table};
ghost use Rattle.gc_store.specs.Roots.{is_of_store};
ghost use Rattle.gc_objects.specs.Faults.{accessed};
ghost use Rattle.gc_wasm_types.specs.Values.{or_absent, handle, ChecksReference, reference_type};

use gc_heap::GcHeap;
use gc_objects::{AccessFault, raw_matches_ty};
use gc_store::{GcClass, GcRootIndex, RawValue, RootFault, Store};
use gc_types::{HeapType, RefType, ValType};

/// Whether a root carries the store's id.
pub(crate) fn is_of_store<H: GcHeap, D: Drop>(store: &Store<H, D>, root: GcRootIndex) -> bool
    ensures { result ≡ is_of_store store.now root }
{
    let id = store.id();
    root.store_id.engine == id.engine && root.store_id.number == id.number
}

/// A fault of a root as one of an access.
fn accessed(fault: RootFault) -> AccessFault
    ensures { result ≡ accessed fault }
{
    match fault {
        RootFault::WrongStore => AccessFault::WrongStore,
        RootFault::Unrooted => AccessFault::Unrooted,
        RootFault::RootsFull => AccessFault::RootsFull,
        RootFault::Memory => AccessFault::Memory,
    }
}

/// Whether null or what a root names fits a type, as a reference of that class.
pub(crate) fn check_reference<H: GcHeap, D: Drop>(
    store: &Store<H, D>,
    class: GcClass,
    root: Option<GcRootIndex>,
    nullable: bool,
    actual: &HeapType,
) -> Result<(), AccessFault>
    ensures { (t : Table D) → HoldsTable H.KIND store.now t
        → ChecksReference store.now t class (or_absent handle root) (reference_type nullable actual.now) result }
{
    let ty = ValType::Ref(RefType {
        nullable,
        heap_type: *actual,
    });
    match raw_matches_ty(store, &RawValue::Ref(class, root), &ty) {
        Ok(true) => Ok(()),
        Ok(false) => Err(AccessFault::TypeMismatch),
        Err(fault) => Err(accessed(fault)),
    }
}
