//! The roots of versions, and what lies behind them: what lists and maps share.

ghost use Rattle.std.specs.Prelude.{◌≡◌, MatchResult, OnErr, false, true};
ghost use Rattle.gc_model.specs.Table.{Table, leave};
ghost use Rattle.gc_model.specs.Values.{Reference};
ghost use Rattle.gc_model.specs.Accounts.{Account, HoldsAccount};
ghost use Rattle.gc_store.specs.Roots.{NamesReference, is_of_store};
ghost use Rattle.gc_store.specs.Stores.{IsSameStore};
ghost use Rattle.gc_lists.specs.Answers.{KeepsRoot, Releases};
ghost use Rattle.gc_lists.specs.Cells.{number_in};
ghost use Rattle.gc_lists.specs.Faults.{refused};
ghost use Rattle.gc_lists.specs.Kits.{is_kit_of};
ghost use Rattle.gc_lists.specs.Versions.{is_version_of};

use crate::fault::ListFault;
use crate::kit::Kit;
use gc_heap::GcHeap;
use gc_store::{GcRootIndex, RawValue, RootFault, Store};

/// A store's refusal as one of these calls. A version's root is live, so that `Unrooted` never comes.
pub fn refused(fault: RootFault) -> ListFault
    ensures { result ≡ refused fault }
{
    match fault {
        RootFault::WrongStore => ListFault::WrongStore,
        RootFault::Unrooted => ListFault::WrongStore,
        RootFault::RootsFull => ListFault::RootsFull,
        RootFault::Memory => ListFault::Memory,
    }
}

/// Whether a kit is the store's.
pub fn is_kit_of<H: GcHeap, D: Drop>(store: &Store<H, D>, kit: &Kit) -> bool
    ensures { result ≡ is_kit_of store.now kit.now }
{
    kit.store_id() == store.id()
}

/// Whether a version with that root, or an empty one, is the store's.
pub fn is_version_of<H: GcHeap, D: Drop>(store: &Store<H, D>, version: Option<GcRootIndex>) -> bool
    ensures { result ≡ is_version_of store.now version }
{
    match version {
        Some(root) => root.store_id == store.id(),
        None => true,
    }
}

/// The integer of 64 bits that a value is; 0 where it is none.
#[inline(always)]
pub fn number_in(value: &RawValue) -> i64
    ensures { result ≡ number_in value.now }
{
    match value {
        RawValue::I64(number) => *number,
        _ => 0,
    }
}

/// Makes an owned root for what a root names, and leaves the scope that was entered with so many scoped roots.
pub fn keep<H: GcHeap, D: Drop>(
    store: &mut Store<H, D>,
    scope: usize,
    handle: GcRootIndex,
) -> Result<GcRootIndex, ListFault>
    ensures keeps { (t : Table D) (a : Account) (r : Reference) → HoldsAccount H.KIND store.old t a → NamesReference store.old t handle r
        → KeepsRoot H.KIND t a r (leave scope) result store.new }
    ensures same { IsSameStore store.old store.new }
{
    let owned = store.own_root(handle);
    store.exit_gc_lifo_scope(scope);
    match owned {
        Ok(root) => Ok(root),
        Err(fault) => Err(refused(fault)),
    }
}

/// Gives up a version with that root, or an empty one. Where it is another store's, that value is handed back.
pub fn give_up<H: GcHeap, D: Drop, V: Drop>(
    store: &mut Store<H, D>,
    root: Option<GcRootIndex>,
    version: V,
) -> Result<(), V>
    ensures releases { (t : Table D) (a : Account) → HoldsAccount H.KIND store.old t a
        → MatchResult result (λ done. (is_version_of store.old root ≡ true) × Releases H.KIND store.old t a root store.new)
        (λ back. (is_version_of store.old root ≡ false) × (back ≡ version)) }
    ensures err { OnErr result (store.new ≡ store.old) }
    ensures same { IsSameStore store.old store.new }
{
    let Some(handle) = root else {
        return Ok(());
    };
    match store.release(handle) {
        Ok(_) => Ok(()),
        Err(_) => Err(version),
    }
}
