//! The globals of an image are set.

ghost use Rattle.std.specs.Prelude.{◌≡◌, ◌<◌, ◌+◌, ℕ, length, replicate};
ghost use Rattle.gc_model.specs.Table.{Table, null_slot, global_count};
ghost use Rattle.gc_model.specs.Accounts.{Account, HoldsAccount};
ghost use Rattle.gc_store.specs.Stores.{IsSameStore};
ghost use Rattle.gc_image.specs.Well.{AreRising};
ghost use Rattle.gc_load_image.specs.Stages.{AreSlots, GlobalsSet, HeldStand};

use gc_heap::GcHeap;
use gc_image::GlobalLine;
use gc_store::{RawValue, Store};

/// Sets the globals of an image, of which none was set, each to what it is to hold.
pub(crate) fn set_globals<H: GcHeap>(
    store: &mut Store<H, u64>,
    globals: &[GlobalLine],
    held: &[RawValue],
)
    requires slots { AreSlots globals.now }
    requires rising { AreRising globals.now }
    requires all { length held.now ≡ length globals.now }
    ensures sets { (t : Table ℕ) (a : Account) → HoldsAccount H.KIND store.old t a → HeldStand store.old t held.now globals.now
        → t.globals ≡ replicate global_count null_slot → GlobalsSet H.KIND globals.now (length globals.now) t a store.new }
    ensures same { IsSameStore store.old store.new }
{
    for i in 0..globals.len() {
        set_global(store, globals, held, i);
    }
}

/// Sets the global of a line to what it is to hold.
fn set_global<H: GcHeap>(
    store: &mut Store<H, u64>,
    globals: &[GlobalLine],
    held: &[RawValue],
    i: usize,
)
    requires inside { i < length globals.now }
    requires slots { AreSlots globals.now }
    requires rising { AreRising globals.now }
    requires all { length held.now ≡ length globals.now }
    ensures sets { (t : Table ℕ) (a : Account) → HeldStand store.old t held.now globals.now → GlobalsSet H.KIND globals.now i t a store.old
        → GlobalsSet H.KIND globals.now (i + 1) t a store.new }
    ensures same { IsSameStore store.old store.new }
{
    let global = &globals[i];
    let value = &held[i];
    if let RawValue::Ref(class, handle) = *value {
        // Its index is below the number of globals, and its handle is live: so it is always set.
        let _set = store.global_set(u32::from(global.index), class, handle);
    }
}
