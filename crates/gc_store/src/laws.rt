//! The law that each store holds a table.

ghost use Rattle.gc_model.specs.Table.{Table};
ghost use Rattle.gc_model.specs.Accounts.{Account, HoldsAccount};

use crate::store::Store;
use gc_heap::GcHeap;

/// A store holds some table, with some account beside it, whatever was done with it.
pub fn stores_hold_tables<H: GcHeap, D: Drop>(store: &Store<H, D>)
    ensures { (t : Table D) × ((a : Account) × HoldsAccount H.KIND store.now t a) }
{
    let _owner = &store.owner;
}
