//! A walk along a list.

ghost use Rattle.std.specs.Prelude.{◌≡◌, ℕ, ℤ, List, MatchResult};
ghost use Rattle.gc_model.specs.Table.{Table};
ghost use Rattle.gc_model.specs.Accounts.{Account, HoldsAccount};
ghost use Rattle.gc_store.specs.Stores.{IsSameStore};
ghost use Rattle.gc_lists.specs.Progress.{IsCellIn, NamesCell, Steps, StopsWalk, WalkedAll};
ghost use Rattle.gc_lists.specs.Versions.{IsListIn, StandsForList};

use crate::fault::ListFault;
use crate::roots::{number_in, refused};
use gc_heap::GcHeap;
use gc_store::{GcRootIndex, Store};
use std::alloc::Global;

/// The index of a cell's number among its fields.
pub(crate) const NUMBER: u32 = 0;

/// The index of its next cell.
pub(crate) const NEXT: u32 = 1;

/// The number of a cell, and the next cell, which gets a scoped root; none behind the last.
fn step<H: GcHeap, D: Drop>(
    store: &mut Store<H, D>,
    cell: GcRootIndex,
) -> Result<(i64, Option<GcRootIndex>), ListFault>
    requires { IsCellIn D H.KIND store.old cell }
    ensures steps { (t : Table D) (a : Account) (xs : List ℤ) → HoldsAccount H.KIND store.old t a → (names : NamesCell store.old t cell xs)
        → Steps H.KIND t a names.number names.next result store.new }
    ensures same { IsSameStore store.old store.new }
{
    let number = match store.read_value(cell, NUMBER) {
        Ok(value) => number_in(&value),
        Err(fault) => return Err(refused(fault)),
    };
    match store.read_value(cell, NEXT) {
        Ok(value) => Ok((number, value.handle())),
        Err(fault) => Err(refused(fault)),
    }
}

/// The numbers of a list. Each cell but the first gets a scoped root.
pub(crate) fn walk<H: GcHeap, D: Drop>(
    alloc: Global,
    store: &mut Store<H, D>,
    first: Option<GcRootIndex>,
) -> Result<Vec<i64>, ListFault>
    requires { IsListIn D H.KIND store.old first }
    ensures walks { (t : Table D) (a : Account) (xs : List ℤ) → HoldsAccount H.KIND store.old t a → StandsForList store.old t first xs
        → MatchResult result (λ numbers. WalkedAll H.KIND t a xs numbers.items store.new) (λ fault. StopsWalk H.KIND t a xs fault store.new) }
    ensures same { IsSameStore store.old store.new }
{
    let mut numbers = Vec::new(alloc);
    let mut here = first;
    for _ in 0..u64::MAX {
        match here {
            Some(cell) => match step(store, cell) {
                Ok((number, next)) => match numbers.push(number) {
                    Ok(()) => here = next,
                    Err(_) => return Err(ListFault::Memory),
                },
                Err(fault) => return Err(fault),
            },
            None => return Ok(numbers),
        }
    }
    // So many numbers fit no memory.
    Err(ListFault::Memory)
}
