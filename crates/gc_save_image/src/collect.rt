//! What the globals reach is collected breadth first: the objects that were found are the queue.

ghost use Rattle.std.specs.Prelude.{ℕ, MatchResult};
ghost use Rattle.gc_model.specs.Table.{Table};
ghost use Rattle.gc_model.specs.Accounts.{Account, HoldsAccount};
ghost use Rattle.gc_store.specs.Stores.{IsSameStore};
ghost use Rattle.gc_save_image.specs.Answers.{CollectsImage, DropsImageRoots, RefusesCollection};
ghost use Rattle.gc_save_image.specs.GlobalSteps.{StoppedAt};

use crate::collect_fault::CollectFault;
use crate::found::Found;
use crate::globals::{global_lines, read_globals};
use crate::objects::take_objects;
use gc_heap::GcHeap;
use gc_image::{GlobalLine, ObjectLine};
use gc_store::Store;
use gc_store::laws::stores_hold_tables;
use std::alloc::Global;

/// What the globals of a store reach: a line for each object, by the numbers that were given in the order in which the objects were
/// found, and a line for each global that isn't null of class `Any`, by rising index.
#[derive(Debug, Drop)]
pub struct Collected {
    pub objects: Vec<ObjectLine>,
    pub globals: Vec<GlobalLine>,
}

/// Collects what the globals reach. A function and a continuation have no word: null stands in their place.
///
/// `RootsFull` where no roots can be pushed for all that is looked at: one for each reference in the globals and in these objects,
/// that isn't null. The roots that were pushed are gone at the end, refused or not. Its time and memory are linear in the objects
/// and values looked at.
pub fn collect_objects<H: GcHeap>(
    alloc: Global,
    store: &mut Store<H, u64>,
) -> Result<Collected, CollectFault>
    ensures collects { (t : Table ℕ) (a : Account) → HoldsAccount H.KIND store.old t a → MatchResult result (CollectsImage t) (RefusesCollection t) }
    ensures leaves { (t : Table ℕ) (a : Account) → HoldsAccount H.KIND store.old t a → DropsImageRoots H.KIND t a store.new }
    ensures same { IsSameStore store.old store.new }
{
    let mark = store.enter_gc_lifo_scope();
    let collected = collect_in_scope(alloc, store);
    store.exit_gc_lifo_scope(mark);
    collected
}

/// The same. The roots that it pushed are left, refused or not, for whoever opened the scope around it.
fn collect_in_scope<H: GcHeap>(
    alloc: Global,
    store: &mut Store<H, u64>,
) -> Result<Collected, CollectFault>
    ensures collects { (t : Table ℕ) (a : Account) → HoldsAccount H.KIND store.old t a → MatchResult result (CollectsImage t) (RefusesCollection t) }
    ensures stopped { (t : Table ℕ) (a : Account) → HoldsAccount H.KIND store.old t a → StoppedAt H.KIND t a store.new }
    ensures same { IsSameStore store.old store.new }
{
    stores_hold_tables(store);
    let mut found = Found::new(alloc);
    let reads = read_globals(alloc, store)?;
    let globals = global_lines(alloc, store, &mut found, reads.as_slice())?;
    let objects = take_objects(alloc, store, &mut found)?;
    Ok(Collected { objects, globals })
}
