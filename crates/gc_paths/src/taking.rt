//! One reference is taken into the report.

ghost use Rattle.std.specs.Prelude.{◌≡◌};
ghost use Rattle.gc_model.specs.Holds.{Holds, Placing};
ghost use Rattle.gc_model.specs.Table.{Table};
ghost use Rattle.gc_model.specs.Values.{Reference};
ghost use Rattle.gc_store.specs.Roots.{NamesReference};
ghost use Rattle.gc_store.specs.Values.{IsLive};
ghost use Rattle.gc_paths.specs.Faults.{search_fault};
ghost use Rattle.gc_paths.specs.Parts.{parts};
ghost use Rattle.gc_paths.specs.Taking.{TakesReference};

use crate::entry::{PathEntry, PathParent};
use crate::fault::PathFault;
use crate::report::Report;
use gc_heap::GcHeap;
use gc_store::{GcRootIndex, RootFault, Store};

/// A store's refusal as one of these calls.
pub(crate) fn refused(fault: RootFault) -> PathFault
    ensures { result ≡ search_fault fault }
{
    match fault {
        RootFault::WrongStore => PathFault::WrongStore,
        RootFault::Unrooted => PathFault::Unrooted,
        RootFault::RootsFull => PathFault::RootsFull,
        RootFault::Memory => PathFault::Memory,
    }
}

/// Takes a reference into the report, by the handle of a root: an object that has no entry yet gets one. The word of a
/// 31-bit number is odd, and is passed over.
pub(crate) fn take<H: GcHeap, D: Drop>(
    store: &Store<H, D>,
    report: &mut Report,
    handle: GcRootIndex,
    parent: PathParent,
    length: u32,
) -> Result<(), PathFault>
    requires { IsLive D H.KIND store.now handle }
    ensures { (t : Table D) (place : Placing) (r : Reference) → Holds H.KIND store.now t place → NamesReference store.now t handle r
        → TakesReference place r handle parent length (parts report.old) (parts report.new) result }
{
    let word = match store.word(handle) {
        Ok(word) => word,
        Err(_) => unreachable!(),
    };
    if word % 2 == 1 {
        return Ok(());
    }
    let entry = PathEntry {
        word,
        parent,
        length,
    };
    match report.add(entry, handle) {
        Ok(()) => Ok(()),
        Err(_) => Err(PathFault::Memory),
    }
}
