//! The search of all walks, level by level: the entries are the queue.

ghost use Rattle.std.specs.Prelude.{◌≡◌, ℕ, List, MatchResult};
ghost use Rattle.gc_model.specs.Holds.{Placing};
ghost use Rattle.gc_model.specs.Table.{Table};
ghost use Rattle.gc_model.specs.Accounts.{Account};
ghost use Rattle.gc_store.specs.OwnedWords.{HoldsThere};
ghost use Rattle.gc_store.specs.Stores.{IsSameStore};
ghost use Rattle.gc_paths.specs.Answers.{OnlyPushed, RefusesPaths, Reports};
ghost use Rattle.gc_paths.specs.Left.{FoundAll};
ghost use Rattle.gc_paths.specs.Parts.{parts};
ghost use Rattle.gc_paths.specs.Progress.{AnswersPart, Basis, Ended, PassesRoom, Progress, StoppedSearch};
ghost use Rattle.gc_paths.specs.Reports.{Told};
ghost use Rattle.gc_paths.specs.Steps.{IsSearchBegun};

use crate::entry::PathEntry;
use crate::fault::PathFault;
use crate::report::Report;
use crate::roots::take_roots;
use crate::values::take_values;
use gc_heap::GcHeap;
use gc_store::laws::stores_hold_tables;
use gc_store::{GcRootIndex, Store};
use std::alloc::Global;

/// Takes the values of all objects of the report, and of those that come into it on the way.
fn take_objects<H: GcHeap, D: Drop>(
    store: &mut Store<H, D>,
    report: &mut Report,
) -> Result<(), PathFault>
    requires { IsSearchBegun D H.KIND store.old (parts report.old) }
    ensures takes { (b : Basis D) (told : List Told) (count : ℕ) → Progress H.KIND b told 0 count store.old (parts report.old)
        → AnswersPart H.KIND b (Ended H.KIND b told count store.new (parts report.new)) (PassesRoom b count) result store.new }
    ensures same { IsSameStore store.old store.new }
{
    for entry in 0..u32::MAX {
        if entry as usize >= report.entries.len() {
            return Ok(());
        }
        take_values(store, report, entry)?;
    }
    Ok(())
}

/// What is found of all walks: the entries of a report, and beside each the handle of a root of its object.
#[derive(Debug, Drop)]
pub struct Found {
    pub entries: Vec<PathEntry>,
    pub handles: Vec<GcRootIndex>,
}

/// The shortest paths as `all_paths` finds them, with a handle of each object. The roots that it pushed are left, refused
/// or not, for whoever opened the scope around it.
pub fn find_paths<H: GcHeap, D: Drop>(
    alloc: Global,
    store: &mut Store<H, D>,
    scoped: bool,
) -> Result<Found, PathFault>
    ensures finds { (b : Basis D) → b.scoped ≡ scoped → HoldsThere H.KIND store.old b.table b.place b.account
        → MatchResult result (FoundAll H.KIND b store.new) (RefusesPaths b.scoped b.table) }
    ensures stopped { (b : Basis D) → b.scoped ≡ scoped → HoldsThere H.KIND store.old b.table b.place b.account → StoppedSearch H.KIND b store.new }
    ensures same { IsSameStore store.old store.new }
{
    stores_hold_tables(store);
    let mut report = Report::new(alloc);
    take_roots(store, &mut report, scoped)?;
    take_objects(store, &mut report)?;
    let Report {
        entries,
        handles,
        words: _,
    } = report;
    Ok(Found { entries, handles })
}

/// The shortest paths from the roots to all objects to which there is one: an entry for each, by rising length, whose
/// parent stands earlier. Only where `scoped` is true are scoped roots among those from which paths begin.
///
/// `RootsFull` where no roots can be pushed for all that is looked at: one for each root, and for each reference in these
/// objects, that isn't null. The roots that were pushed are gone at the end, refused or not. Its time and memory are linear
/// in the root words, objects and values looked at.
pub fn all_paths<H: GcHeap, D: Drop>(
    alloc: Global,
    store: &mut Store<H, D>,
    scoped: bool,
) -> Result<Vec<PathEntry>, PathFault>
    ensures answers { (t : Table D) (place : Placing) (a : Account) → HoldsThere H.KIND store.old t place a
        → MatchResult result (λ found. Reports scoped t place found.items) (RefusesPaths scoped t) }
    ensures leaves { (t : Table D) (place : Placing) (a : Account) → HoldsThere H.KIND store.old t place a
        → OnlyPushed H.KIND t place a store.new }
    ensures same { IsSameStore store.old store.new }
{
    let mark = store.enter_gc_lifo_scope();
    let found = find_paths(alloc, store, scoped);
    store.exit_gc_lifo_scope(mark);
    match found {
        Ok(
            Found {
                entries,
                handles: _,
            },
        ) => Ok(entries),
        Err(fault) => Err(fault),
    }
}
