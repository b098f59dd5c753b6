//! A shortest path to one object.

ghost use Rattle.std.specs.Prelude.{◌≡◌, ◌<◌, ℕ, true, false, Err, IfOk, MatchOption, MatchResult, length, nat_eq, position};
ghost use Rattle.gc_model.specs.Holds.{HoldsTable, Placing};
ghost use Rattle.gc_model.specs.Table.{Table};
ghost use Rattle.gc_model.specs.Values.{at, small};
ghost use Rattle.gc_model.specs.Accounts.{Account};
ghost use Rattle.gc_store.specs.OwnedWords.{HoldsThere};
ghost use Rattle.gc_store.specs.Roots.{NamesNothing, NamesReference, is_of_store};
ghost use Rattle.gc_store.specs.Stores.{IsSameStore};
ghost use Rattle.gc_paths.specs.Answers.{OnlyPushed, RefusesPaths};
ghost use Rattle.gc_paths.specs.Faults.{search_fault};
ghost use Rattle.gc_paths.specs.declared.entry.PathEntry.{PathEntry};
ghost use Rattle.gc_paths.specs.Targets.{AreEarlier, FindsPath, LeadsNowhere, PathOf, behind_parent};

use crate::entry::{PathEntry, PathParent};
use crate::fault::PathFault;
use crate::search::all_paths;
use gc_heap::GcHeap;
use gc_store::laws::stores_hold_tables;
use gc_store::{GcRootIndex, RootFault, Store};
use std::alloc::{AllocError, Global};

/// A store's refusal as one of these calls.
fn refused(fault: RootFault) -> PathFault
    ensures { result ≡ search_fault fault }
{
    match fault {
        RootFault::WrongStore => PathFault::WrongStore,
        RootFault::Unrooted => PathFault::Unrooted,
        RootFault::RootsFull => PathFault::RootsFull,
        RootFault::Memory => PathFault::Memory,
    }
}

/// The entry, with the one before it as its parent.
fn behind_parent(here: PathEntry, index: u32) -> PathEntry
    requires { 0 < here.length }
    ensures { result ≡ behind_parent here.word here.length index }
{
    PathEntry {
        word: here.word,
        parent: PathParent::FromEntry {
            entry: here.length - 1,
            index,
        },
        length: here.length,
    }
}

/// The number of the entry of the object with that word.
fn number_of(entries: &[PathEntry], word: u32) -> Option<usize>
    ensures { result ≡ position (λ (e : PathEntry). nat_eq e.word word) entries.now }
{
    entries.iter().position(|entry| entry.word == word)
}

/// The path to the object of that entry of a report, each entry the parent of the next.
fn path_in(alloc: Global, entries: &[PathEntry], last: usize) -> Result<Vec<PathEntry>, AllocError>
    requires within { last < length entries.now }
    requires earlier { AreEarlier entries.now }
    ensures { IfOk result (λ path. PathOf entries.now last path.items) }
{
    let mut path = Vec::new(alloc);
    let mut number = last;
    loop {
        let here = entries[number];
        match here.parent {
            PathParent::FromRoot(_) => {
                path.extend_from_slice(&[here])?;
                path.reverse();
                return Ok(path);
            }
            PathParent::FromEntry { entry, index } => {
                path.extend_from_slice(&[behind_parent(here, index)])?;
                number = entry as usize;
            }
        }
    }
}

/// A shortest path from a root to the object that a handle names: the entries from the root on, each the parent of the next,
/// whose numbers in it are their places. Scoped roots are none from which it begins. None where there is no path.
///
/// `WrongStore` where the handle is another store's, `Unrooted` where it isn't live, `NoObject` where it names a 31-bit
/// number; then `RootsFull` and `Memory` as `all_paths`, whose time it takes.
pub fn path_to<H: GcHeap, D: Drop>(
    alloc: Global,
    store: &mut Store<H, D>,
    target: GcRootIndex,
) -> Result<Option<Vec<PathEntry>>, PathFault>
    ensures wrong_store { is_of_store store.old target ≡ false → result ≡ Err PathFault.WrongStore }
    ensures gone { is_of_store store.old target ≡ true → (t : Table D) → HoldsTable H.KIND store.old t → NamesNothing store.old t target
        → result ≡ Err PathFault.Unrooted }
    ensures number { (t : Table D) (n : ℕ) → HoldsTable H.KIND store.old t → NamesReference store.old t target (small n)
        → result ≡ Err PathFault.NoObject }
    ensures answers { (t : Table D) (place : Placing) (a : Account) (p : ℕ) → HoldsThere H.KIND store.old t place a
        → NamesReference store.old t target (at p)
        → MatchResult result (λ found. MatchOption found (LeadsNowhere t p) (λ path. FindsPath t place p path.items)) (RefusesPaths false t) }
    ensures leaves { (t : Table D) (place : Placing) (a : Account) → HoldsThere H.KIND store.old t place a
        → OnlyPushed H.KIND t place a store.new }
    ensures same { IsSameStore store.old store.new }
{
    stores_hold_tables(store);
    let word = match store.word(target) {
        Ok(word) => word,
        Err(fault) => return Err(refused(fault)),
    };
    if word % 2 == 1 {
        return Err(PathFault::NoObject);
    }
    let entries = match all_paths(alloc, store, false) {
        Ok(entries) => entries,
        Err(fault) => return Err(fault),
    };
    match number_of(&entries, word) {
        Some(last) => match path_in(alloc, &entries, last) {
            Ok(path) => Ok(Some(path)),
            Err(_) => Err(PathFault::Memory),
        },
        None => Ok(None),
    }
}
