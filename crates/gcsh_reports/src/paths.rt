//! The report of a store.

ghost use Rattle.std.specs.Prelude.{◌≡◌, ℕ, true, IfOk, MatchResult, slice_get, string_bytes};
ghost use Rattle.gc_model.specs.Holds.{HoldsTable, Placing};
ghost use Rattle.gc_model.specs.Table.{Table};
ghost use Rattle.gc_model.specs.Values.{at};
ghost use Rattle.gc_paths.specs.Answers.{OnlyPushed, RefusesPaths};
ghost use Rattle.gc_paths.specs.Left.{FoundAll};
ghost use Rattle.gc_paths.specs.Progress.{Basis, StoppedSearch};
ghost use Rattle.gc_model.specs.Accounts.{Account};
ghost use Rattle.gc_script.specs.Shapes.{shown_object};
ghost use Rattle.gc_store.specs.OwnedWords.{HoldsThere};
ghost use Rattle.gc_store.specs.Roots.{NamesReference};
ghost use Rattle.gc_store.specs.Stores.{IsSameStore};
ghost use Rattle.gcsh_reports.specs.PathAnswers.{IsReportText};
ghost use Rattle.gcsh_reports.specs.PathLines.{lines_from};

use crate::path_lines::push_line;
use gc_commands::ReplyValue;
use gc_heap::GcHeap;
use gc_paths::{Found, PathFault, find_paths};
use gc_script::shown_root;
use gc_store::{GcRootIndex, Store};
use std::alloc::{AllocError, Global};

/// The report of the shortest paths to the objects that the roots of a store reach, scoped roots among them: a line
/// an object, by rising length.
///
/// `RootsFull` where no roots can be pushed for all that is looked at, as `gc_paths::all_paths` says. The roots that
/// were pushed are gone at the end, refused or not. Its time and memory are linear in the root words, the objects and
/// the values looked at.
pub fn path_report<H: GcHeap>(alloc: Global, store: &mut Store<H, u64>) -> Result<String, PathFault>
    ensures answers { (t : Table ℕ) (place : Placing) (a : Account) → HoldsThere H.KIND store.old t place a
        → MatchResult result (λ text. IsReportText t place (string_bytes text)) (RefusesPaths true t) }
    ensures leaves { (t : Table ℕ) (place : Placing) (a : Account) → HoldsThere H.KIND store.old t place a
        → OnlyPushed H.KIND t place a store.new }
    ensures same { IsSameStore store.old store.new }
{
    let mark = store.enter_gc_lifo_scope();
    let text = report(alloc, store);
    store.exit_gc_lifo_scope(mark);
    text
}

/// The report, whose roots are left.
fn report<H: GcHeap>(alloc: Global, store: &mut Store<H, u64>) -> Result<String, PathFault>
    ensures answers { (t : Table ℕ) (place : Placing) (a : Account) → HoldsThere H.KIND store.old t place a
        → MatchResult result (λ text. IsReportText t place (string_bytes text)) (RefusesPaths true t) }
    ensures stopped { (b : Basis ℕ) → b.scoped ≡ true → HoldsThere H.KIND store.old b.table b.place b.account → StoppedSearch H.KIND b store.new }
    ensures same { IsSameStore store.old store.new }
{
    let found = find_paths(alloc, store, true)?;
    match text_of(alloc, store, &found) {
        Ok(text) => Ok(text),
        Err(_) => Err(PathFault::Memory),
    }
}

/// The lines of what was found.
fn text_of<H: GcHeap>(
    alloc: Global,
    store: &Store<H, u64>,
    found: &Found,
) -> Result<String, AllocError>
    ensures { IfOk result (λ text. (b : Basis ℕ) (all : FoundAll H.KIND b store.now found.now) → string_bytes text ≡ lines_from b.table.objects 0 all.told) }
{
    let mut text = String::new(alloc);
    for (number, entry) in found.entries.iter().enumerate() {
        let Some(handle) = found.handles.get(number) else {
            return Ok(text);
        };
        push_line(&mut text, number, &entry.parent, value_of(store, *handle))?;
    }
    Ok(text)
}

/// The object that a handle names, as a reply shows it.
fn value_of<H: GcHeap>(store: &Store<H, u64>, handle: GcRootIndex) -> ReplyValue
    ensures { (t : Table ℕ) (p : ℕ) → HoldsTable H.KIND store.now t → NamesReference store.now t handle (at p)
        → result ≡ shown_object (slice_get t.objects p) }
{
    shown_root(store, Some(handle))
}
