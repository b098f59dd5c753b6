//! What the roots name is taken into the report.

ghost use Rattle.std.specs.Prelude.{◌≡◌, ◌+◌, ℕ, List, [], Some, OnOk, slice_get, sum_by};
ghost use Rattle.gc_store.specs.OwnedWords.{HoldsThere};
ghost use Rattle.gc_store.specs.RootWords.{root_words};
ghost use Rattle.gc_store.specs.Staying.{OnlyAdds};
ghost use Rattle.gc_store.specs.Stores.{IsSameStore};
ghost use Rattle.gc_store.specs.declared.root_words.RootWord.{RootWord};
ghost use Rattle.gc_paths.specs.Answers.{LacksRoots, present_count};
ghost use Rattle.gc_paths.specs.Parts.{parts, empty_parts};
ghost use Rattle.gc_paths.specs.Progress.{AnswersPart, Basis, SearchGoesOn, IsStartWord, Progress, TellsRoot, TellsStarts, word_count};
ghost use Rattle.gc_paths.specs.Reports.{Told};
ghost use Rattle.gc_paths.specs.StartWords.{is_start_name};
ghost use Rattle.gc_paths.specs.Walks.{start_references};

use crate::entry::PathParent;
use crate::fault::PathFault;
use crate::report::Report;
use crate::taking::{refused, take};
use gc_heap::GcHeap;
use gc_store::laws::stores_hold_tables;
use gc_store::{RootAt, RootName, Store};

/// Whether paths begin from that root, where so many scoped roots stood when the search began.
fn is_start(name: &RootName, scoped: bool, mark: usize) -> bool
    ensures { result ≡ is_start_name scoped mark name.now }
{
    match name {
        RootName::Global(_) => true,
        RootName::Pending => true,
        RootName::Slot { .. } => true,
        RootName::Owned(_) => true,
        RootName::Scoped(index) => scoped && (*index as usize) < mark,
    }
}

/// Takes what the root word of that number names.
fn take_root<H: GcHeap, D: Drop>(
    store: &mut Store<H, D>,
    report: &mut Report,
    number: u64,
) -> Result<(), PathFault>
    ensures takes { (b : Basis D) (told : List Told) (count : ℕ) (w : RootWord) → Progress H.KIND b told 0 count store.old (parts report.old)
        → slice_get (root_words store.old) number ≡ Some w → IsStartWord b w
        → AnswersPart H.KIND b (SearchGoesOn H.KIND b told 0 (count + word_count w) store.new (parts report.new) (TellsRoot b w))
        (LacksRoots b.table (count + word_count w)) result store.new }
    ensures adds { OnOk result (OnlyAdds store.old store.new) }
    ensures same { IsSameStore store.old store.new }
{
    stores_hold_tables(store);
    match store.root_at(number) {
        Ok(RootAt::End) => Ok(()),
        Ok(RootAt::Null) => Ok(()),
        Ok(RootAt::Root(name, handle)) => {
            take(store, report, handle, PathParent::FromRoot(name), 0)
        }
        Err(fault) => Err(refused(fault)),
    }
}

/// Takes what all roots name from which paths begin. Those that are pushed on the way stand behind them.
pub(crate) fn take_roots<H: GcHeap, D: Drop>(
    store: &mut Store<H, D>,
    report: &mut Report,
    scoped: bool,
) -> Result<(), PathFault>
    requires { parts report.old ≡ empty_parts }
    ensures takes { (b : Basis D) → b.scoped ≡ scoped → HoldsThere H.KIND store.old b.table b.place b.account
        → AnswersPart H.KIND b (SearchGoesOn H.KIND b [] 0 (present_count (start_references b.scoped b.table)) store.new (parts report.new) (TellsStarts b))
        (LacksRoots b.table (present_count (start_references b.scoped b.table))) result store.new }
    ensures same { IsSameStore store.old store.new }
{
    let mark = store.enter_gc_lifo_scope();
    for number in 0..u64::MAX {
        match store.root_name(number) {
            Some(name) if is_start(&name, scoped, mark) => take_root(store, report, number)?,
            _ => return Ok(()),
        }
    }
    // So many roots fit no memory.
    Err(PathFault::Memory)
}
