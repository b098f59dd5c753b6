//! The values of one object are taken into the report.

ghost use Rattle.std.specs.Prelude.{◌≡◌, ◌+◌, ℕ, List, Some, length, slice_get};
ghost use Rattle.gc_model.specs.Holds.{HoldsTable};
ghost use Rattle.gc_model.specs.Reach.{object_values};
ghost use Rattle.gc_model.specs.Table.{Table};
ghost use Rattle.gc_model.specs.Values.{Object, Value, at};
ghost use Rattle.gc_store.specs.Roots.{NamesReference};
ghost use Rattle.gc_store.specs.Stores.{IsSameStore};
ghost use Rattle.gc_store.specs.Values.{IsLive};
ghost use Rattle.gc_paths.specs.Answers.{LacksRoots};
ghost use Rattle.gc_paths.specs.Objects.{CountsFields, CountsIn};
ghost use Rattle.gc_paths.specs.Parts.{parts};
ghost use Rattle.gc_paths.specs.Progress.{AnswersPart, Basis, SearchGoesOn, Progress, TellsValue, TellsValues, present_in_value, values_count};
ghost use Rattle.gc_paths.specs.Reports.{Told};
ghost use Rattle.gc_paths.specs.Steps.{CanTake, CanTakeValue, IsReading};

use crate::entry::PathParent;
use crate::fault::PathFault;
use crate::report::Report;
use crate::taking::{refused, take};
use gc_heap::GcHeap;
use gc_store::{GcRootIndex, RootedObject, Store};
use gc_types::VMSharedTypeIndex;

/// How many fields a struct or exception type has.
fn count_fields<H: GcHeap, D: Drop>(store: &Store<H, D>, ty: VMSharedTypeIndex) -> u32
    ensures { CountsFields store.now.types ty result }
{
    let types = store.types();
    // A declared type has few fields, so that their number is a u32.
    types.are_declared();
    match types.fields_len(ty) {
        Some(count) => count as u32,
        None => 0,
    }
}

/// How many values an object has.
pub fn count_values<H: GcHeap, D: Drop>(store: &Store<H, D>, object: &RootedObject) -> u32
    ensures { CountsIn store.now.types object.now result }
{
    match object {
        RootedObject::I31(_) => 0,
        RootedObject::Struct(ty) => count_fields(store, *ty),
        RootedObject::Array(_, len) => *len,
        RootedObject::Host => 0,
        RootedObject::Exn(ty, _) => count_fields(store, *ty),
    }
}

/// How many values the object has that a handle names.
fn count_named_values<H: GcHeap, D: Drop>(store: &Store<H, D>, handle: GcRootIndex) -> u32
    requires { IsLive D H.KIND store.now handle }
    ensures { (t : Table D) (p : ℕ) (o : Object D) → HoldsTable H.KIND store.now t → NamesReference store.now t handle (at p)
        → slice_get t.objects p ≡ Some o → result ≡ length (object_values o) }
{
    match &store.object(handle) {
        Ok(object) => count_values(store, object),
        Err(_) => unreachable!(),
    }
}

/// Takes the value of that index of an object, by the number of its entry. The walk to what it names has that length.
fn take_value<H: GcHeap, D: Drop>(
    store: &mut Store<H, D>,
    report: &mut Report,
    entry: u32,
    index: u32,
    length: u32,
) -> Result<(), PathFault>
    requires { CanTakeValue D H.KIND store.old (parts report.old) entry index }
    ensures takes { (b : Basis D) (told : List Told) (bound count : ℕ) (o : Object D) (v : Value)
        → Progress H.KIND b told bound count store.old (parts report.old) → IsReading b told bound entry o → length ≡ bound
        → slice_get (object_values o) index ≡ Some v
        → AnswersPart H.KIND b (SearchGoesOn H.KIND b told bound (count + present_in_value v) store.new (parts report.new) (TellsValue bound v))
        (LacksRoots b.table (count + present_in_value v)) result store.new }
    ensures same { IsSameStore store.old store.new }
{
    let handle = report.handles[entry as usize];
    match store.read_value(handle, index) {
        Ok(value) => match value.handle() {
            Some(found) => {
                let parent = PathParent::FromEntry { entry, index };
                take(store, report, found, parent, length)
            }
            None => Ok(()),
        },
        Err(fault) => Err(refused(fault)),
    }
}

/// Takes all values of an object, by the number of its entry.
pub(crate) fn take_values<H: GcHeap, D: Drop>(
    store: &mut Store<H, D>,
    report: &mut Report,
    entry: u32,
) -> Result<(), PathFault>
    requires { CanTake D H.KIND store.old (parts report.old) entry }
    ensures takes { (b : Basis D) (told : List Told) (bound count : ℕ) (o : Object D)
        → Progress H.KIND b told bound count store.old (parts report.old) → IsReading b told bound entry o
        → AnswersPart H.KIND b (SearchGoesOn H.KIND b told bound (count + values_count (object_values o)) store.new (parts report.new)
        (TellsValues bound (length (object_values o)) (object_values o)))
        (LacksRoots b.table (count + values_count (object_values o))) result store.new }
    ensures same { IsSameStore store.old store.new }
{
    let handle = report.handles[entry as usize];
    let length = report.entries[entry as usize].length + 1;
    for index in 0..count_named_values(store, handle) {
        take_value(store, report, entry, index, length)?;
    }
    Ok(())
}
