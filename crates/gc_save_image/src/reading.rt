//! The values of one object are taken into its line.

ghost use Rattle.std.specs.Prelude.{◌≡◌, ◌+◌, ℕ, List, Some, length, slice_get};
ghost use Rattle.gc_model.specs.Reach.{object_values};
ghost use Rattle.gc_model.specs.Values.{Object, Value};
ghost use Rattle.gc_store.specs.Stores.{IsSameStore};
ghost use Rattle.gc_paths.specs.Answers.{LacksRoots};
ghost use Rattle.gc_paths.specs.Progress.{Basis, present_in_value, values_count};
ghost use Rattle.gc_save_image.specs.Parts.{found_handles};
ghost use Rattle.gc_save_image.specs.Progress.{AnswersImagePart, ImageGoesOn, ImageProgress, SaysFirst, SaysValue};
ghost use Rattle.gc_save_image.specs.Steps.{CanTakeImageValue, CanTakeValues, IsNumberedObject, collect_fault};

use crate::collect_fault::CollectFault;
use crate::found::Found;
use crate::taking::take_raw;
use gc_heap::GcHeap;
use gc_image::ImageValue;
use gc_store::{RootFault, Store};
use std::alloc::Global;

/// A store's refusal as one of these calls.
fn refused(fault: RootFault) -> CollectFault
    ensures { result ≡ collect_fault fault }
{
    match fault {
        RootFault::WrongStore => CollectFault::Memory,
        RootFault::Unrooted => CollectFault::Memory,
        RootFault::RootsFull => CollectFault::RootsFull,
        RootFault::Memory => CollectFault::Memory,
    }
}

/// Takes the value of that index of an object, by its number.
fn take_value<H: GcHeap>(
    store: &mut Store<H, u64>,
    found: &mut Found,
    number: usize,
    index: u32,
) -> Result<ImageValue, CollectFault>
    requires { CanTakeImageValue ℕ H.KIND store.old (found_handles found.old) number index }
    ensures takes { (b : Basis ℕ) (told : List ℕ) (count : ℕ) (o : Object ℕ) (v : Value)
        → ImageProgress H.KIND b told count store.old (found_handles found.old) → IsNumberedObject b told number o → slice_get (object_values o) index ≡ Some v
        → AnswersImagePart H.KIND b (λ x. ImageGoesOn H.KIND b told (count + present_in_value v) store.new (found_handles found.new)
        (λ then. SaysValue then v x))
        (LacksRoots b.table (count + present_in_value v)) result store.new }
    ensures same { IsSameStore store.old store.new }
{
    let handle = found.handles[number];
    match store.read_value(handle, index) {
        Ok(value) => take_raw(store, found, value),
        Err(fault) => Err(refused(fault)),
    }
}

/// Takes all values of an object, by its number: so many.
pub(crate) fn take_values<H: GcHeap>(
    alloc: Global,
    store: &mut Store<H, u64>,
    found: &mut Found,
    number: usize,
    count: u32,
) -> Result<Vec<ImageValue>, CollectFault>
    requires { CanTakeValues ℕ H.KIND store.old (found_handles found.old) number count }
    ensures takes { (b : Basis ℕ) (told : List ℕ) (start : ℕ) (o : Object ℕ)
        → ImageProgress H.KIND b told start store.old (found_handles found.old) → IsNumberedObject b told number o → count ≡ length (object_values o)
        → AnswersImagePart H.KIND b (λ words. ImageGoesOn H.KIND b told (start + values_count (object_values o)) store.new (found_handles found.new)
        (λ then. SaysFirst then (length (object_values o)) (object_values o) words.items))
        (LacksRoots b.table (start + values_count (object_values o))) result store.new }
    ensures same { IsSameStore store.old store.new }
{
    let mut words = Vec::new(alloc);
    for index in 0..count {
        let word = take_value(store, found, number, index)?;
        if words.extend_from_slice(&[word]).is_err() {
            return Err(CollectFault::Memory);
        }
    }
    Ok(words)
}
