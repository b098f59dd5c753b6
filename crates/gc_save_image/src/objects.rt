//! The line of one object.

ghost use Rattle.std.specs.Prelude.{◌≡◌, ◌<◌, ◌^◌, ◌+◌, ℕ, List, Err, IfOk, MatchOption, OnErr, Some, length, slice_get};
ghost use Rattle.std.specs.List.{AllByRecursion};
ghost use Rattle.gc_types.specs.Declarable.{AreDeclared};
ghost use Rattle.gc_model.specs.Holds.{HoldsTable};
ghost use Rattle.gc_model.specs.Reach.{object_values};
ghost use Rattle.gc_model.specs.Table.{Table};
ghost use Rattle.gc_model.specs.Values.{Object, at};
ghost use Rattle.gc_store.specs.Bytes.{CanCopyBytes};
ghost use Rattle.gc_store.specs.Roots.{IsObject, NamesReference};
ghost use Rattle.gc_store.specs.Stores.{IsSameStore};
ghost use Rattle.gc_store.specs.Values.{IsLive};
ghost use Rattle.gc_paths.specs.Progress.{Basis, values_count};
ghost use Rattle.gc_save_image.specs.Parts.{found_handles};
ghost use Rattle.gc_save_image.specs.Progress.{AnswersImagePart, HasAllLines, IsImageBegun, ImagePassesRoom, ImageProgress};
ghost use Rattle.gc_save_image.specs.Steps.{CanTakeObjectLine, CanTakeKind, IsBytesLine, IsNumberedObject, IsWordsLine, IsOfBytes, NoBytes, TakesObjectLine};

use crate::collect_fault::CollectFault;
use crate::found::Found;
use crate::reading::take_values;
use gc_commands::ByteText;
use gc_heap::GcHeap;
use gc_image::{ImageValue, ImageValues, ObjectLine};
use gc_paths::count_values;
use gc_store::{GcRootIndex, RootedObject, Store};
use gc_types::VMSharedTypeIndex;
use std::alloc::Global;

/// The type and the length of an array whose elements are bytes.
fn bytes_type<H: GcHeap>(
    store: &Store<H, u64>,
    object: &RootedObject,
) -> Option<(VMSharedTypeIndex, u32)>
    ensures finds { MatchOption result (NoBytes store.now.types object.now) (IsOfBytes store.now.types object.now) }
    ensures declared { AreDeclared store.now.types }
{
    let types = store.types();
    types.are_declared();
    match object {
        RootedObject::Array(ty, len) => match types.array_elem(*ty) {
            Some(element) if element.element_type.is_i8() => Some((*ty, *len)),
            _ => None,
        },
        _ => None,
    }
}

/// The number that a host object has.
fn host_number<H: GcHeap>(store: &Store<H, u64>, handle: GcRootIndex) -> u64
    requires { IsLive ℕ H.KIND store.now handle }
    ensures { (t : Table ℕ) (p number : ℕ) → HoldsTable H.KIND store.now t → NamesReference store.now t handle (at p)
        → slice_get t.objects p ≡ Some (Object.host number) → result ≡ number }
{
    match store.host_data(handle) {
        Ok(Some(number)) => *number,
        Ok(None) => 0,
        Err(_) => 0,
    }
}

/// The line of an object that is no array of bytes, with the words of its values. A small integer has none.
fn words_line<H: GcHeap>(
    store: &Store<H, u64>,
    handle: GcRootIndex,
    object: RootedObject,
    words: Vec<ImageValue>,
) -> ObjectLine
    requires { IsLive ℕ H.KIND store.now handle }
    ensures { (t : Table ℕ) (p : ℕ) → HoldsTable H.KIND store.now t → NamesReference store.now t handle (at p) → IsObject (slice_get t.objects p) object
        → IsWordsLine (slice_get t.objects p) words.items result }
{
    match object {
        RootedObject::I31(_) => ObjectLine::Host { number: 0 },
        RootedObject::Struct(ty) => ObjectLine::Struct {
            ty: ty.as_u32(),
            values: ImageValues::from_vec(words),
        },
        RootedObject::Array(ty, _) => ObjectLine::Array {
            ty: ty.as_u32(),
            values: ImageValues::from_vec(words),
        },
        RootedObject::Host => ObjectLine::Host {
            number: host_number(store, handle),
        },
        RootedObject::Exn(ty, tag) => ObjectLine::Exn {
            ty: ty.as_u32(),
            tag,
            values: ImageValues::from_vec(words),
        },
    }
}

/// Bytes are bytes.
fn are_bytes(bytes: &[u8])
    ensures { AllByRecursion (λ b. b < 2 ^ 8) bytes.now }
{}

/// Bytes as a line shows them.
fn text_of(bytes: Vec<u8>) -> ByteText
    ensures value { result ≡ bytes.items }
    ensures fits { AllByRecursion (λ b. b < 2 ^ 8) bytes.items }
{
    are_bytes(bytes.as_slice());
    ByteText::from_vec(bytes)
}

/// The line of an array of so many bytes.
fn bytes_line<H: GcHeap>(
    alloc: Global,
    store: &Store<H, u64>,
    handle: GcRootIndex,
    array: (VMSharedTypeIndex, u32),
) -> Result<ObjectLine, CollectFault>
    requires { CanCopyBytes ℕ H.KIND store.now handle array.1 }
    ensures ok { IfOk result (λ line. (t : Table ℕ) → HoldsTable H.KIND store.now t → IsBytesLine store.now t handle array.0 line) }
    ensures err { OnErr result (result ≡ Err CollectFault.Memory) }
{
    let mut bytes = match vec![in alloc; 0; array.1 as usize] {
        Ok(bytes) => bytes,
        Err(_) => return Err(CollectFault::Memory),
    };
    store.copy_bytes(handle, bytes.as_mut_slice());
    Ok(ObjectLine::Bytes {
        ty: array.0.as_u32(),
        bytes: text_of(bytes),
    })
}

/// Takes an object, by its number: the line that it has.
pub(crate) fn take_object<H: GcHeap>(
    alloc: Global,
    store: &mut Store<H, u64>,
    found: &mut Found,
    number: usize,
) -> Result<ObjectLine, CollectFault>
    requires { CanTakeObjectLine ℕ H.KIND store.old (found_handles found.old) number }
    ensures takes { (b : Basis ℕ) (told : List ℕ) (start : ℕ) (o : Object ℕ) → ImageProgress H.KIND b told start store.old (found_handles found.old)
        → IsNumberedObject b told number o → TakesObjectLine H.KIND b told start o result store.new (found_handles found.new) }
    ensures same { IsSameStore store.old store.new }
{
    let handle = found.handles[number];
    match store.object(handle) {
        Ok(object) => take_kind(alloc, store, found, number, object),
        Err(_) => unreachable!(),
    }
}

/// Takes an object that is of that kind.
fn take_kind<H: GcHeap>(
    alloc: Global,
    store: &mut Store<H, u64>,
    found: &mut Found,
    number: usize,
    object: RootedObject,
) -> Result<ObjectLine, CollectFault>
    requires { CanTakeKind H.KIND store.old (found_handles found.old) number object }
    ensures takes { (b : Basis ℕ) (told : List ℕ) (start : ℕ) (o : Object ℕ) → ImageProgress H.KIND b told start store.old (found_handles found.old)
        → IsNumberedObject b told number o → IsObject (Some o) object → TakesObjectLine H.KIND b told start o result store.new (found_handles found.new) }
    ensures same { IsSameStore store.old store.new }
{
    let handle = found.handles[number];
    match bytes_type(store, &object) {
        Some(array) => bytes_line(alloc, store, handle, array),
        None => take_words(alloc, store, found, number, object),
    }
}

/// Takes an object that is no array of bytes.
fn take_words<H: GcHeap>(
    alloc: Global,
    store: &mut Store<H, u64>,
    found: &mut Found,
    number: usize,
    object: RootedObject,
) -> Result<ObjectLine, CollectFault>
    requires { CanTakeKind H.KIND store.old (found_handles found.old) number object }
    ensures takes { (b : Basis ℕ) (told : List ℕ) (start : ℕ) (o : Object ℕ) → ImageProgress H.KIND b told start store.old (found_handles found.old)
        → IsNumberedObject b told number o → IsObject (Some o) object → AreDeclared store.old.types → NoBytes store.old.types object
        → TakesObjectLine H.KIND b told start o result store.new (found_handles found.new) }
    ensures same { IsSameStore store.old store.new }
{
    let count = count_values(store, &object);
    let words = take_values(alloc, store, found, number, count)?;
    let handle = found.handles[number];
    Ok(words_line(store, handle, object, words))
}

/// Takes all objects that were found, and those that are found on the way, by their numbers.
pub(crate) fn take_objects<H: GcHeap>(
    alloc: Global,
    store: &mut Store<H, u64>,
    found: &mut Found,
) -> Result<Vec<ObjectLine>, CollectFault>
    requires { IsImageBegun H.KIND store.old (found_handles found.old) }
    ensures takes { (b : Basis ℕ) (told : List ℕ) (start : ℕ) → ImageProgress H.KIND b told start store.old (found_handles found.old)
        → AnswersImagePart H.KIND b (λ lines. HasAllLines H.KIND b told start store.new (found_handles found.new) lines.items)
        (ImagePassesRoom b start) result store.new }
    ensures same { IsSameStore store.old store.new }
{
    let mut lines = Vec::new(alloc);
    for number in 0..usize::MAX {
        if number >= found.handles.len() {
            return Ok(lines);
        }
        let line = take_object(alloc, store, found, number)?;
        if lines.push(line).is_err() {
            return Err(CollectFault::Memory);
        }
    }
    // So many objects fit no memory.
    Err(CollectFault::Memory)
}
