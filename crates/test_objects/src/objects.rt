//! Objects and references by typed handles: made, read and written.

ghost use Rattle.std.specs.Prelude.{ℕ, IfOk};
ghost use Rattle.gc_types.specs.declared.kind.VMGcKind.{VMGcKind};
ghost use Rattle.gc_store.specs.Kinds.{NamesKind};

use crate::fault::{Result, RunFault};
use crate::page::Page;
use crate::setup::{
    BYTES, MIXED, REFERENCES, ample, arrays, as_array, as_struct, function, new_exception,
    new_host, new_struct,
};
use gc_heap::GcHeap;
use gc_objects::{AnyRef, ArrayRef, ExnRef, ExternRef, StoreExn, StructRef, ThrowFault, Val};
use gc_refs::I31;
use gc_rooted::{OwnedRooted, Rooted, ref_eq};
use gc_store::Store;

/// No reference of class any.
pub(crate) const NULL: Val = Val::AnyRef(None);

/// The index of the reference among the fields of a mixed struct, of the function, and of the continuation.
const REFERENCE: usize = 2;

const FUNCTION: usize = 3;

const CONTINUATION: usize = 4;

/// How many fields a mixed struct has.
const FIELDS: usize = 5;

/// A new mixed struct.
fn new_mixed<H: GcHeap>(store: &mut Store<H, u64>) -> Result<Rooted<StructRef>>
    ensures { IfOk result (λ handle. NamesKind ℕ H.KIND store.new VMGcKind.StructRef handle.index) }
{
    let values = [
        Val::I32(-1),
        Val::I64(5),
        NULL,
        function(7),
        Val::ContRef(Some(7)),
    ];
    new_struct(store, MIXED, &values)
}

/// Reads each field of a struct, and one that there isn't.
pub(crate) fn run_fields<H: GcHeap>(page: &mut Page, store: &mut Store<H, u64>) -> Result<()> {
    for index in 0..FIELDS + 1 {
        let made = new_mixed(store)?;
        let value = StructRef::field(store, &made, index);
        writeln!(page, "field {index}: {value:?}");
    }
    Ok(())
}

/// Gives a field another value, collects, and reads it.
fn write_field<H: GcHeap>(
    page: &mut Page,
    store: &mut Store<H, u64>,
    index: usize,
    value: Val,
) -> Result<()> {
    let made = new_mixed(store)?;
    StructRef::set_field(store, &made, index, value)?;
    store.gc();
    let made = as_struct(store, made)?;
    let value = StructRef::field(store, &made, index);
    writeln!(page, "field {index} is written: {value:?}");
    Ok(())
}

/// Gives fields other values: a number that is too wide, of which the low bits are kept; functions; and continuations.
pub(crate) fn run_writes<H: GcHeap>(page: &mut Page, store: &mut Store<H, u64>) -> Result<()> {
    let writes = [
        (0, Val::I32(510)),
        (FUNCTION, function(8)),
        (FUNCTION, Val::FuncRef(None)),
        (CONTINUATION, Val::ContRef(Some(7))),
        (CONTINUATION, Val::ContRef(Some(u64::MAX))),
        (CONTINUATION, Val::ContRef(None)),
    ];
    for (index, value) in writes {
        write_field(page, store, index, value)?;
    }
    Ok(())
}

/// A struct whose field names the struct itself.
pub(crate) fn run_circle<H: GcHeap>(page: &mut Page, store: &mut Store<H, u64>) -> Result<()> {
    let made = new_mixed(store)?;
    let itself = made.cast::<AnyRef>();
    StructRef::set_field(store, &made, REFERENCE, Val::AnyRef(Some(itself)))?;
    let made = as_struct(store, made)?;
    let Ok(Val::AnyRef(Some(found))) = StructRef::field(store, &made, REFERENCE) else {
        return Err(RunFault::NoReference);
    };
    let same = ref_eq(store, &itself, &found);
    writeln!(page, "the struct itself: {same:?}");
    Ok(())
}

/// An array of bytes, of which one is written, read one by one and as a whole.
pub(crate) fn run_bytes<H: GcHeap>(page: &mut Page, store: &mut Store<H, u64>) -> Result<()> {
    let allocator = arrays(store, BYTES)?;
    let made = ArrayRef::new_from_i8_slice(store, &mut ample(), &allocator, &[0, 255, 127])?;
    ArrayRef::set(store, &made, 0, Val::I32(510))?;
    let made = as_array(store, made)?;
    let mut bytes = [1; 3];
    ArrayRef::copy_to_i8_slice(store, &made, &mut bytes)?;
    let second = ArrayRef::get(store, &made, 1);
    writeln!(page, "bytes {bytes:?}, element 1: {second:?}");
    Ok(())
}

/// An array that is filled with a 31-bit number.
pub(crate) fn run_numbers<H: GcHeap>(page: &mut Page, store: &mut Store<H, u64>) -> Result<()> {
    let five = Val::AnyRef(Some(AnyRef::from_i31(store, I31::wrapping_u32(5))?));
    let allocator = arrays(store, REFERENCES)?;
    let made = ArrayRef::new(store, &mut ample(), &allocator, &five, 1000)?;
    let Ok(Val::AnyRef(Some(last))) = ArrayRef::get(store, &made, 999) else {
        return Err(RunFault::NoReference);
    };
    let number = AnyRef::as_i31(store, last);
    writeln!(page, "element 999: {number:?}");
    Ok(())
}

/// Shows the host value of a reference.
fn show_data<H: GcHeap>(page: &mut Page, store: &Store<H, u64>, handle: Rooted<ExternRef>) {
    let value = ExternRef::data(store, &handle);
    writeln!(page, "host value {value:?}");
}

/// A host object, whose value is read and written.
pub(crate) fn run_hosts<H: GcHeap>(page: &mut Page, store: &mut Store<H, u64>) -> Result<()> {
    let host = new_host(store, 7)?;
    show_data(page, store, host);
    match ExternRef::data_mut(store, &host) {
        Ok(value) => *value = 8,
        Err(_) => return Err(RunFault::NoReference),
    }
    show_data(page, store, host);
    Ok(())
}

/// A 31-bit number as a reference of the embedder.
pub(crate) fn run_converted<H: GcHeap>(page: &mut Page, store: &mut Store<H, u64>) -> Result<()> {
    let five = AnyRef::from_i31(store, I31::wrapping_u32(5))?;
    let number = ExternRef::convert_any(store, five)?;
    show_data(page, store, number);
    Ok(())
}

/// An exception is asked for its tag, and read.
pub(crate) fn run_exceptions<H: GcHeap>(page: &mut Page, store: &mut Store<H, u64>) -> Result<()> {
    let made = new_exception(store, &[Val::I32(5), NULL, NULL])?;
    let tag = ExnRef::tag(store, &made);
    let first = ExnRef::field(store, &made, 0);
    writeln!(page, "{tag:?}, field 0: {first:?}");
    Ok(())
}

/// Takes the pending exception, and says whether there was one.
fn is_taken<H: GcHeap>(store: &mut Store<H, u64>) -> bool {
    matches!(store.take_pending_exception(), Ok(Some(_)))
}

/// An exception is thrown, and taken once.
pub(crate) fn run_thrown<H: GcHeap>(page: &mut Page, store: &mut Store<H, u64>) -> Result<()> {
    let made = new_exception(store, &[Val::I32(5), NULL, NULL])?;
    let thrown: Result<u64, ThrowFault> = store.throw(made);
    let taken = [is_taken(store), is_taken(store)];
    writeln!(page, "throw: {thrown:?}, taken: {taken:?}");
    Ok(())
}

/// Gives a handle up, and says whether it was this store's.
fn is_given_up<H: GcHeap>(store: &mut Store<H, u64>, handle: OwnedRooted<AnyRef>) -> bool {
    handle.unroot(store).is_ok()
}

/// An owned root stands behind a collection until the second of its handles is given up.
pub(crate) fn run_owned<H: GcHeap>(page: &mut Page, store: &mut Store<H, u64>) -> Result<()> {
    let early = AnyRef::from_i31(store, I31::wrapping_u32(4))?.to_owned_rooted(store)?;
    let late = early.clone_in(store)?;
    let first = is_given_up(store, early);
    store.gc();
    let again = late.to_rooted(store)?;
    let given_up = [first, is_given_up(store, late)];
    let number = AnyRef::as_i31(store, again);
    writeln!(page, "{number:?}, given up: {given_up:?}");
    Ok(())
}
