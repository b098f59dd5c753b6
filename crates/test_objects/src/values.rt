//! The values of an object, read one by one.

ghost use Rattle.std.specs.Iterator.{IsFinite};

use crate::fault::Result;
use crate::objects::NULL;
use crate::page::Page;
use crate::setup::{RECORD, function, new_array, new_exception, new_struct};
use gc_heap::GcHeap;
use gc_objects::{ArrayRef, ExnRef, StructRef, Upcast, Val};
use gc_rooted::Rooted;
use gc_store::Store;

/// A digit for a value: a number and a function by themselves, 8 for a reference, 9 for null and 0 for any other.
fn digit_of(value: &Val) -> u64 {
    match value {
        Val::I32(number) => u64::from(number.unsigned_abs()),
        Val::FuncRef(Some(func)) => u64::from(func.number),
        Val::AnyRef(Some(_)) => 8,
        Val::AnyRef(None) => 9,
        _ => 0,
    }
}

/// The digits of all values, the first one in front.
fn digits_of<I: Iterator<Item = Val>>(values: I) -> u64
    requires can { I.can_next values }
    requires ends { IsFinite (I.remaining values) }
{
    let mut digits = 0u64;
    for value in values {
        digits = digits.wrapping_mul(10).wrapping_add(digit_of(&value));
    }
    digits
}

/// An array as a value.
fn any_of(handle: Rooted<ArrayRef>) -> Val {
    Val::AnyRef(Some(handle.to_anyref()))
}

/// A new array, as a value.
fn new_reference<H: GcHeap>(store: &mut Store<H, u64>) -> Result<Val> {
    Ok(any_of(new_array(store, &[])?))
}

/// Reads a struct of a number, a function, null and a reference.
pub(crate) fn run_struct<H: GcHeap>(page: &mut Page, store: &mut Store<H, u64>) -> Result<()> {
    let values = [Val::I32(1), function(2), NULL, new_reference(store)?];
    let made = new_struct(store, RECORD, &values)?;
    let fields = StructRef::fields(store, &made)?;
    let count = fields.len();
    let digits = digits_of(fields);
    writeln!(page, "{count} fields: {digits}");
    Ok(())
}

/// Reads an array of a reference, of null, and of the same reference.
pub(crate) fn run_array<H: GcHeap>(page: &mut Page, store: &mut Store<H, u64>) -> Result<()> {
    // (a value that is copied twice into a list gets no proof: it is made twice)
    let inner = new_array(store, &[])?;
    let values = [any_of(inner), NULL, any_of(inner)];
    let made = new_array(store, &values)?;
    let elems = ArrayRef::elems(store, &made)?;
    let count = elems.len();
    let digits = digits_of(elems);
    writeln!(page, "{count} elements: {digits}");
    Ok(())
}

/// Reads an exception of a number, of a reference, and of null.
pub(crate) fn run_exception<H: GcHeap>(page: &mut Page, store: &mut Store<H, u64>) -> Result<()> {
    let values = [Val::I32(4), new_reference(store)?, NULL];
    let made = new_exception(store, &values)?;
    let fields = ExnRef::fields(store, &made)?;
    let count = fields.len();
    let digits = digits_of(fields);
    writeln!(page, "{count} fields of an exception: {digits}");
    Ok(())
}
