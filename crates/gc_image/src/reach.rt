//! Whether the globals of an image reach all its objects. The objects that are found to be reached stand in a list, first those
//! that the globals hold; what each of them names is put behind it, where it isn't marked as found.

ghost use Rattle.std.specs.Prelude.{◌≡◌, ◌<◌, ◌↔◌, ℕ, IsTrue, IfOk, Some, length, slice_get, true};
ghost use Rattle.gc_image.specs.Steps.{Finds, none_found};
ghost use Rattle.gc_image.specs.Well.{GlobalsReachAll, GlobalHolds, NamesByNumber, number_named};

use crate::image::{GlobalLine, ImageValue, ObjectLine};
use crate::objects::{number_named, values_of};
use std::alloc::{AllocError, Global};
use std::marker::Model;

/// The objects that were found: each is marked, and stands in the list once.
#[derive(Drop)]
struct Found {
    marked: Vec<bool>,
    numbers: Vec<usize>,
}

impl Model for Found {
    ghost use Rattle.gc_image.specs.Steps.{FoundParts};

    ghost Value = { FoundParts };

    ghost view = { λ f. record { marked = f.marked.items; numbers = f.numbers.items } };
}

/// Whether the globals reach each object. Takes time linear in the values, and memory for a mark and a number for each object.
pub(crate) fn are_reached(
    alloc: Global,
    objects: &[ObjectLine],
    globals: &[GlobalLine],
) -> Result<bool, AllocError>
    ensures { IfOk result (λ all. IsTrue all ↔ GlobalsReachAll objects.now globals.now) }
{
    let mut found = find_held(alloc, objects.len(), globals)?;
    let mut next = 0;
    while next < found.numbers.len() {
        let number = found.numbers[next];
        find_named(&mut found, objects, number)?;
        next += 1;
    }
    Ok(are_all(found.marked.as_slice()))
}

/// Finds what the globals hold, of so many objects.
fn find_held(alloc: Global, count: usize, globals: &[GlobalLine]) -> Result<Found, AllocError>
    ensures { IfOk result (λ found. Finds (GlobalHolds globals.now) (none_found count) found) }
{
    let mut found = Found {
        marked: vec![in alloc; false; count]?,
        numbers: Vec::new(alloc),
    };
    for global in globals {
        find(&mut found, &global.value)?;
    }
    Ok(found)
}

/// Finds what an object names.
fn find_named(found: &mut Found, objects: &[ObjectLine], number: usize) -> Result<(), AllocError>
    ensures { IfOk result (λ _. Finds (NamesByNumber objects.now number) found.old found.new) }
{
    let Some(line) = objects.get(number) else {
        return Ok(());
    };
    let values = values_of(line);
    for value in values {
        find(found, value)?;
    }
    Ok(())
}

/// Finds the object that a value names, where it wasn't found before.
fn find(found: &mut Found, value: &ImageValue) -> Result<(), AllocError>
    ensures { IfOk result (λ _. Finds (λ p. number_named value.now ≡ Some p) found.old found.new) }
{
    let Some(number) = number_named(value) else {
        return Ok(());
    };
    if number >= found.marked.len() {
        return Ok(());
    }
    if found.marked[number] {
        return Ok(());
    }
    found.marked[number] = true;
    found.numbers.push(number)?;
    Ok(())
}

/// Whether each object is marked.
fn are_all(marked: &[bool]) -> bool
    ensures { IsTrue result ↔ ((p : ℕ) → p < length marked.now → slice_get marked.now p ≡ Some true) }
{
    for is_marked in marked {
        if !*is_marked {
            return false;
        }
    }
    true
}
