//! A walk that numbers objects, each behind those that it must have from the start.

ghost use Rattle.std.specs.Prelude.{◌≡◌, ◌++◌, ◌+◌, ◌∷◌, [], ◌<◌, ℕ, ◌-◌, ◌^◌, List, Option, Some, None, true, OnOk, IfOk, length, slice_get, slice_set};
ghost use Rattle.gc_types.specs.Declarations.{Declaration};
ghost use Rattle.gc_model.specs.Stored.{value_type};
ghost use Rattle.gc_image.specs.Well.{as_object};
ghost use Rattle.gc_image_write.specs.Graphs.{early_values, value_count};
ghost use Rattle.gc_image_write.specs.Order.{early_named, is_early_in};
ghost use Rattle.gc_image_write.specs.Visiting.{Visited};
ghost use Rattle.gc_image_write.specs.Walking.{AreEarlyBelow, IsIdle, IsWalk, FinishesAlike, Onward, VisitsOne, Went, walk_parts, waiting};

use gc_image::{ObjectLine, is_early, number_named, value_type, values_of};
use gc_types::Types;
use std::alloc::{AllocError, Global};

/// Where an object stands.
#[derive(Clone, Copy, Debug, PartialEq, Eq)]
pub(crate) enum Mark {
    Unseen,
    Open,
    Numbered,
}

/// An object that waits, and the index of the value that is looked at next.
#[derive(Clone, Copy, Debug, PartialEq, Eq)]
pub(crate) struct Frame {
    pub(crate) object: usize,
    pub(crate) next: usize,
}

/// The marks of the objects, their order so far, and those that wait for what they need.
#[derive(Drop)]
pub(crate) struct Walk {
    pub(crate) marks: Vec<Mark>,
    pub(crate) order: Vec<usize>,
    pub(crate) stack: Vec<Frame>,
}

/// Whether the value of that index must be there from the start.
fn is_early_at(types: &Types, line: &ObjectLine, index: usize) -> bool
    ensures { result ≡ is_early_in (value_type types.now.declarations (as_object line.now) index) }
{
    match value_type(types, line, index) {
        Some(field) => is_early(&field),
        None => false,
    }
}

/// The object that an object must have from the start in its value of that index.
fn early_named(types: &Types, objects: &[ObjectLine], object: usize, index: usize) -> Option<usize>
    ensures { result ≡ early_named types.now.declarations objects.now object index }
{
    let line = objects.get(object)?;
    let value = values_of(line).get(index)?;
    if is_early_at(types, line, index) {
        number_named(value)
    } else {
        None
    }
}

/// How many values an object has.
fn value_count(objects: &[ObjectLine], object: usize) -> usize
    ensures counted { result ≡ value_count objects.now object }
    ensures behind { (types : List Declaration) (index y : ℕ) → early_named types objects.now object index ≡ Some y → index < result }
{
    match objects.get(object) {
        Some(line) => values_of(line).len(),
        None => 0,
    }
}

/// Opens an object that wasn't seen: it waits behind the others.
fn open(walk: &mut Walk, object: usize) -> Result<(), AllocError>
    requires { object < length walk.old.marks.items }
    ensures { OnOk result (walk_parts walk.new ≡ record {
      marks = slice_set walk.old.marks.items object Mark.Open;
      order = walk.old.order.items;
      stack = walk.old.stack.items ++ record { object = object; next = 0 } ∷ [];
    }) }
{
    walk.marks[object] = Mark::Open;
    walk.stack.extend_from_slice(&[Frame { object, next: 0 }])
}

/// Gives the next number to an object that waits no longer.
fn close(walk: &mut Walk, object: usize) -> Result<(), AllocError>
    requires { object < length walk.old.marks.items }
    ensures { OnOk result (walk_parts walk.new ≡ record {
      marks = slice_set walk.old.marks.items object Mark.Numbered;
      order = walk.old.order.items ++ object ∷ [];
      stack = walk.old.stack.items;
    }) }
{
    walk.marks[object] = Mark::Numbered;
    walk.order.push(object)?;
    Ok(())
}

/// Lets an object wait with another index.
fn wait(walk: &mut Walk, frame: Frame) -> Result<(), AllocError>
    ensures { OnOk result (walk_parts walk.new ≡ waiting (walk_parts walk.old) frame) }
{
    walk.stack.extend_from_slice(&[frame])
}

/// Lets an object wait with its next index.
fn wait_further(walk: &mut Walk, frame: Frame) -> Result<(), AllocError>
    requires { frame.next < 2 ^ 64 - 1 }
    ensures { OnOk result (walk_parts walk.new ≡ waiting (walk_parts walk.old) (record frame { next = frame.next + 1 })) }
{
    wait(
        walk,
        Frame {
            object: frame.object,
            next: frame.next + 1,
        },
    )
}

/// Looks at what the object that waits needs at its index: that is opened before it. False where that is open, so that
/// objects need each other.
fn look_at(walk: &mut Walk, frame: Frame, needed: usize) -> Result<bool, AllocError>
    requires below { needed < length walk.old.marks.items }
    requires small { frame.next < 2 ^ 64 - 1 }
    ensures went { IfOk result (λ went. (early : ℕ → ℕ → Option ℕ) → IsWalk early (waiting (walk_parts walk.old) frame)
        → early frame.object frame.next ≡ Some needed
        → Went early (waiting (walk_parts walk.old) frame) (walk_parts walk.new) went) }
    ensures leads { IfOk result (λ went. (early : ℕ → ℕ → Option ℕ) (counts : ℕ → ℕ) → IsWalk early (waiting (walk_parts walk.old) frame)
        → early frame.object frame.next ≡ Some needed → frame.next < counts frame.object → went ≡ true
        → FinishesAlike early counts (waiting (walk_parts walk.old) frame) (walk_parts walk.new)) }
{
    match walk.marks[needed] {
        Mark::Unseen => {
            wait(walk, frame)?;
            open(walk, needed)?;
            Ok(true)
        }
        Mark::Open => Ok(false),
        Mark::Numbered => {
            wait_further(walk, frame)?;
            Ok(true)
        }
    }
}

/// Goes on with an object that waited last.
fn step(
    walk: &mut Walk,
    types: &Types,
    objects: &[ObjectLine],
    frame: Frame,
) -> Result<bool, AllocError>
    requires below { AreEarlyBelow (early_named types.now.declarations objects.now) (length walk.old.marks.items) }
    requires walks { IsWalk (early_named types.now.declarations objects.now) (waiting (walk_parts walk.old) frame) }
    ensures went { IfOk result (Went (early_named types.now.declarations objects.now) (waiting (walk_parts walk.old) frame) (walk_parts walk.new)) }
    ensures leads { IfOk result (λ went. went ≡ true
        → FinishesAlike (early_named types.now.declarations objects.now) (value_count objects.now)
        (waiting (walk_parts walk.old) frame) (walk_parts walk.new)) }
{
    if frame.next >= value_count(objects, frame.object) {
        close(walk, frame.object)?;
        return Ok(true);
    }
    match early_named(types, objects, frame.object, frame.next) {
        Some(needed) => look_at(walk, frame, needed),
        None => {
            wait_further(walk, frame)?;
            Ok(true)
        }
    }
}

/// Visits an object that wasn't seen, where none waits: what it needs gets a number, and then the object itself. False where
/// objects need each other.
fn visit_unseen(
    walk: &mut Walk,
    types: &Types,
    objects: &[ObjectLine],
    object: usize,
) -> Result<bool, AllocError>
    requires below { AreEarlyBelow (early_named types.now.declarations objects.now) (length walk.old.marks.items) }
    requires idle { IsIdle (early_named types.now.declarations objects.now) (walk_parts walk.old) }
    requires unseen { slice_get walk.old.marks.items object ≡ Some Mark.Unseen }
    ensures one { IfOk result (VisitsOne (early_named types.now.declarations objects.now) (walk_parts walk.old) (walk_parts walk.new) object) }
    ensures visited { IfOk result (λ went. went ≡ true
        → Visited (early_values types.now.declarations objects.now) (object ∷ []) walk.old.order.items walk.new.order.items) }
{
    open(walk, object)?;
    for _ in 0..u64::MAX {
        match walk.stack.pop() {
            Some(frame) => {
                if !step(walk, types, objects, frame)? {
                    return Ok(false);
                }
            }
            None => return Ok(true),
        }
    }
    // No memory holds the values of so many steps.
    Err(AllocError)
}

/// Visits an object where none waits: it and what it needs get numbers, unless they have them.
pub(crate) fn visit(
    walk: &mut Walk,
    types: &Types,
    objects: &[ObjectLine],
    object: usize,
) -> Result<bool, AllocError>
    requires below { AreEarlyBelow (early_named types.now.declarations objects.now) (length walk.old.marks.items) }
    requires idle { IsIdle (early_named types.now.declarations objects.now) (walk_parts walk.old) }
    requires within { object < length walk.old.marks.items }
    ensures one { IfOk result (VisitsOne (early_named types.now.declarations objects.now) (walk_parts walk.old) (walk_parts walk.new) object) }
    ensures visited { IfOk result (λ went. went ≡ true
        → Visited (early_values types.now.declarations objects.now) (object ∷ []) walk.old.order.items walk.new.order.items) }
{
    match walk.marks[object] {
        Mark::Unseen => visit_unseen(walk, types, objects, object),
        Mark::Open => Ok(true),
        Mark::Numbered => Ok(true),
    }
}
