//! The order in which an image has its objects.

ghost use Rattle.std.specs.Prelude.{◌≡◌, ◌<◌, ◌∷◌, [], ℕ, Some, true, IfOk, IfSome, IfNone, length, slice_get};
ghost use Rattle.std.specs.List.{range_with_len};
ghost use Rattle.gc_image.specs.declared.image.ImageValue.{ImageValue};
ghost use Rattle.gc_image.specs.Well.{GlobalHolds, number_named};
ghost use Rattle.gc_image_write.specs.Graphs.{early_values, graph_of, held_by, named_in, named_values};
ghost use Rattle.gc_image_write.specs.Order.{AreClosed, AreTangled, IsOrder, early_named};
ghost use Rattle.gc_image_write.specs.Visiting.{Followed, IsNumbering, Numbered, Visited};
ghost use Rattle.gc_image_write.specs.Walking.{CanVisitMore, Numbers, LeavesIdle, walk_parts};

use crate::walk::{Mark, Walk, visit};
use gc_image::{GlobalLine, ImageValue, ObjectLine, number_named, values_of};
use gc_types::Types;
use std::alloc::{AllocError, Global};

/// The objects by their new numbers: each behind those that it must have from the start. None where objects need each other so.
///
/// The globals are visited in turn. To visit an object without a number is to visit what it must have from the start, in the
/// order of its values, and then to give it the next number. After each global, whatever else the numbered objects name is
/// visited, by rising number and in the order of values; at the end, what no global reaches. Takes time and memory linear in
/// the objects and their values.
pub fn order_of(
    alloc: Global,
    types: &Types,
    objects: &[ObjectLine],
    globals: &[GlobalLine],
) -> Result<Option<Vec<usize>>, AllocError>
    requires closed { AreClosed objects.now }
    requires held { (number : ℕ) → GlobalHolds globals.now number → number < length objects.now }
    ensures some { IfOk result (λ found. IfSome found (λ order. IsOrder (early_named types.now.declarations objects.now) (length objects.now) order.items)) }
    ensures numbered { IfOk result (λ found. IfSome found (λ order.
        IsNumbering (graph_of types.now.declarations objects.now globals.now) (length objects.now) order.items)) }
    ensures none { IfOk result (λ found. IfNone found (AreTangled (early_named types.now.declarations objects.now))) }
{
    let mut walk = Walk {
        marks: vec![in alloc; Mark::Unseen; objects.len()]?,
        order: Vec::new(alloc),
        stack: Vec::new(alloc),
    };
    if !visit_globals(&mut walk, types, objects, globals)? {
        return Ok(None);
    }
    if !visit_rest(&mut walk, types, objects)? {
        return Ok(None);
    }
    Ok(Some(walk.order))
}

/// Visits what each global holds, and then whatever the numbered objects name.
fn visit_globals(
    walk: &mut Walk,
    types: &Types,
    objects: &[ObjectLine],
    globals: &[GlobalLine],
) -> Result<bool, AllocError>
    requires can { CanVisitMore (early_named types.now.declarations objects.now) (length objects.now) (walk_parts walk.old) }
    requires closed { AreClosed objects.now }
    requires held { (number : ℕ) → GlobalHolds globals.now number → number < length objects.now }
    ensures visits { IfOk result (LeavesIdle (early_named types.now.declarations objects.now) (walk_parts walk.old) (walk_parts walk.new)) }
    ensures numbered { IfOk result (λ went. went ≡ true
        → Numbered (early_values types.now.declarations objects.now) (named_values objects.now) (held_by globals.now)
        walk.old.order.items walk.new.order.items) }
{
    for global in globals {
        let from = walk.order.len();
        if !visit_value(walk, types, objects, &global.value)? {
            return Ok(false);
        }
        if !follow(walk, types, objects, from)? {
            return Ok(false);
        }
    }
    Ok(true)
}

/// Visits what the objects name whose numbers are at least `from`, until none names one without a number.
fn follow(
    walk: &mut Walk,
    types: &Types,
    objects: &[ObjectLine],
    from: usize,
) -> Result<bool, AllocError>
    requires can { CanVisitMore (early_named types.now.declarations objects.now) (length objects.now) (walk_parts walk.old) }
    requires closed { AreClosed objects.now }
    ensures visits { IfOk result (LeavesIdle (early_named types.now.declarations objects.now) (walk_parts walk.old) (walk_parts walk.new)) }
    ensures followed { IfOk result (λ went. went ≡ true → Followed (early_values types.now.declarations objects.now) (named_values objects.now) from
        walk.old.order.items walk.new.order.items) }
{
    for number in from..objects.len() {
        if number >= walk.order.len() {
            return Ok(true);
        }
        let object = walk.order[number];
        if !visit_named(walk, types, objects, object)? {
            return Ok(false);
        }
    }
    Ok(true)
}

/// Visits what an object names.
fn visit_named(
    walk: &mut Walk,
    types: &Types,
    objects: &[ObjectLine],
    object: usize,
) -> Result<bool, AllocError>
    requires can { CanVisitMore (early_named types.now.declarations objects.now) (length objects.now) (walk_parts walk.old) }
    requires closed { AreClosed objects.now }
    ensures visits { IfOk result (LeavesIdle (early_named types.now.declarations objects.now) (walk_parts walk.old) (walk_parts walk.new)) }
    ensures visited { IfOk result (λ went. went ≡ true → Visited (early_values types.now.declarations objects.now) (named_values objects.now object)
        walk.old.order.items walk.new.order.items) }
{
    match objects.get(object) {
        Some(line) => visit_values(walk, types, objects, values_of(line)),
        None => Ok(true),
    }
}

/// Visits what values name.
fn visit_values(
    walk: &mut Walk,
    types: &Types,
    objects: &[ObjectLine],
    values: &[ImageValue],
) -> Result<bool, AllocError>
    requires can { CanVisitMore (early_named types.now.declarations objects.now) (length objects.now) (walk_parts walk.old) }
    requires named { (index number : ℕ) (v : ImageValue) → slice_get values.now index ≡ Some v → number_named v ≡ Some number → number < length objects.now }
    ensures visits { IfOk result (LeavesIdle (early_named types.now.declarations objects.now) (walk_parts walk.old) (walk_parts walk.new)) }
    ensures visited { IfOk result (λ went. went ≡ true → Visited (early_values types.now.declarations objects.now) (named_in values.now)
        walk.old.order.items walk.new.order.items) }
{
    for value in values {
        if !visit_value(walk, types, objects, value)? {
            return Ok(false);
        }
    }
    Ok(true)
}

/// Visits the object that a value names, where it names one.
fn visit_value(
    walk: &mut Walk,
    types: &Types,
    objects: &[ObjectLine],
    value: &ImageValue,
) -> Result<bool, AllocError>
    requires can { CanVisitMore (early_named types.now.declarations objects.now) (length objects.now) (walk_parts walk.old) }
    requires named { (number : ℕ) → number_named value.now ≡ Some number → number < length objects.now }
    ensures visits { IfOk result (LeavesIdle (early_named types.now.declarations objects.now) (walk_parts walk.old) (walk_parts walk.new)) }
    ensures visited { IfOk result (λ went. went ≡ true → Visited (early_values types.now.declarations objects.now) (named_in (value.now ∷ []))
        walk.old.order.items walk.new.order.items) }
{
    match number_named(value) {
        Some(number) => visit(walk, types, objects, number),
        None => Ok(true),
    }
}

/// Visits each object, so that none is left without a number.
fn visit_rest(walk: &mut Walk, types: &Types, objects: &[ObjectLine]) -> Result<bool, AllocError>
    requires { CanVisitMore (early_named types.now.declarations objects.now) (length objects.now) (walk_parts walk.old) }
    ensures all { IfOk result (Numbers (early_named types.now.declarations objects.now) (length objects.now) (walk_parts walk.new)) }
    ensures visited { IfOk result (λ went. went ≡ true → Visited (early_values types.now.declarations objects.now) (range_with_len 0 (length objects.now))
        walk.old.order.items walk.new.order.items) }
{
    for object in 0..objects.len() {
        if !visit(walk, types, objects, object)? {
            return Ok(false);
        }
    }
    Ok(true)
}
