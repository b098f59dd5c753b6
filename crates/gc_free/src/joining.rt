//! Freed places go in among the runs, in both orders.
ghost use Rattle.std.specs.Prelude.{◌≡◌, ◌≢◌, ◌+◌, ◌-◌, ◌^◌, ◌<◌, ◌≤◌, length, IfSome, IsNone, true, false, vec_len, vec_capacity, slice_index_or, slice_set};
ghost use Rattle.std.specs.Vec.{vec_ptr};
ghost use Rattle.std.specs.List.Sorted.{IsNonDecreasingBy};
ghost use Rattle.gc_free.specs.declared.run.Run.{Run};
ghost use Rattle.gc_free.specs.Runs.{IsSpread, end_of, insert_by, remove_by};
ghost use Rattle.gc_free.specs.Orders.{length_key, count_below};
ghost use Rattle.gc_free.specs.Merged.{merged};
ghost use Rattle.gc_free.specs.TwoOrders.{AreTwoOrders};

use crate::free_runs::{insert_in_order, put_at, remove_at};
use crate::key::{Key, Order};
use crate::run::Run;
use crate::search::count_before;
use gc_steps::Steps;
use std::sync::ledger::Ledger;

/// The run at an index, if it begins at a place.
fn run_behind(runs: &[Run], at: usize, place: u32) -> Option<Run>
    requires { at ≤ length runs.now }
    ensures found { IfSome result (λ r. (at < length runs.now) × (slice_index_or runs.now at r ≡ r) × (r.place ≡ place)) }
    ensures none { IsNone result → at < length runs.now → (d : Run) → (slice_index_or runs.now at d).place ≢ place }
{
    if at == runs.len() {
        return None;
    }
    let run = runs[at];
    if run.place != place {
        return None;
    }
    Some(run)
}

/// The run before an index, if it ends before a place.
fn run_before(runs: &[Run], at: usize, place: u32) -> Option<Run>
    requires within { at ≤ length runs.now }
    requires spread { IsSpread 0 (2 ^ 32 - 1) runs.now }
    ensures found { IfSome result (λ r. (0 < at) × (slice_index_or runs.now (at - 1) r ≡ r) × (end_of r ≡ place)) }
    ensures none { IsNone result → 0 < at → (d : Run) → end_of (slice_index_or runs.now (at - 1) d) ≢ place }
{
    if at == 0 {
        return None;
    }
    let run = runs[at - 1];
    if run.end() != place {
        return None;
    }
    Some(run)
}

/// Whether the run behind an index stands before a key.
fn is_next_before<L: Ledger>(runs: &[Run], at: usize, key: Key, steps: &mut Steps<L>) -> bool
    requires { at < length runs.now }
    ensures next { result ≡ true → (at + 1 < length runs.now) × ((d : Run) → length_key (slice_index_or runs.now (at + 1) d) < key) }
    ensures none { result ≡ false → at + 1 < length runs.now → (d : Run) → key ≤ length_key (slice_index_or runs.now (at + 1) d) }
{
    if at + 1 == runs.len() {
        return false;
    }
    Key::new(Order::ByLength, runs[at + 1]).is_before(key, steps)
}

/// A run grows in the order of lengths: those that it outgrows move one place forward.
fn grow_in_order<L: Ledger>(runs: &mut Vec<Run>, run: Run, whole: Run, steps: &mut Steps<L>)
    requires sorted { IsNonDecreasingBy length_key runs.old.items }
    requires present { count_below length_key (length_key run) runs.old.items < length runs.old.items }
    requires grows { length_key run ≤ length_key whole }
    ensures items { runs.new.items ≡ insert_by length_key whole (remove_by length_key (length_key run) runs.old.items) }
    ensures capacity { vec_capacity runs.new ≡ vec_capacity runs.old }
    ensures in_place { vec_ptr runs.new ≡ vec_ptr runs.old }
{
    let mut at = count_before(runs, Order::ByLength, Key::new(Order::ByLength, run), steps);
    let key = Key::new(Order::ByLength, whole);
    while is_next_before(runs, at, key, steps) {
        runs[at] = runs[at + 1];
        at += 1;
    }
    runs[at] = whole;
}

/// A run takes in places at an end of it.
fn grow_at<L: Ledger>(
    by_place: &mut Vec<Run>,
    by_length: &mut Vec<Run>,
    at: usize,
    whole: Run,
    steps: &mut Steps<L>,
)
    requires orders { AreTwoOrders by_place.old.items by_length.old.items }
    requires within { at < vec_len by_place.old }
    requires rank { at ≡ count_below (λ r. r.place) whole.place by_place.old.items }
    requires spread { IsSpread 0 (2 ^ 32 - 1) (slice_set by_place.old.items at whole) }
    requires grows { length_key (slice_index_or by_place.old.items at whole) ≤ length_key whole }
    ensures orders { AreTwoOrders by_place.new.items by_length.new.items }
    ensures items { by_place.new.items ≡ slice_set by_place.old.items at whole }
    ensures by_place { vec_capacity by_place.new ≡ vec_capacity by_place.old }
    ensures by_length { vec_capacity by_length.new ≡ vec_capacity by_length.old }
    ensures place_block { vec_ptr by_place.new ≡ vec_ptr by_place.old }
    ensures length_block { vec_ptr by_length.new ≡ vec_ptr by_length.old }
{
    let run = by_place[at];
    by_place[at] = whole;
    grow_in_order(by_length, run, whole, steps);
}

/// Freed places become one run with those that they touch, where so many runs stand below them.
pub(crate) fn join_at<L: Ledger>(
    by_place: &mut Vec<Run>,
    by_length: &mut Vec<Run>,
    at: usize,
    freed: Run,
    steps: &mut Steps<L>,
)
    requires orders { AreTwoOrders by_place.old.items by_length.old.items }
    requires below { at ≡ count_below (λ r. r.place) freed.place by_place.old.items }
    requires fits { end_of freed < 2 ^ 32 }
    requires spread { IsSpread 0 (2 ^ 32 - 1) (merged freed by_place.old.items) }
    requires place_room { length (merged freed by_place.old.items) ≤ vec_capacity by_place.old }
    requires length_room { length (merged freed by_place.old.items) ≤ vec_capacity by_length.old }
    ensures orders { AreTwoOrders by_place.new.items by_length.new.items }
    ensures items { by_place.new.items ≡ merged freed by_place.old.items }
    ensures by_place { vec_capacity by_place.new ≡ vec_capacity by_place.old }
    ensures by_length { vec_capacity by_length.new ≡ vec_capacity by_length.old }
    ensures place_block { vec_ptr by_place.new ≡ vec_ptr by_place.old }
    ensures length_block { vec_ptr by_length.new ≡ vec_ptr by_length.old }
{
    let before = run_before(by_place, at, freed.place);
    let behind = run_behind(by_place, at, freed.end());
    match before {
        Some(before) => match behind {
            Some(behind) => {
                let _ = remove_at(by_place, by_length, at, steps);
                let whole = freed.joined(before).joined(behind);
                grow_at(by_place, by_length, at - 1, whole, steps);
            }
            None => grow_at(by_place, by_length, at - 1, freed.joined(before), steps),
        },
        None => match behind {
            Some(behind) => grow_at(by_place, by_length, at, freed.joined(behind), steps),
            None => {
                put_at(by_place, at, freed);
                insert_in_order(by_length, Order::ByLength, freed, steps);
            }
        },
    }
}
