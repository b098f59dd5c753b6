//! The free runs other than the current one, in both orders.
ghost use Rattle.std.specs.Prelude.{◌≡◌, ◌-◌, ◌^◌, ◌<◌, ◌≤◌, [], length, OnOk, IfSome, vec_len, vec_capacity, find, slice_index_or};
ghost use Rattle.std.specs.Vec.{vec_ptr, SameBlock};
ghost use Rattle.std.specs.List.{insert, remove};
ghost use Rattle.std.specs.List.Sorted.{IsNonDecreasingBy};
ghost use Rattle.gc_free.specs.Runs.{IsSpread, end_of, insert_by, insert_run, remove_by, begins_at, ends_at, without};
ghost use Rattle.gc_free.specs.Orders.{key_of, count_below, shortest_fit, IsSearched, HasSearched};
ghost use Rattle.gc_free.specs.Merged.{merged};
ghost use Rattle.gc_free.specs.Ordered.{without_found};
ghost use Rattle.gc_free.specs.TwoOrders.{AreTwoOrders};

use crate::joining::join_at;
use crate::key::{Key, Order};
use crate::run::Run;
use crate::search::count_before;
use gc_steps::Steps;
use std::alloc::{AllocError, Global};
use std::marker::Model;
use std::sync::ledger::Ledger;

/// Each run stands in both orders. A clause sees the runs by rising place, how many have room,
/// and the memory that they lie in.
#[derive(Drop)]
pub(crate) struct FreeRuns {
    by_place: Vec<Run>,
    by_length: Vec<Run>,
}

impl Model for FreeRuns {
    ghost use Rattle.gc_free.specs.Ordered.{Ordered, ordered_code};

    ghost Value = { Ordered };

    ghost coded = { ordered_code };

    ghost use Rattle.std.specs.Prelude.{min, vec_capacity};
    ghost use Rattle.std.specs.Vec.{vec_ptr};
    ghost use Rattle.gc_free.specs.TwoOrders.{AreTwoOrders};

    ghost view = { λ s. record {
      runs = s.by_place.items;
      room = min (vec_capacity s.by_place) (vec_capacity s.by_length);
      memory = record {
        by_place = vec_ptr s.by_place;
        by_place_room = vec_capacity s.by_place;
        by_length = vec_ptr s.by_length;
        by_length_room = vec_capacity s.by_length;
      };
    } };

    ghost invariant = { λ s. AreTwoOrders s.by_place.items s.by_length.items };
}

/// Puts a run into an order that has room, with one search.
pub(crate) fn insert_in_order<L: Ledger>(
    runs: &mut Vec<Run>,
    order: Order,
    run: Run,
    steps: &mut Steps<L>,
)
    requires sorted { IsNonDecreasingBy (key_of order) runs.old.items }
    requires room { vec_len runs.old < vec_capacity runs.old }
    ensures items { runs.new.items ≡ insert_by (key_of order) run runs.old.items }
    ensures in_place { SameBlock runs.old runs.new }
    ensures cost { IsSearched 1 (length runs.old.items) steps.old steps.new }
{
    let at = count_before(runs, order, Key::new(order, run), steps);
    put_at(runs, at, run);
}

/// Puts a run in at an index, where there is room.
pub(crate) fn put_at(runs: &mut Vec<Run>, at: usize, run: Run)
    requires within { at ≤ vec_len runs.old }
    requires room { vec_len runs.old < vec_capacity runs.old }
    ensures items { runs.new.items ≡ insert runs.old.items at run }
    ensures in_place { SameBlock runs.old runs.new }
{
    match runs.insert(at, run) {
        Ok(()) => {}
        Err(_) => unreachable!(),
    }
}

/// Takes a run out of an order, with one search.
fn remove_in_order<L: Ledger>(runs: &mut Vec<Run>, order: Order, run: Run, steps: &mut Steps<L>)
    requires sorted { IsNonDecreasingBy (key_of order) runs.old.items }
    requires present { count_below (key_of order) (key_of order run) runs.old.items < length runs.old.items }
    ensures items { runs.new.items ≡ remove_by (key_of order) (key_of order run) runs.old.items }
    ensures capacity { vec_capacity runs.new ≡ vec_capacity runs.old }
    ensures in_place { vec_ptr runs.new ≡ vec_ptr runs.old }
    ensures cost { IsSearched 1 (length runs.old.items) steps.old steps.new }
{
    let at = count_before(runs, order, Key::new(order, run), steps);
    let _ = runs.remove(at);
}

/// Takes a run out of both orders, by its index in the order of places.
pub(crate) fn remove_at<L: Ledger>(
    by_place: &mut Vec<Run>,
    by_length: &mut Vec<Run>,
    at: usize,
    steps: &mut Steps<L>,
) -> Run
    requires orders { AreTwoOrders by_place.old.items by_length.old.items }
    requires within { at < vec_len by_place.old }
    ensures orders { AreTwoOrders by_place.new.items by_length.new.items }
    ensures run { result ≡ slice_index_or by_place.old.items at result }
    ensures items { by_place.new.items ≡ remove by_place.old.items at }
    ensures by_place { vec_capacity by_place.new ≡ vec_capacity by_place.old }
    ensures by_length { vec_capacity by_length.new ≡ vec_capacity by_length.old }
    ensures place_block { vec_ptr by_place.new ≡ vec_ptr by_place.old }
    ensures length_block { vec_ptr by_length.new ≡ vec_ptr by_length.old }
{
    let run = by_place.remove(at);
    remove_in_order(by_length, Order::ByLength, run, steps);
    run
}

impl FreeRuns {
    /// No runs, and room for none.
    pub(crate) fn new(alloc: Global) -> FreeRuns
        ensures { result.runs ≡ [] }
    {
        FreeRuns {
            by_place: Vec::new(alloc),
            by_length: Vec::new(alloc),
        }
    }

    /// Makes room for so many runs in all.
    pub(crate) fn reserve(&mut self, room: usize) -> Result<(), AllocError>
        ensures runs { self.new.runs ≡ self.old.runs }
        ensures grown { self.old.room ≤ self.new.room }
        ensures ok { OnOk result (room ≤ self.new.room) }
    {
        // Most calls find room: then neither vector is asked to grow.
        if room <= self.by_place.capacity() && room <= self.by_length.capacity() {
            return Ok(());
        }
        let missing = room.saturating_sub(self.by_place.len());
        self.by_place.reserve(missing)?;
        self.by_length.reserve(missing)?;
        Ok(())
    }

    /// Puts a run in, with two searches.
    pub(crate) fn insert<L: Ledger>(&mut self, run: Run, steps: &mut Steps<L>)
        requires room { length self.old.runs < self.old.room }
        requires spread { IsSpread 0 (2 ^ 32 - 1) (insert_run run self.old.runs) }
        ensures runs { self.new.runs ≡ insert_run run self.old.runs }
        ensures room { self.new.room ≡ self.old.room }
        ensures memory { self.new.memory ≡ self.old.memory }
        ensures cost { IsSearched 2 (length self.old.runs) steps.old steps.new }
    {
        insert_in_order(&mut self.by_place, Order::ByPlace, run, steps);
        insert_in_order(&mut self.by_length, Order::ByLength, run, steps);
    }

    /// Puts freed places in, as one run with those that they touch: with one search by place, and by length
    /// one, or two where they touch a run at both ends.
    pub(crate) fn merge<L: Ledger>(&mut self, freed: Run, steps: &mut Steps<L>)
        requires fits { end_of freed < 2 ^ 32 }
        requires room { length (merged freed self.old.runs) ≤ self.old.room }
        requires spread { IsSpread 0 (2 ^ 32 - 1) (merged freed self.old.runs) }
        ensures runs { self.new.runs ≡ merged freed self.old.runs }
        ensures room { self.new.room ≡ self.old.room }
        ensures memory { self.new.memory ≡ self.old.memory }
    {
        let at = count_before(
            &self.by_place,
            Order::ByPlace,
            Key::of_place(freed.place),
            steps,
        );
        join_at(&mut self.by_place, &mut self.by_length, at, freed, steps);
    }

    /// Takes out the run that begins at a place.
    pub(crate) fn take_from<L: Ledger>(&mut self, place: u32, steps: &mut Steps<L>) -> Option<Run>
        ensures found { result ≡ find (begins_at place) self.old.runs }
        ensures begins { IfSome result (λ r. (r.place ≡ place) × (end_of r < 2 ^ 32)) }
        ensures runs { self.new.runs ≡ without (begins_at place) self.old.runs }
        ensures room { self.new.room ≡ self.old.room }
        ensures memory { self.new.memory ≡ self.old.memory }
    {
        let at = count_before(&self.by_place, Order::ByPlace, Key::of_place(place), steps);
        if at == self.by_place.len() {
            return None;
        }
        if self.by_place[at].place != place {
            return None;
        }
        Some(remove_at(&mut self.by_place, &mut self.by_length, at, steps))
    }

    /// Takes out the run that ends before a place.
    pub(crate) fn take_up_to<L: Ledger>(&mut self, place: u32, steps: &mut Steps<L>) -> Option<Run>
        ensures found { result ≡ find (ends_at place) self.old.runs }
        ensures ends { IfSome result (λ r. end_of r ≡ place) }
        ensures runs { self.new.runs ≡ without (ends_at place) self.old.runs }
        ensures room { self.new.room ≡ self.old.room }
        ensures memory { self.new.memory ≡ self.old.memory }
    {
        let at = count_before(&self.by_place, Order::ByPlace, Key::of_place(place), steps);
        if at == 0 {
            return None;
        }
        if self.by_place[at - 1].end() != place {
            return None;
        }
        Some(remove_at(&mut self.by_place, &mut self.by_length, at - 1, steps))
    }

    /// Takes out the shortest run that is long enough, with two searches.
    pub(crate) fn take_shortest<L: Ledger>(
        &mut self,
        size: u32,
        steps: &mut Steps<L>,
    ) -> Option<Run>
        ensures found { result ≡ shortest_fit size self.old.runs }
        ensures runs { self.new.runs ≡ without_found result self.old.runs }
        ensures room { self.new.room ≡ self.old.room }
        ensures cost { IsSearched 2 (length self.old.runs) steps.old steps.new }
        ensures least { HasSearched (length self.old.runs) steps.old steps.new }
    {
        let key = Key::of_length(size);
        let at = count_before(&self.by_length, Order::ByLength, key, steps);
        if at == self.by_length.len() {
            return None;
        }
        let run = self.by_length.remove(at);
        remove_in_order(&mut self.by_place, Order::ByPlace, run, steps);
        Some(run)
    }

    /// The run that begins at a place.
    pub(crate) fn get<L: Ledger>(&self, place: u32, steps: &mut Steps<L>) -> Option<Run>
        ensures { result ≡ find (begins_at place) self.now.runs }
    {
        let at = count_before(&self.by_place, Order::ByPlace, Key::of_place(place), steps);
        if at == self.by_place.len() {
            return None;
        }
        let run = self.by_place[at];
        if run.place != place {
            return None;
        }
        Some(run)
    }

    /// The runs by rising place.
    pub(crate) fn as_slice(&self) -> &[Run]
        ensures { result.now ≡ self.now.runs }
    {
        self.by_place.as_slice()
    }
}
