//! Where a block goes.
ghost use Rattle.std.specs.Prelude.{◌≡◌, ◌-◌, ◌^◌, ◌<◌, ◌≤◌, length, MatchOption};
ghost use Rattle.gc_free.specs.Runs.{end_of, IsSpread};
ghost use Rattle.gc_free.specs.Orders.{IsSearched, HasSearched};
ghost use Rattle.gc_free.specs.Placed.{with_current, place_in, place_in_shortest};

use crate::free_runs::FreeRuns;
use crate::run::Run;
use gc_steps::Steps;
use std::sync::ledger::Ledger;

/// A block, if there was room for one, and the run that is current then.
#[derive(Drop)]
pub(crate) struct Placed {
    pub block: Option<Run>,
    pub current: Option<Run>,
}

/// The current run goes back among the others, unless it was used up.
fn put_back<L: Ledger>(others: &mut FreeRuns, current: Option<Run>, steps: &mut Steps<L>)
    requires spread { IsSpread 0 (2 ^ 32 - 1) (with_current current others.old.runs) }
    requires room { length (with_current current others.old.runs) ≤ others.old.room }
    ensures others { others.new.runs ≡ with_current current others.old.runs }
    ensures room { others.old.room ≤ others.new.room }
    ensures cost { IsSearched 2 (length others.old.runs) steps.old steps.new }
{
    let Some(run) = current else {
        return;
    };
    if run.length == 0 {
        return;
    }
    others.insert(run, steps);
}

/// A block at the front of the shortest run that is long enough.
fn place_in_shortest<L: Ledger>(others: &mut FreeRuns, size: u32, steps: &mut Steps<L>) -> Placed
    requires { IsSpread 0 (2 ^ 32 - 1) others.old.runs }
    ensures block { result.block ≡ (place_in_shortest size others.old.runs).block }
    ensures current { result.current ≡ (place_in_shortest size others.old.runs).current }
    ensures others { others.new.runs ≡ (place_in_shortest size others.old.runs).others }
    ensures room { others.new.room ≡ others.old.room }
    ensures cost { IsSearched 2 (length others.old.runs) steps.old steps.new }
    ensures least { HasSearched (length others.old.runs) steps.old steps.new }
{
    let Some(run) = others.take_shortest(size, steps) else {
        return Placed {
            block: None,
            current: None,
        };
    };
    Placed {
        block: Some(run.front(size)),
        current: run.rest(size).if_any(),
    }
}

/// A block at the front of the current run where it is long enough, and else of the shortest.
pub(crate) fn place<L: Ledger>(
    others: &mut FreeRuns,
    current: Option<Run>,
    size: u32,
    steps: &mut Steps<L>,
) -> Placed
    requires spread { IsSpread 0 (2 ^ 32 - 1) (with_current current others.old.runs) }
    requires room { length (with_current current others.old.runs) ≤ others.old.room }
    requires fits { MatchOption current (Unit {0}) (λ c. end_of c < 2 ^ 32) }
    ensures block { result.block ≡ (place_in size current others.old.runs).block }
    ensures current { result.current ≡ (place_in size current others.old.runs).current }
    ensures others { others.new.runs ≡ (place_in size current others.old.runs).others }
    ensures room { others.old.room ≤ others.new.room }
    ensures cost { IsSearched 4 (length (with_current current others.old.runs)) steps.old steps.new }
    ensures least { MatchOption current (Unit {0}) (λ c. c.length < size) → HasSearched (length (with_current current others.old.runs)) steps.old steps.new }
{
    if let Some(run) = current {
        if size <= run.length {
            return Placed {
                block: Some(run.front(size)),
                current: Some(run.rest(size)),
            };
        }
    }
    put_back(others, current, steps);
    place_in_shortest(others, size, steps)
}
