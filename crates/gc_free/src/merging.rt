//! Places that become free merge with the runs that they touch.
ghost use Rattle.std.specs.Prelude.{◌≡◌, ◌-◌, ◌^◌, ◌<◌, ◌≤◌, length, MatchOption};
ghost use Rattle.gc_free.specs.Runs.{end_of, IsSpread};
ghost use Rattle.gc_free.specs.Merged.{joined, apart_from, current_after, others_after};

use crate::free_runs::FreeRuns;
use crate::run::Run;
use gc_steps::Steps;
use std::sync::ledger::Ledger;

/// Freed places take in the other runs that touch them.
fn absorb<L: Ledger>(others: &mut FreeRuns, freed: Run, steps: &mut Steps<L>) -> Run
    requires { end_of freed < 2 ^ 32 }
    ensures whole { result ≡ joined freed others.old.runs }
    ensures rest { others.new.runs ≡ apart_from freed others.old.runs }
    ensures room { others.new.room ≡ others.old.room }
    ensures memory { others.new.memory ≡ others.old.memory }
{
    let before = others.take_up_to(freed.place, steps);
    let behind = others.take_from(freed.end(), steps);
    let whole = match before {
        Some(before) => freed.joined(before),
        None => freed,
    };
    match behind {
        Some(behind) => whole.joined(behind),
        None => whole,
    }
}

/// Puts freed places among the runs, and answers the run that is current then.
pub(crate) fn set_free<L: Ledger>(
    others: &mut FreeRuns,
    current: Option<Run>,
    freed: Run,
    steps: &mut Steps<L>,
) -> Option<Run>
    requires fits { end_of freed < 2 ^ 32 }
    requires current_fits { MatchOption current (Unit {0}) (λ c. end_of c < 2 ^ 32) }
    requires after_fits { MatchOption (current_after freed current others.old.runs) (Unit {0}) (λ c. c.length < 2 ^ 32) }
    requires spread { IsSpread 0 (2 ^ 32 - 1) (others_after freed current others.old.runs) }
    requires room { length (others_after freed current others.old.runs) ≤ others.old.room }
    ensures current { result ≡ current_after freed current others.old.runs }
    ensures others { others.new.runs ≡ others_after freed current others.old.runs }
    ensures room { others.old.room ≤ others.new.room }
    ensures memory { others.new.memory ≡ others.old.memory }
{
    if let Some(run) = current {
        if freed.touches(run) {
            let whole = absorb(others, freed, steps);
            return Some(whole.joined(run));
        }
    }
    others.merge(freed, steps);
    current
}
