//! How many steps the increments of a collection took. Only clauses read it.

ghost use Rattle.std.specs.Prelude.{ℕ, ◌≡◌, ◌+◌, ◌-◌};
ghost use Rattle.std.specs.Borrow.{ftrue};

use gc_steps::Steps;
use std::marker::Model;
use std::sync::ledger::Ledger;

/// A number of steps, which takes no memory.
#[derive(Drop)]
pub(crate) struct Ticks {
    pub(crate) ghost count: { ℕ },
}

impl Model for Ticks {
    ghost also_owns = { λ _. ftrue };
}

impl Ticks {
    /// No steps.
    pub(crate) fn none() -> Ticks
        ensures { result.count ≡ 0 }
    {
        Ticks {}
    }

    /// As many as a counter has.
    pub(crate) fn of<G: Ledger>(_steps: &Steps<G>) -> Ticks
        ensures { result.count ≡ _steps.now }
    {
        Ticks {}
    }

    /// So many more as there were between two others.
    pub(crate) fn after(&self, _before: &Ticks, _now: &Ticks) -> Ticks
        ensures { result.count ≡ self.now.count + (_now.now.count - _before.now.count) }
    {
        Ticks {}
    }
}
