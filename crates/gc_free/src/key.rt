//! What runs are ordered by. Only a counted comparison reads a key.
ghost use Rattle.std.specs.Prelude.{◌≡◌, ◌+◌, ◌*◌, ◌^◌, nat_lt};
ghost use Rattle.gc_free.specs.Orders.{key_of};

use crate::run::Run;
use gc_steps::Steps;
use std::marker::Model;
use std::sync::ledger::Ledger;

/// How runs are ordered.
#[derive(Clone, Copy)]
pub(crate) enum Order {
    ByPlace,
    /// By length, and by place where lengths are equal.
    ByLength,
}

/// Above every place, so that a length times this outweighs any place.
const PLACES: u64 = 1 << 32;

/// A run's place in an order.
#[derive(Clone, Copy)]
pub(crate) struct Key {
    number: u64,
}

impl Model for Key {
    ghost use Rattle.std.specs.Prelude.{ℕ};

    ghost Value = { ℕ };

    ghost view = { λ k. k.number };

    ghost inverse = { λ n. record { number = n } };
}

impl Key {
    /// The key of a run.
    pub(crate) fn new(order: Order, run: Run) -> Key
        ensures { result ≡ key_of order run }
    {
        match order {
            Order::ByPlace => Key::of_place(run.place),
            Order::ByLength => Key {
                number: run.length as u64 * PLACES + run.place as u64,
            },
        }
    }

    /// The key of a run that begins at a place, in the order of places.
    pub(crate) fn of_place(place: u32) -> Key
        ensures { result ≡ place }
    {
        Key {
            number: place as u64,
        }
    }

    /// The least key of a run of a length, in the order of lengths.
    pub(crate) fn of_length(length: u32) -> Key
        ensures { result ≡ length * 2 ^ 32 }
    {
        Key {
            number: length as u64 * PLACES,
        }
    }

    /// Whether a run with this key stands before one with the other: a comparison, which is a step.
    pub(crate) fn is_before<L: Ledger>(self, other: Key, steps: &mut Steps<L>) -> bool
        ensures answer { result ≡ nat_lt self other }
        ensures counted { steps.new ≡ steps.old + 1 }
    {
        steps.tick();
        self.number < other.number
    }
}
