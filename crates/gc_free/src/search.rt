//! The search in ordered runs.
ghost use Rattle.std.specs.Prelude.{◌≡◌, length};
ghost use Rattle.std.specs.List.Sorted.{IsNonDecreasingBy};
ghost use Rattle.gc_free.specs.Orders.{key_of, count_below, IsSearched, HasSearched};

use crate::key::{Key, Order};
use crate::run::Run;
use gc_steps::Steps;
use std::sync::ledger::Ledger;

/// How many of the ordered runs stand before `key`.
pub(crate) fn count_before<L: Ledger>(
    runs: &[Run],
    order: Order,
    key: Key,
    steps: &mut Steps<L>,
) -> usize
    requires { IsNonDecreasingBy (key_of order) runs.now }
    ensures count { result ≡ count_below (key_of order) key runs.now }
    ensures cost { IsSearched 1 (length runs.now) steps.old steps.new }
    ensures least { HasSearched (length runs.now) steps.old steps.new }
{
    let mut low = 0;
    let mut high = runs.len();
    while low < high {
        let middle = low + (high - low) / 2;
        if Key::new(order, runs[middle]).is_before(key, steps) {
            low = middle + 1;
        } else {
            high = middle;
        }
    }
    low
}
