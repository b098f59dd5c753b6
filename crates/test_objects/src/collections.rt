//! Collections in increments: rounds of some work, a collection that goes so far, and what the heap holds then.

ghost use Rattle.std.specs.Prelude.{◌≡◌, ◌<◌, true};
ghost use Rattle.gc_store.specs.Collectings.{IsCollected, CountsCollection};

use crate::fault::Result;
use crate::page::Page;
use crate::setup::ample;
use gc_heap::GcHeap;
use gc_rooted::RootScope;
use gc_steps::Steps;
use gc_store::{GcRootIndex, Store};
use std::marker::Brand;
use std::mem;
use std::sync::ledger::{Blank, Ledger};

/// What becomes of a collection after its increments.
#[derive(Clone, Copy)]
enum Ending {
    /// It is dropped.
    Dropped,
    /// The rest of it is done, before it is dropped.
    Collected,
}

/// What is made before a collection, and how far that goes.
#[derive(Clone, Copy)]
pub(crate) struct Round {
    /// How many host objects are made that stay rooted.
    kept: u64,
    /// How many are made that no root names afterwards.
    littered: u64,
    increments: u64,
    ending: Ending,
}

/// A round with some garbage.
const LITTERED: Round = Round {
    kept: 0,
    littered: 3,
    increments: 0,
    ending: Ending::Dropped,
};

/// The rest of a collection is done.
const COLLECTED: Round = Round {
    ending: Ending::Collected,
    ..LITTERED
};

/// Collections that go from nowhere to one increment further than a small heap takes.
pub(crate) const ROUNDS: [Round; 10] = [
    LITTERED,
    Round {
        increments: 1,
        ..LITTERED
    },
    Round {
        increments: 2,
        ..LITTERED
    },
    Round {
        increments: 3,
        ..LITTERED
    },
    Round {
        increments: 4,
        ..LITTERED
    },
    COLLECTED,
    Round {
        increments: 1,
        ..COLLECTED
    },
    Round {
        increments: 2,
        ..COLLECTED
    },
    Round {
        increments: 3,
        ..COLLECTED
    },
    Round {
        increments: 4,
        ..COLLECTED
    },
];

/// Of a copying heap that holds one object fewer than an increment looks at, 16,384, and then as many: one increment more.
pub(crate) const MANY_ROUNDS: [Round; 2] = [
    Round {
        kept: 16_381,
        littered: 0,
        increments: 4,
        ..LITTERED
    },
    Round {
        kept: 1,
        littered: 0,
        increments: 5,
        ..LITTERED
    },
];

/// Makes so many host objects, each with a scoped root of its own.
fn place<H: GcHeap>(store: &mut Store<H, u64>, count: u64) -> Result<()> {
    for value in 0..count {
        store.place_host(&mut ample(), value)?;
    }
    Ok(())
}

/// Makes so many host objects in a scope with room for their roots, which is left.
fn litter<H: GcHeap>(store: &mut Store<H, u64>, count: u64) -> Result<()> {
    let mut scope = RootScope::new(store);
    scope.reserve(4)?;
    place(scope.store(), count)
}

/// Shows how many objects the heap holds, how many of them have host values, and the one that a handle names.
fn show_held<H: GcHeap>(page: &mut Page, store: &Store<H, u64>, kept: GcRootIndex) {
    let objects = store.held_objects();
    let values = store.held_host_values();
    let value = store.host_data(kept);
    writeln!(page, "held {objects} {values}, value {value:?}");
}

/// Starts a collection, shows what each of so many increments answers, and ends it.
fn collect<H: GcHeap + Drop>(
    page: &mut Page,
    store: &mut Store<H, u64>,
    increments: u64,
    ending: Ending,
) {
    let mut collecting = store.gc_start();
    for _ in 0..increments {
        let progress = collecting.collect_increment();
        writeln!(page, "{progress:?}");
    }
    match ending {
        Ending::Dropped => {}
        Ending::Collected => collecting.collect(),
    }
}

/// Does a round.
fn run_round<H: GcHeap + Drop>(
    page: &mut Page,
    store: &mut Store<H, u64>,
    kept: GcRootIndex,
    round: Round,
) -> Result<()> {
    place(store, round.kept)?;
    litter(store, round.littered)?;
    collect(page, store, round.increments, round.ending);
    show_held(page, store, kept);
    Ok(())
}

/// Does rounds, once a store that has no heap yet is collected and has two host objects.
pub(crate) fn run_rounds<H: GcHeap + Drop>(
    page: &mut Page,
    store: &mut Store<H, u64>,
    rounds: &[Round],
) -> Result<()> {
    collect(page, store, 1, Ending::Dropped);
    let kept = store.place_host(&mut ample(), 700)?;
    place(store, 1)?;
    for round in rounds {
        run_round(page, store, kept, *round)?;
    }
    Ok(())
}

/// Does all of a collection of a store, counted from the beginning: in a copying heap it takes one step for each object that is
/// reached, for each reference in them, and for each root word that isn't null.
fn count_whole<L: Ledger, H: GcHeap + Drop>(store: &mut Store<H, u64>, steps: &mut Steps<L>)
    ensures collected { IsCollected H.KIND store.old store.new }
    ensures counted { store.old.heap.attached ≡ true → CountsCollection H.KIND store.old 0 steps.old steps.new }
{
    let mut collecting = store.gc_start();
    collecting.collect_counted(steps);
}

/// Collects a store whole, counted by a counter of its own.
fn count_store<L: Ledger, H: GcHeap + Drop>(store: &mut Store<H, u64>, blank: Blank)
    requires name { blank.name ≡ L.name }
    requires parts { blank.parts ≡ L.parts }
    requires some { 0 < blank.parts }
{
    let mut steps = Steps::<L>::new(blank);
    count_whole(store, &mut steps);
}

/// Collects a store whole, counted, in which a root and some garbage stand.
pub(crate) fn run_counted<H: GcHeap + Drop>(
    page: &mut Page,
    store: &mut Store<H, u64>,
) -> Result<()> {
    let kept = store.place_host(&mut ample(), 700)?;
    litter(store, 3)?;
    count_store::<Brand, H>(store, Blank::new(1));
    show_held(page, store, kept);
    Ok(())
}

/// Forgets the guard of a collection: a store with nothing in it is left, which gets no root.
pub(crate) fn run_forgotten<H: GcHeap + Drop>(
    page: &mut Page,
    store: &mut Store<H, u64>,
) -> Result<()> {
    let kept = store.place_host(&mut ample(), 700)?;
    mem::forget(store.gc_start());
    show_held(page, store, kept);
    let placed = store.place_host(&mut ample(), 700).is_ok();
    writeln!(page, "placed: {placed}");
    Ok(())
}
