//! Images that are loaded into a new store, and saved from there.

ghost use Rattle.std.specs.Prelude.{◌≡◌, ℕ};
ghost use Rattle.gc_store.specs.Stores.{HoldsStart};
ghost use Rattle.gc_view.specs.Heaps.{detached};

use gc_copying::CopyingHeap;
use gc_drc::DrcHeap;
use gc_heap::{GcHeap, NullHeap};
use gc_load_image::{LoadFault, load_image};
use gc_refs::I31;
use gc_save_image::{SaveFault, save_image};
use gc_store::{HeapConfig, PageLimit, Store, StoreId};
use std::alloc::{AllocError, Global};

/// The id of each store.
const STORE: StoreId = StoreId {
    engine: 0,
    number: 0,
};

/// How many scoped roots a store may have with ample room.
const AMPLE_ROOTS: u32 = 16_777_216;

/// The most roots that a crowded store gets.
const CROWD: usize = 64;

/// How many pages a heap may have with ample room.
const AMPLE_PAGES: u32 = 64;

/// How many heaps an image goes through with ample room: so many that each kind hands it to each other.
const ALL_STOPS: usize = 7;

/// How many it goes through else: one of each kind.
const EACH_KIND: usize = 3;

/// What is done to a store before it is saved.
#[derive(Clone, Copy)]
enum Between {
    Nothing,
    /// It gets as many further scoped roots as it may have.
    Crowd,
    /// A function type is declared, which no image holds.
    DeclareFunc,
}

/// What a store is like into which an image is loaded, what is done to it before it is saved, and through how many heaps the image goes.
#[derive(Clone, Copy)]
pub(crate) struct Setup {
    max_scoped: u32,
    most_pages: u32,
    between: Between,
    pub(crate) stops: usize,
}

/// What a trip came to.
#[derive(Drop)]
pub(crate) enum Trip {
    Saved(Vec<u8>),
    NotLoaded(LoadFault),
    NotSaved(SaveFault),
}

impl Setup {
    /// One with ample room.
    pub(crate) fn ample() -> Setup {
        Setup {
            max_scoped: AMPLE_ROOTS,
            most_pages: AMPLE_PAGES,
            between: Between::Nothing,
            stops: ALL_STOPS,
        }
    }

    /// One that may have so many scoped roots, in which this is done before it is saved.
    fn with_roots(max_scoped: u32, between: Between) -> Setup {
        Setup {
            max_scoped,
            most_pages: AMPLE_PAGES,
            between,
            stops: EACH_KIND,
        }
    }

    /// One whose heap may have so many pages.
    fn with_pages(most_pages: u32) -> Setup {
        Setup {
            max_scoped: AMPLE_ROOTS,
            most_pages,
            between: Between::Nothing,
            stops: EACH_KIND,
        }
    }

    /// One by its name and a number.
    pub(crate) fn named(name: &str, number: u32) -> Option<Setup> {
        match name {
            "few" => Some(Setup::with_roots(number, Between::Nothing)),
            "crowded" => Some(Setup::with_roots(number, Between::Crowd)),
            "declares" => Some(Setup::with_roots(number, Between::DeclareFunc)),
            "pages" => Some(Setup::with_pages(number)),
            _ => None,
        }
    }
}

/// Pushes roots, until no further one may be made.
fn crowd<H: GcHeap>(store: &mut Store<H, u64>) {
    for _ in 0..CROWD {
        if store.push_i31(I31::default()).is_err() {
            return;
        }
    }
}

/// Does to a store what is to be done before it is saved.
fn prepare<H: GcHeap>(store: &mut Store<H, u64>, between: Between) {
    match between {
        Between::Nothing => {}
        Between::Crowd => crowd(store),
        Between::DeclareFunc => {
            let _declared = store.declare_func(&[], &[], None, true);
        }
    }
}

/// Loads an image into a new store, and saves it.
fn load_and_save<H: GcHeap>(
    alloc: Global,
    store: &mut Store<H, u64>,
    setup: Setup,
    bytes: &[u8],
) -> Trip
    requires { HoldsStart ℕ H.KIND store.old }
{
    let mut limiter = PageLimit::new(setup.most_pages);
    if let Err(fault) = load_image(alloc, store, &mut limiter, bytes) {
        return Trip::NotLoaded(fault);
    }
    prepare(store, setup.between);
    match save_image(alloc, store) {
        Ok(image) => Trip::Saved(image),
        Err(fault) => Trip::NotSaved(fault),
    }
}

/// A trip through that heap.
fn over<H: GcHeap + Drop>(
    alloc: Global,
    heap: H,
    setup: Setup,
    bytes: &[u8],
) -> Result<Trip, AllocError>
    requires sound { H.sound heap }
    requires empty { H.seen heap ≡ detached }
{
    let Some(config) = HeapConfig::new(0, setup.max_scoped, 16, None) else {
        return Ok(Trip::NotLoaded(LoadFault::RootsFull));
    };
    let mut store = Store::new(alloc, STORE, heap, config)?;
    let trip = load_and_save(alloc, &mut store, setup, bytes);
    drop(store);
    Ok(trip)
}

/// The trip of a stop, through a heap of its kind, and the name of that.
pub(crate) fn trip_of(
    alloc: Global,
    stop: usize,
    setup: Setup,
    bytes: &[u8],
) -> Result<(&'static str, Trip), AllocError> {
    match stop {
        1 | 5 => Ok(("counting", over(alloc, DrcHeap::new(alloc), setup, bytes)?)),
        2 | 4 => Ok(("null", over(alloc, NullHeap::new(alloc), setup, bytes)?)),
        _ => Ok((
            "copying",
            over(alloc, CopyingHeap::new(alloc), setup, bytes)?,
        )),
    }
}
