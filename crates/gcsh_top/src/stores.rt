//! The stores of the program.

ghost use Rattle.std.specs.Prelude.{IfOk};
ghost use Rattle.gcsh_top.specs.Chosen.{HaveDistinctIds, AreNew};

use gc_copying::CopyingHeap;
use gc_drc::DrcHeap;
use gc_heap::NullHeap;
use gc_store::{Engine, HeapConfig, Store};
use std::alloc::{AllocError, Global};

/// A store for each collector, of which a run uses one.
#[derive(Drop)]
pub struct Stores {
    pub copying: Store<CopyingHeap, u64>,
    pub counting: Store<DrcHeap, u64>,
    pub null: Store<NullHeap, u64>,
}

impl Stores {
    /// Stores with nothing in them, each with an id of its own.
    pub fn new(alloc: Global) -> Result<Stores, AllocError>
        ensures new { IfOk result AreNew }
        ensures apart { IfOk result HaveDistinctIds }
    {
        let mut engine = Engine::new(0);
        let (Some(first), Some(second), Some(third), Some(config)) = (
            engine.next_store_id(),
            engine.next_store_id(),
            engine.next_store_id(),
            HeapConfig::with_pages(0),
        ) else {
            unreachable!()
        };
        // What was made is given up by `drop`, which is proved for any type: at the end of a scope the proof here would go
        // through all that a store consists of.
        let copying = Store::new(alloc, first, CopyingHeap::new(alloc), config)?;
        let Ok(counting) = Store::new(alloc, second, DrcHeap::new(alloc), config) else {
            drop(copying);
            return Err(AllocError);
        };
        let Ok(null) = Store::new(alloc, third, NullHeap::new(alloc), config) else {
            drop((copying, counting));
            return Err(AllocError);
        };
        Ok(Stores {
            copying,
            counting,
            null,
        })
    }
}
