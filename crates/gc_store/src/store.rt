//! The store.

ghost use Rattle.std.specs.Prelude.{◌≡◌, ◌↔◌, IfOk, IsTrue};
ghost use Rattle.std.specs.Option.{option_map};
ghost use Rattle.std.specs.Int.NonZero.{non_zero_u32_get};
ghost use Rattle.gc_view.specs.Heaps.{detached};
ghost use Rattle.gc_model.specs.SideValues.{no_ids};
ghost use Rattle.gc_model.specs.Stores.{empty_store};
ghost use Rattle.gc_store.specs.Collectings.{IsSpent, spent_from};
ghost use Rattle.gc_store.specs.Stores.{HoldsStart, ShowsNothing, configured};

use crate::owned::FIRST_MARK;
use gc_heap::GcHeap;
use gc_owner::HeapOwner;
use gc_types::Types;
use gc_values::config::HeapConfig;
use gc_values::engine::StoreId;
use gc_values::interned::InternedValues;
use gc_values::subtypes::AskedPairs;
use std::alloc::{AllocError, Global};
use std::marker::Model;

/// A heap with its types and its roots. `D` is the type of the embedder's host values.
#[derive(Drop)]
pub struct Store<H: GcHeap, D: Drop> {
    pub(crate) id: StoreId,
    pub(crate) config: HeapConfig,
    pub(crate) owner: HeapOwner<H, D>,
    /// The function values and continuations that objects were given, by the ids that stand in the heap.
    pub(crate) interned: InternedValues,
    /// How many slots each open frame has, the oldest first.
    pub(crate) slot_counts: Vec<u32>,
    /// How many allocations were counted, up to the greatest u64.
    pub(crate) tries: u64,
    /// How many owned roots there are before one that is made trims them.
    pub(crate) mark: usize,
    /// Of which pairs of types the store was asked.
    pub(crate) asked: AskedPairs,
}

impl<H: GcHeap, D: Drop> Model for Store<H, D> {
    ghost use Rattle.std.specs.Prelude.{◌≡◌};
    ghost use Rattle.std.specs.Coded.{codes};
    ghost use Rattle.std.specs.FinMap as map;
    ghost use Rattle.gc_model.specs.Stores.{StoreView};

    ghost Value = { StoreView D };

    ghost coded = { Prim.hlevel (codes, map.code, D.code) };

    ghost use Rattle.gc_store.specs.Stores.{store_view, tables_of, IsSoundStore};

    ghost view = { λ s. store_view s.id s.config (tables_of s.interned s.asked) s.owner.seen s.tries };

    ghost invariant = { λ s. IsSoundStore D H.KIND s.slot_counts.items s.owner.seen
        (store_view s.id s.config (tables_of s.interned s.asked) s.owner.seen s.tries) };
}

impl<H: GcHeap + Drop, D: Drop> Store<H, D> {
    /// A store over that heap, which is not attached.
    pub fn new(
        alloc: Global,
        id: StoreId,
        heap: H,
        config: HeapConfig,
    ) -> Result<Store<H, D>, AllocError>
        requires sound { H.sound heap }
        requires empty { H.seen heap ≡ detached }
        ensures start { IfOk result (HoldsStart D H.KIND) }
        ensures seen { IfOk result (λ s. s ≡ empty_store id.engine id.number config.first_pages config.max_scoped config.max_owned
            (option_map non_zero_u32_get config.alloc_counter)) }
    {
        Ok(Store {
            id,
            config,
            owner: HeapOwner::new(alloc, heap, id.engine, id.number)?,
            interned: InternedValues::new(alloc),
            slot_counts: Vec::new(alloc),
            tries: 0,
            mark: FIRST_MARK,
            asked: AskedPairs::new(alloc),
        })
    }
}

impl<H: GcHeap, D: Drop> Store<H, D> {
    /// What stands in the place of a store while its heap is collected in increments: a store with nothing in it, of that id, which
    /// gets no root. It takes no memory.
    pub(crate) fn spent(alloc: Global, id: StoreId, config: HeapConfig) -> Store<H, D>
        ensures spent { IsSpent D H.KIND result }
        ensures seen { result ≡ spent_from (empty_store id.engine id.number config.first_pages config.max_scoped config.max_owned
            (option_map non_zero_u32_get config.alloc_counter)) }
    {
        Store {
            id,
            config,
            owner: HeapOwner::spent(alloc, id.engine, id.number),
            interned: InternedValues::new(alloc),
            slot_counts: Vec::new(alloc),
            tries: 0,
            mark: FIRST_MARK,
            asked: AskedPairs::new(alloc),
        }
    }

    /// Whether nothing was done with the store yet and no allocation was counted, so that it may be
    /// configured.
    pub fn is_new(&self) -> bool
        ensures { IsTrue result ↔ HoldsStart D H.KIND self.now }
    {
        self.owner.is_ready();
        self.is_untouched()
    }

    /// Whether there is no type, root, generation, frame, set global, pending exception, function value, continuation,
    /// memory or allocation, and no owned root was made.
    fn is_untouched(&self) -> bool
        ensures { IsTrue result ↔ ShowsNothing self.now }
    {
        self.owner.scoped().is_empty()
            && self.owner.generation() == 0
            && self.owner.types().is_empty()
            && !self.owner.is_made()
            && self.tries == 0
            && self.owner.owns() == 0
            && self.has_no_frame()
            && self.has_unset_globals()
            && self.owner.pending() == 0
            && self.has_nothing_interned()
    }

    /// Whether no function value and no continuation is interned.
    fn has_nothing_interned(&self) -> bool
        ensures { IsTrue result ↔ (self.now.ids ≡ no_ids) }
    {
        self.interned.is_empty()
    }

    /// Gives a new store another configuration.
    pub fn configure(&mut self, config: HeapConfig)
        requires { HoldsStart D H.KIND self.old }
        ensures start { HoldsStart D H.KIND self.new }
        ensures seen { self.new ≡ configured config self.old }
    {
        self.config = config;
    }

    /// The id that the store's handles and types carry.
    pub fn id(&self) -> StoreId
        ensures { result ≡ record { engine = self.now.engine; number = self.now.number } }
    {
        self.id
    }

    /// The allocator that the store was made with, which is the global one: there is no other.
    pub fn allocator(&self) -> Global
        ensures { (alloc : Global) → result ≡ alloc }
    {
        *self.slot_counts.allocator()
    }

    /// The type table, whose id is the store's.
    pub fn types(&self) -> &Types
        ensures { result.now ≡ record { engine = self.now.engine; number = self.now.number; declarations = self.now.types } }
    {
        self.owner.types()
    }
}
