//! Inserts into a map of heap objects, one behind the other.

ghost use Rattle.std.specs.Prelude.{◌≡◌, ◌+◌, ◌≤◌, IfOk, OnErr};
ghost use Rattle.gc_store.specs.Stores.{IsSameStore};
ghost use Rattle.gc_maps.specs.Maps.{IntMap};
ghost use Rattle.gcsh_reports.specs.Filling.{FillsUpTo, InsertGoes, HoldsProgress, HoldsWithin, begin_at, max_inserts, progress_of};

use crate::chance::next_seed;
use gc_heap::GcHeap;
use gc_lists::{Kit, ListFault};
use gc_maps::HeapMap;
use gc_store::{ResourceLimiter, Store};
use std::alloc::AllocError;

/// A map may get this many inserts.
pub const MAX_INSERTS: u32 = 100_000;

/// Keys are below this number.
const KEY_COUNT: u32 = 1000;

/// What inserts came to: the version behind those that were taken, and how many were refused.
#[derive(Debug, Drop)]
pub(crate) struct Filled {
    pub(crate) map: HeapMap,
    pub(crate) refused: u32,
}

/// Makes so many inserts, whose values are their numbers, into an empty map. Where one is taken the version before is given
/// up. An error is want of memory.
pub(crate) fn fill<H: GcHeap, L: ResourceLimiter>(
    store: &mut Store<H, u64>,
    limiter: &mut L,
    kit: &Kit,
    inserts: u32,
) -> Result<Filled, AllocError>
    requires held { HoldsProgress H.KIND (L.limits limiter.old).limit kit.now (begin_at store.old (L.limits limiter.old)) }
    requires few { inserts ≤ max_inserts }
    ensures wants { OnErr result (HoldsWithin H.KIND (L.limits limiter.old).limit store.new) }
    ensures fills { IfOk result (λ filled. FillsUpTo H.KIND (L.limits limiter.old) kit.now inserts store.old inserts store.new (L.limits limiter.new)
        filled) }
    ensures same { IsSameStore store.old store.new }
{
    let mut filled = Filled {
        map: HeapMap::empty(),
        refused: 0,
    };
    let mut seed = inserts;
    for number in 0..inserts {
        seed = next_seed(seed);
        let key = i64::from(seed % KEY_COUNT);
        filled = insert(store, limiter, kit, filled, key, i64::from(number + 1))?;
    }
    Ok(filled)
}

/// Makes one insert.
fn insert<H: GcHeap, L: ResourceLimiter>(
    store: &mut Store<H, u64>,
    limiter: &mut L,
    kit: &Kit,
    filled: Filled,
    key: i64,
    value: i64,
) -> Result<Filled, AllocError>
    requires held { (m : IntMap) × HoldsProgress H.KIND (L.limits limiter.old).limit kit.now (progress_of store.old (L.limits limiter.old) filled m) }
    requires few { filled.refused ≤ max_inserts }
    ensures wants { OnErr result (HoldsWithin H.KIND (L.limits limiter.old).limit store.new) }
    ensures goes { IfOk result (λ after. (m : IntMap)
        → HoldsProgress H.KIND (L.limits limiter.old).limit kit.now (progress_of store.old (L.limits limiter.old) filled m)
        → InsertGoes H.KIND (L.limits limiter.old).limit kit.now key value (progress_of store.old (L.limits limiter.old) filled m) store.new
        (L.limits limiter.new) after) }
    ensures limit { (L.limits limiter.new).limit ≡ (L.limits limiter.old).limit }
    ensures few { IfOk result (λ after. after.refused ≤ filled.refused + 1) }
    ensures same { IsSameStore store.old store.new }
{
    match filled.map.insert(kit, store, limiter, key, value) {
        Ok(map) => match filled.map.release(store) {
            Ok(()) => Ok(Filled {
                map,
                refused: filled.refused,
            }),
            Err(_) => Err(AllocError),
        },
        Err(ListFault::RootsFull) => Ok(count_refusal(filled)),
        Err(ListFault::HeapOutOfMemory(_)) => Ok(count_refusal(filled)),
        Err(ListFault::WrongStore) => Err(AllocError),
        Err(ListFault::Memory) => Err(AllocError),
    }
}

/// One more insert was refused, so that the version stays.
fn count_refusal(filled: Filled) -> Filled
    requires { filled.refused ≤ max_inserts }
    ensures { result ≡ record filled { refused = filled.refused + 1 } }
{
    Filled {
        map: filled.map,
        refused: filled.refused + 1,
    }
}
