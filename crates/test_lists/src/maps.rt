//! What is done with maps.

ghost use Rattle.std.specs.Prelude.{◌≡◌, ◌<◌, None, IfOk};
ghost use Rattle.gc_lists.specs.declared.kit.Kit.{Kit};
ghost use Rattle.test_lists.specs.Standing.{MapIn};

use crate::kits::{answer_name, new_kit};
use crate::page::Page;
use gc_heap::GcHeap;
use gc_lists::{Kit, ListFault};
use gc_maps::HeapMap;
use gc_refs::I31;
use gc_steps::Steps;
use gc_store::{PageLimit, Store};
use std::alloc::Global;
use std::marker::Brand;
use std::sync::ledger::{Blank, Ledger};

/// A key with the value that it gets, or none where it is removed.
type Change = (i64, Option<i64>);

/// Keys that rise, two that stand between others, and one of them a second time; so trees are balanced from either side.
const BALANCED: [Change; 10] = [
    (10, Some(10)),
    (20, Some(20)),
    (30, Some(30)),
    (40, Some(40)),
    (50, Some(50)),
    (60, Some(60)),
    (70, Some(70)),
    (25, Some(25)),
    (22, Some(22)),
    (30, Some(-3)),
];

/// Three keys, of which the middle one is removed.
const REMOVED: [Change; 4] = [(1, Some(1)), (2, Some(2)), (3, Some(3)), (2, None)];

/// A map with that value at the key.
fn put<H: GcHeap>(
    store: &mut Store<H, u64>,
    limiter: &mut PageLimit,
    kit: &Kit,
    map: &HeapMap,
    key: i64,
    value: i64,
) -> Result<HeapMap, ListFault>
    requires { MapIn H.KIND store.old kit.now map.now.root }
    ensures { IfOk result (λ made. MapIn H.KIND store.new kit.now made.root) }
{
    map.insert(kit, store, limiter, key, value)
}

/// A map without the key.
fn cut<H: GcHeap>(
    store: &mut Store<H, u64>,
    limiter: &mut PageLimit,
    kit: &Kit,
    map: &HeapMap,
    key: i64,
) -> Result<HeapMap, ListFault>
    requires { MapIn H.KIND store.old kit.now map.now.root }
    ensures { IfOk result (λ made. MapIn H.KIND store.new kit.now made.root) }
{
    map.remove(kit, store, limiter, key)
}

/// A map with that change.
fn changed<H: GcHeap>(
    store: &mut Store<H, u64>,
    limiter: &mut PageLimit,
    kit: &Kit,
    map: &HeapMap,
    change: Change,
) -> Result<HeapMap, ListFault>
    requires { MapIn H.KIND store.old kit.now map.now.root }
    ensures { IfOk result (λ made. MapIn H.KIND store.new kit.now made.root) }
{
    match change {
        (key, Some(value)) => put(store, limiter, kit, map, key, value),
        (key, None) => cut(store, limiter, kit, map, key),
    }
}

/// The map that changes make of the empty one.
fn map_of<H: GcHeap>(
    store: &mut Store<H, u64>,
    limiter: &mut PageLimit,
    kit: &Kit,
    changes: &[Change],
) -> Result<HeapMap, ListFault>
    requires { MapIn H.KIND store.old kit.now None }
    ensures { IfOk result (λ map. MapIn H.KIND store.new kit.now map.root) }
{
    let mut map = HeapMap::empty();
    for change in changes.iter() {
        map = changed(store, limiter, kit, &map, *change)?;
    }
    Ok(map)
}

/// The value of a key, by a counter of its own.
fn find_by<L: Ledger, H: GcHeap>(
    store: &mut Store<H, u64>,
    map: &HeapMap,
    key: i64,
    blank: Blank,
) -> Result<Option<i64>, ListFault>
    requires name { blank.name ≡ L.name }
    requires parts { blank.parts ≡ L.parts }
    requires some { 0 < blank.parts }
    requires map { (kit : Kit) × MapIn H.KIND store.old kit map.now.root }
    ensures { store.new ≡ store.old }
{
    let mut steps = Steps::<L>::new(blank);
    map.get(store, key, &mut steps)
}

/// The value of a key.
fn find<H: GcHeap>(
    store: &mut Store<H, u64>,
    map: &HeapMap,
    key: i64,
) -> Result<Option<i64>, ListFault>
    requires { (kit : Kit) × MapIn H.KIND store.old kit map.now.root }
    ensures { store.new ≡ store.old }
{
    find_by::<Brand, H>(store, map, key, Blank::new(1))
}

/// Shows what a map has at each key.
fn show_found<H: GcHeap>(
    page: &mut Page,
    store: &mut Store<H, u64>,
    map: &HeapMap,
    keys: &[i64],
) -> Result<(), ListFault>
    requires { (kit : Kit) × MapIn H.KIND store.old kit map.now.root }
    ensures { store.new ≡ store.old }
{
    for key in keys.iter() {
        let value = find(store, map, *key)?;
        writeln!(page, "{key}: {value:?}");
    }
    Ok(())
}

/// All entries of a map.
fn all<H: GcHeap>(
    alloc: Global,
    store: &mut Store<H, u64>,
    map: &HeapMap,
) -> Result<Vec<(i64, i64)>, ListFault>
    requires { (kit : Kit) × MapIn H.KIND store.old kit map.now.root }
{
    map.copy_out(alloc, store)
}

/// Shows what the map that changes make has at these keys, and all its entries, and gives it up.
fn run_map<H: GcHeap>(
    page: &mut Page,
    alloc: Global,
    store: &mut Store<H, u64>,
    limiter: &mut PageLimit,
    changes: &[Change],
    keys: &[i64],
) -> Result<(), ListFault> {
    let kit = new_kit(store)?;
    let map = map_of(store, limiter, &kit, changes)?;
    show_found(page, store, &map, keys)?;
    let entries = all(alloc, store, &map)?;
    writeln!(page, "all: {entries:?}");
    match map.release(store) {
        Ok(()) => Ok(()),
        Err(_) => Err(ListFault::WrongStore),
    }
}

/// Shows maps that changes make.
pub(crate) fn run_maps<H: GcHeap>(
    page: &mut Page,
    alloc: Global,
    store: &mut Store<H, u64>,
    limiter: &mut PageLimit,
) -> Result<(), ListFault> {
    let keys = [70, 22, 25, 10, 30, 60, 5, 23, 71];
    run_map(page, alloc, store, limiter, &BALANCED, &keys)?;
    run_map(page, alloc, store, limiter, &REMOVED, &[1, 3, 2])
}

/// Pushes scoped roots until so many more may be pushed.
fn leave_roots<H: GcHeap>(
    store: &mut Store<H, u64>,
    kit: &Kit,
    map: &HeapMap,
    left: u64,
) -> Result<(), ListFault>
    requires { MapIn H.KIND store.old kit.now map.now.root }
    ensures { IfOk result (λ done. MapIn H.KIND store.new kit.now map.now.root) }
{
    for _root in left..store.roots_left() {
        if store.push_i31(I31::wrapping_u32(0)).is_err() {
            return Err(ListFault::RootsFull);
        }
    }
    Ok(())
}

/// Shows what copying out a map of three keys, whose topmost node has two children, is answered where so many further scoped
/// roots may be made. It needs two.
fn run_scarce<H: GcHeap>(
    page: &mut Page,
    alloc: Global,
    store: &mut Store<H, u64>,
    limiter: &mut PageLimit,
    left: u64,
) -> Result<(), ListFault> {
    store.exit_gc_lifo_scope(0);
    let kit = new_kit(store)?;
    let map = map_of(
        store,
        limiter,
        &kit,
        &[(1, Some(1)), (2, Some(2)), (3, Some(3))],
    )?;
    leave_roots(store, &kit, &map, left)?;
    let answer = all(alloc, store, &map);
    writeln!(page, "{left} left: {}", answer_name(&answer));
    Ok(())
}

/// Copies a map out where as many scoped roots may be made as that needs, and where one less may.
pub(crate) fn run_few_roots<H: GcHeap>(
    page: &mut Page,
    alloc: Global,
    store: &mut Store<H, u64>,
    limiter: &mut PageLimit,
) -> Result<(), ListFault> {
    run_scarce(page, alloc, store, limiter, 2)?;
    run_scarce(page, alloc, store, limiter, 1)
}

/// Shows what a key in the empty map is answered.
pub(crate) fn run_first_node<H: GcHeap>(
    page: &mut Page,
    store: &mut Store<H, u64>,
    limiter: &mut PageLimit,
) -> Result<(), ListFault> {
    let kit = new_kit(store)?;
    let made = map_of(store, limiter, &kit, &[(1, Some(1))]);
    writeln!(page, "a map: {}", answer_name(&made));
    Ok(())
}
