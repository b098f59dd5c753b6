//! Rings: nodes each of which names the next one, and all of which share one node. Whatever names the first one keeps
//! them all.

use crate::fault::GraphFault;
use crate::nodes::{
    NEXT, SHARED, add_in_scope, as_node, edge_of, follow, key_of, leave_scope, make_node, set_next,
};
use gc_heap::GcHeap;
use gc_objects::{AnyRef, StructRef, Val};
use gc_rooted::{OwnedRooted, Rooted, ref_eq};
use gc_store::{PageLimit, Store};

/// The key of the node that the nodes of a ring share.
const SHARED_KEY: i64 = -1;

/// The key of the first node of a ring.
const FIRST_KEY: i64 = 0;

/// What was seen on a walk along a ring.
#[derive(Clone, Copy, Debug)]
pub(crate) struct Seen {
    pub(crate) nodes: u32,
    /// The sum of their keys.
    pub(crate) keys: i64,
    /// How many name the node that all share.
    pub(crate) shared: u32,
}

/// A scoped root for the first node of a ring.
fn first_node<H: GcHeap>(
    store: &mut Store<H, u64>,
    first: &OwnedRooted<StructRef>,
) -> Result<Rooted<AnyRef>, GraphFault> {
    Ok(first.to_rooted(store)?.cast())
}

/// Lets the first node of a ring be the next one of itself, in a scope.
fn close_in_scope<H: GcHeap>(
    store: &mut Store<H, u64>,
    first: &OwnedRooted<StructRef>,
) -> Result<(), GraphFault> {
    let node = first_node(store, first)?;
    set_next(store, node, node)
}

/// Cuts a ring down to its first node, which is then its own next one.
pub(crate) fn cut_ring<H: GcHeap>(
    store: &mut Store<H, u64>,
    first: &OwnedRooted<StructRef>,
) -> Result<(), GraphFault> {
    let scope = store.enter_gc_lifo_scope();
    let closed = close_in_scope(store, first);
    leave_scope(store, scope);
    closed
}

/// A ring of one node, in a scope.
fn start_in_scope<H: GcHeap>(
    store: &mut Store<H, u64>,
    limiter: &mut PageLimit,
) -> Result<OwnedRooted<StructRef>, GraphFault> {
    let shared = make_node(
        store,
        limiter,
        SHARED_KEY,
        [Val::AnyRef(None), Val::AnyRef(None)],
    )?;
    let edges = [Val::AnyRef(None), Val::AnyRef(Some(shared.cast()))];
    let first = add_in_scope(store, limiter, FIRST_KEY, edges)?;
    close_in_scope(store, &first)?;
    Ok(first)
}

/// Starts a ring: one node, which is an entry and its own next one, and the node that all will share.
pub(crate) fn start_ring<H: GcHeap>(
    store: &mut Store<H, u64>,
    limiter: &mut PageLimit,
) -> Result<OwnedRooted<StructRef>, GraphFault> {
    let scope = store.enter_gc_lifo_scope();
    let started = start_in_scope(store, limiter);
    leave_scope(store, scope);
    started
}

/// Puts a node behind the first one, in a scope.
fn insert_in_scope<H: GcHeap>(
    store: &mut Store<H, u64>,
    limiter: &mut PageLimit,
    first: &OwnedRooted<StructRef>,
    key: i64,
) -> Result<(), GraphFault> {
    let node = first_node(store, first)?;
    let next = edge_of(store, node, NEXT)?;
    let shared = edge_of(store, node, SHARED)?;
    let made = make_node(store, limiter, key, [next, shared])?;
    set_next(store, node, made.cast())
}

/// Puts a node behind the first one of a ring. Where it can't be made, the ring is as it was.
pub(crate) fn insert<H: GcHeap>(
    store: &mut Store<H, u64>,
    limiter: &mut PageLimit,
    first: &OwnedRooted<StructRef>,
    key: i64,
) -> Result<(), GraphFault> {
    let scope = store.enter_gc_lifo_scope();
    let inserted = insert_in_scope(store, limiter, first, key);
    leave_scope(store, scope);
    inserted
}

/// Looks at a node, and goes on to the next one.
fn visit<H: GcHeap>(
    store: &mut Store<H, u64>,
    at: Rooted<AnyRef>,
    shared: Rooted<AnyRef>,
    seen: &mut Seen,
) -> Result<Rooted<AnyRef>, GraphFault> {
    let node = as_node(store, at)?;
    let key = key_of(store, &node)?;
    let other = follow(store, at, SHARED)?;
    let same = ref_eq(store, &other, &shared)?;
    seen.nodes = seen.nodes.wrapping_add(1);
    seen.keys = seen.keys.wrapping_add(key);
    seen.shared = seen.shared.wrapping_add(u32::from(same));
    follow(store, at, NEXT)
}

/// Walks along a ring of at most so many nodes, in a scope.
fn walk_in_scope<H: GcHeap>(
    store: &mut Store<H, u64>,
    first: &OwnedRooted<StructRef>,
    most: u32,
) -> Result<Seen, GraphFault> {
    let begin = first_node(store, first)?;
    let shared = follow(store, begin, SHARED)?;
    let mut seen = Seen {
        nodes: 0,
        keys: 0,
        shared: 0,
    };
    let mut at = begin;
    for _ in 0..most {
        at = visit(store, at, shared, &mut seen)?;
        if ref_eq(store, &at, &begin)? {
            return Ok(seen);
        }
    }
    Err(GraphFault::NoEnd)
}

/// Walks along a ring of at most so many nodes, once around.
pub(crate) fn walk<H: GcHeap>(
    store: &mut Store<H, u64>,
    first: &OwnedRooted<StructRef>,
    most: u32,
) -> Result<Seen, GraphFault> {
    let scope = store.enter_gc_lifo_scope();
    let seen = walk_in_scope(store, first, most);
    leave_scope(store, scope);
    seen
}
