//! Ways down a tree, and the way back up, on which new nodes are made.

ghost use Rattle.std.specs.Prelude.{◌≡◌, ◌<◌, ℕ, ℤ, List, [], true, if◌then◌else◌, FitsSigned};
ghost use Rattle.std.specs.Int.{w64};
ghost use Rattle.std.specs.Ordering.{int_cmp, is_lt};
ghost use Rattle.std.specs.FinMap.Entries.{put};
ghost use Rattle.gc_model.specs.Table.{Table};
ghost use Rattle.gc_model.specs.Accounts.{Account, HoldsAccount};
ghost use Rattle.gc_store.specs.Stores.{IsSameStore};
ghost use Rattle.gc_lists.specs.Refusals.{CountsOn};
ghost use Rattle.gc_maps.specs.Ends.{EndsMakingNodes, EndsReading};
ghost use Rattle.gc_maps.specs.Makes.{EndsMaking};
ghost use Rattle.gc_maps.specs.Parts.{RootIs, node_of};
ghost use Rattle.gc_maps.specs.Paths.{away, TwoTreesIn, Descended, FoundIn, HasChildren, IsBuilt, Rises, RisesIn, SearchOfIn};
ghost use Rattle.gc_maps.specs.Searching.{IsSearch, SearchIn};
ghost use Rattle.gc_maps.specs.Trees.{Tree, height, pairs, IsBalanced};

use crate::finding::{MOST_HEIGHT, toward};
use crate::joining::join;
use crate::making::make_node;
use crate::part::{FoundNode, Frame, Node, Opened, Part};
use crate::reading::{find_node, give_link, give_node, part_of, word_of};
use gc_heap::GcHeap;
use gc_lists::{Kit, ListFault};
use gc_store::{GcRootIndex, ResourceLimiter, Store};
use std::cmp::Ordering;

/// The word of the child of a node on the other side than that of a key which compares so with the node's.
#[inline(always)]
fn away(node: &FoundNode, order: Ordering) -> u32
    ensures { result ≡ away node.now order }
{
    match order {
        Ordering::Less => node.right,
        Ordering::Equal => node.left,
        Ordering::Greater => node.left,
    }
}

/// The frame of a step from a node to the child on whose side a key stands that compares so with the node's: `other` is a root
/// of the other child, or none where that is null.
#[inline(always)]
fn frame_of(node: &FoundNode, order: Ordering, other: Option<GcRootIndex>) -> Frame
    ensures goes_left { result.goes_left ≡ is_lt order }
    ensures key { FitsSigned w64 node.now.key → result.key ≡ node.now.key }
    ensures value { FitsSigned w64 node.now.value → result.value ≡ node.now.value }
    ensures other { result.other ≡ other }
{
    Frame {
        goes_left: order.is_lt(),
        key: node.key,
        value: node.value,
        other,
    }
}

/// A path gets room for so many frames at once: no tree of fewer than 4,180 nodes is higher, so most paths take memory once.
const USUAL_HEIGHT: usize = 16;

/// Goes from word to word down to a key, and answers its node with roots of its children, where there is one. The path takes a
/// frame for each node on the way before it, with a root of the child beside the way; no other root is made.
pub(crate) fn descend<H: GcHeap, D: Drop>(
    store: &mut Store<H, D>,
    root: Option<GcRootIndex>,
    key: i64,
    path: &mut Vec<Frame>,
) -> Result<Option<Node>, ListFault>
    requires search { SearchIn D H.KIND store.old root }
    requires begins { path.old.items ≡ [] }
    ensures descends { (t : Table D) (a : Account) (ty : ℕ) (tree : Tree) → HoldsAccount H.KIND store.old t a
        → RootIs store.old t ty root tree → IsSearch tree
        → EndsReading H.KIND 184 t (λ s u found. Descended s u ty tree key path.new.items found) result store.new }
    ensures same { IsSameStore store.old store.new }
{
    if path.reserve(USUAL_HEIGHT).is_err() {
        return Err(ListFault::Memory);
    }
    let mut here = word_of(store, root);
    for _turn in 0..MOST_HEIGHT {
        if here == 0 {
            return Ok(None);
        }
        let node = find_node(store, here);
        let order = key.cmp(&node.key);
        if order.is_eq() {
            return match give_node(store, node) {
                Ok(given) => Ok(Some(given)),
                Err(fault) => Err(fault),
            };
        }
        let other = match give_link(store, away(&node, order)) {
            Ok(other) => other,
            Err(fault) => return Err(fault),
        };
        let frame = frame_of(&node, order, other);
        if path.push(frame).is_err() {
            return Err(ListFault::Memory);
        }
        here = toward(&node, order);
    }
    Ok(None)
}

/// What is joined next on the way up: a part takes the place of the child that a frame went to.
fn opened_at(frame: Frame, part: Part, other: Part) -> Opened
    ensures left { result.left ≡ (if frame.goes_left then part else other) }
    ensures key { FitsSigned w64 frame.key → result.key ≡ frame.key }
    ensures value { FitsSigned w64 frame.value → result.value ≡ frame.value }
    ensures right { result.right ≡ (if frame.goes_left then other else part) }
{
    Opened {
        left: if frame.goes_left { part } else { other },
        key: frame.key,
        value: frame.value,
        right: if frame.goes_left { other } else { part },
    }
}

/// Makes the tree anew from a part upward: for each frame of the path, the last first, a balanced part.
pub(crate) fn rebuild<H: GcHeap, D: Drop, L: ResourceLimiter>(
    store: &mut Store<H, D>,
    limiter: &mut L,
    kit: &Kit,
    path: &mut Vec<Frame>,
    part: Part,
) -> Result<Part, ListFault>
    requires { RisesIn D H.KIND store.old kit.now.node path.old.items part }
    ensures builds { (t : Table D) (a : Account) (whole : Tree) (entries : List (ℤ × ℤ)) → HoldsAccount H.KIND store.old t a
        → IsBalanced whole → height whole < 92
        → Rises store.old t kit.now.node whole path.old.items part entries
        → EndsMakingNodes H.KIND store.old.alloc_counter kit.now 276 644 t (L.limits limiter.old) (L.limits limiter.new)
        (λ s u built. IsBuilt s u kit.now.node built entries) result store.new }
    ensures limit { (L.limits limiter.new).limit ≡ (L.limits limiter.old).limit }
    ensures counts { CountsOn (L.limits limiter.old) (L.limits limiter.new) }
    ensures same { IsSameStore store.old store.new }
{
    let mut part = part;
    for _turn in 0..MOST_HEIGHT {
        let frame = match path.pop() {
            Some(frame) => frame,
            None => return Ok(part),
        };
        let other = part_of(store, frame.other);
        part = match join(store, limiter, kit, opened_at(frame, part, other)) {
            Ok(joined) => joined,
            Err(fault) => return Err(fault),
        };
    }
    Ok(part)
}

/// Makes a node over what two roots name.
fn make_between<H: GcHeap, D: Drop, L: ResourceLimiter>(
    store: &mut Store<H, D>,
    limiter: &mut L,
    kit: &Kit,
    left: Option<GcRootIndex>,
    key: i64,
    value: i64,
    right: Option<GcRootIndex>,
) -> Result<Part, ListFault>
    requires { TwoTreesIn D H.KIND store.old kit.now.node left right }
    ensures makes { (t : Table D) (a : Account) (x y : Tree) → HoldsAccount H.KIND store.old t a → RootIs store.old t kit.now.node left x
        → RootIs store.old t kit.now.node right y → height x < 400 → height y < 400
        → EndsMaking H.KIND store.old kit.now 1 1 t (L.limits limiter.old) (L.limits limiter.new) (node_of x key value y) result store.new }
    ensures limit { (L.limits limiter.new).limit ≡ (L.limits limiter.old).limit }
    ensures counts { CountsOn (L.limits limiter.old) (L.limits limiter.new) }
    ensures same { IsSameStore store.old store.new }
{
    let left = part_of(store, left);
    let right = part_of(store, right);
    make_node(store, limiter, kit, left, key, value, right)
}

/// Makes a node over the children of what was found, over none where nothing was.
fn make_entry<H: GcHeap, D: Drop, L: ResourceLimiter>(
    store: &mut Store<H, D>,
    limiter: &mut L,
    kit: &Kit,
    found: Option<Node>,
    key: i64,
    value: i64,
) -> Result<Part, ListFault>
    requires { FoundIn D H.KIND store.old kit.now.node found }
    ensures makes { (t : Table D) (a : Account) (x y : Tree) → HoldsAccount H.KIND store.old t a → HasChildren store.old t kit.now.node found x y
        → height x < 400 → height y < 400
        → EndsMaking H.KIND store.old kit.now 1 1 t (L.limits limiter.old) (L.limits limiter.new) (node_of x key value y) result store.new }
    ensures limit { (L.limits limiter.new).limit ≡ (L.limits limiter.old).limit }
    ensures counts { CountsOn (L.limits limiter.old) (L.limits limiter.new) }
    ensures same { IsSameStore store.old store.new }
{
    match found {
        Some(node) => make_between(store, limiter, kit, node.left, key, value, node.right),
        None => make_between(store, limiter, kit, None, key, value, None),
    }
}

/// Makes the tree of a root anew, with that value for a key.
pub(crate) fn put<H: GcHeap, D: Drop, L: ResourceLimiter>(
    store: &mut Store<H, D>,
    limiter: &mut L,
    kit: &Kit,
    root: Option<GcRootIndex>,
    key: i64,
    value: i64,
) -> Result<Part, ListFault>
    requires { SearchOfIn D H.KIND store.old kit.now.node root }
    ensures puts { (t : Table D) (a : Account) (tree : Tree) → HoldsAccount H.KIND store.old t a
        → RootIs store.old t kit.now.node root tree → IsSearch tree
        → EndsMakingNodes H.KIND store.old.alloc_counter kit.now 277 829 t (L.limits limiter.old) (L.limits limiter.new)
        (λ s u part. IsBuilt s u kit.now.node part (put int_cmp key value (pairs tree))) result store.new }
    ensures limit { (L.limits limiter.new).limit ≡ (L.limits limiter.old).limit }
    ensures counts { CountsOn (L.limits limiter.old) (L.limits limiter.new) }
    ensures same { IsSameStore store.old store.new }
{
    let mut path = Vec::new(store.allocator());
    let found = match descend(store, root, key, &mut path) {
        Ok(found) => found,
        Err(fault) => return Err(fault),
    };
    let part = match make_entry(store, limiter, kit, found, key, value) {
        Ok(part) => part,
        Err(fault) => return Err(fault),
    };
    rebuild(store, limiter, kit, &mut path, part)
}
