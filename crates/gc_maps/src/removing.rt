//! Taking a key out of a tree.

ghost use Rattle.std.specs.Prelude.{◌≡◌, ◌<◌, ℕ, T, [], false, Some, FitsSigned};
ghost use Rattle.std.specs.Int.{w64};
ghost use Rattle.std.specs.Ordering.{int_cmp};
ghost use Rattle.std.specs.FinMap.Entries.{below_all};
ghost use Rattle.gc_model.specs.Table.{Table};
ghost use Rattle.gc_model.specs.Accounts.{Account, HoldsAccount};
ghost use Rattle.gc_store.specs.Stores.{IsSameStore};
ghost use Rattle.gc_lists.specs.Refusals.{CountsOn};
ghost use Rattle.gc_maps.specs.Ends.{EndsMakingNodes, EndsReading};
ghost use Rattle.gc_maps.specs.Gaps.{AboveIn, Closes, GapIn, IsLeastNode, others};
ghost use Rattle.gc_maps.specs.Parts.{RootIs};
ghost use Rattle.gc_maps.specs.Paths.{Descended, IsBuilt, SearchOfIn};
ghost use Rattle.gc_maps.specs.Searching.{IsSearch};
ghost use Rattle.gc_maps.specs.Trees.{Tree, height, pairs};

use crate::part::{Frame, Node, Part};
use crate::reading::part_of;
use crate::ways::{descend, rebuild};
use gc_heap::GcHeap;
use gc_lists::{Kit, ListFault};
use gc_store::{GcRootIndex, ResourceLimiter, Store};

/// Takes the least node off the way to it, in a tree whose keys are all greater than that one: the way to where that key
/// would stand ends on the left of the least node.
fn take_least<H: GcHeap, D: Drop>(
    store: &mut Store<H, D>,
    root: GcRootIndex,
    key: i64,
    path: &mut Vec<Frame>,
) -> Result<Frame, ListFault>
    requires above { AboveIn D H.KIND store.old root key }
    requires begins { path.old.items ≡ [] }
    ensures takes { (t : Table D) (a : Account) (ty : ℕ) (tree : Tree) → HoldsAccount H.KIND store.old t a
        → RootIs store.old t ty (Some root) tree → IsSearch tree → T (below_all int_cmp key (pairs tree))
        → EndsReading H.KIND 184 t (λ s u least. IsLeastNode s u ty tree path.new.items least) result store.new }
    ensures same { IsSameStore store.old store.new }
{
    match descend(store, Some(root), key, path) {
        Ok(_) => match path.pop() {
            Some(least) => Ok(least),
            // Never so: the way goes through the node of the root.
            None => Err(ListFault::Memory),
        },
        Err(fault) => Err(fault),
    }
}

/// The frame of a step to the right from a node, in whose place the least one stands then.
fn step_right(node: Node, least: Frame) -> Frame
    ensures goes_right { result.goes_left ≡ false }
    ensures key { FitsSigned w64 least.key → result.key ≡ least.key }
    ensures value { FitsSigned w64 least.value → result.value ≡ least.value }
    ensures other { result.other ≡ node.left }
{
    Frame {
        goes_left: false,
        key: least.key,
        value: least.value,
        other: node.left,
    }
}

/// Closes the gap of a node that has both children: the least pair on its right moves up, and what stands on the right of
/// that takes its place. The path leads on to there.
fn pull_up<H: GcHeap, D: Drop>(
    store: &mut Store<H, D>,
    node: Node,
    right: GcRootIndex,
    key: i64,
    path: &mut Vec<Frame>,
) -> Result<Part, ListFault>
    requires gap { GapIn D H.KIND store.old key path.old.items node }
    requires right { node.right ≡ Some right }
    ensures closes { (t : Table D) (a : Account) (ty : ℕ) (tree : Tree) → HoldsAccount H.KIND store.old t a
        → IsSearch tree → height tree < 92 → Descended store.old t ty tree key path.old.items (Some node)
        → EndsReading H.KIND 184 t (λ s u part. Closes s u ty path.new.items part (others key (pairs tree))) result store.new }
    ensures same { IsSameStore store.old store.new }
{
    let mut below = Vec::new(store.allocator());
    let least = match take_least(store, right, key, &mut below) {
        Ok(least) => least,
        Err(fault) => return Err(fault),
    };
    let step = step_right(node, least);
    if path.push(step).is_err() {
        return Err(ListFault::Memory);
    }
    if path.append(&mut below).is_err() {
        return Err(ListFault::Memory);
    }
    Ok(part_of(store, least.other))
}

/// Closes the gap that a node leaves at the end of a path: answers the part that the path leads to then.
fn close_gap<H: GcHeap, D: Drop>(
    store: &mut Store<H, D>,
    node: Node,
    key: i64,
    path: &mut Vec<Frame>,
) -> Result<Part, ListFault>
    requires { GapIn D H.KIND store.old key path.old.items node }
    ensures closes { (t : Table D) (a : Account) (ty : ℕ) (tree : Tree) → HoldsAccount H.KIND store.old t a
        → IsSearch tree → height tree < 92 → Descended store.old t ty tree key path.old.items (Some node)
        → EndsReading H.KIND 184 t (λ s u part. Closes s u ty path.new.items part (others key (pairs tree))) result store.new }
    ensures same { IsSameStore store.old store.new }
{
    match node.right {
        Some(right) => match node.left {
            Some(_) => pull_up(store, node, right, key, path),
            None => Ok(part_of(store, node.right)),
        },
        None => Ok(part_of(store, node.left)),
    }
}

/// Makes the tree of a root anew without a key; where it has no such key, it stays as it is.
pub(crate) fn take_out<H: GcHeap, D: Drop, L: ResourceLimiter>(
    store: &mut Store<H, D>,
    limiter: &mut L,
    kit: &Kit,
    root: Option<GcRootIndex>,
    key: i64,
) -> Result<Part, ListFault>
    requires { SearchOfIn D H.KIND store.old kit.now.node root }
    ensures takes_out { (t : Table D) (a : Account) (tree : Tree) → HoldsAccount H.KIND store.old t a
        → RootIs store.old t kit.now.node root tree → IsSearch tree
        → EndsMakingNodes H.KIND store.old.alloc_counter kit.now 276 1012 t (L.limits limiter.old) (L.limits limiter.new)
        (λ s u part. IsBuilt s u kit.now.node part (others key (pairs tree))) result store.new }
    ensures limit { (L.limits limiter.new).limit ≡ (L.limits limiter.old).limit }
    ensures counts { CountsOn (L.limits limiter.old) (L.limits limiter.new) }
    ensures same { IsSameStore store.old store.new }
{
    let mut path = Vec::new(store.allocator());
    let found = match descend(store, root, key, &mut path) {
        Ok(found) => found,
        Err(fault) => return Err(fault),
    };
    let node = match found {
        Some(node) => node,
        None => return Ok(part_of(store, root)),
    };
    let part = match close_gap(store, node, key, &mut path) {
        Ok(part) => part,
        Err(fault) => return Err(fault),
    };
    rebuild(store, limiter, kit, &mut path, part)
}
