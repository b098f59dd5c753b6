//! Copying the entries out.

ghost use Rattle.std.specs.Prelude.{◌≡◌, ◌+◌, ◌*◌, ◌≤◌, ◌++◌, ℕ, ℤ, Some, length};
ghost use Rattle.gc_model.specs.Table.{Table};
ghost use Rattle.gc_model.specs.Accounts.{Account, HoldsAccount};
ghost use Rattle.gc_store.specs.Stores.{IsSameStore};
ghost use Rattle.gc_maps.specs.Copies.{EndsCopying, NodeWithin, RootWithin};
ghost use Rattle.gc_maps.specs.Parts.{RootIs, node_of};
ghost use Rattle.gc_maps.specs.Trees.{Tree, height, pairs};

use crate::reading::read_node;
use gc_heap::GcHeap;
use gc_lists::ListFault;
use gc_store::{GcRootIndex, Store};

/// Copies the entries of a root's tree, from left to right, behind those that are there. The tree is no higher than `depth`.
///
/// Each node has a scope of its own, in which the roots of its children stand: so there are never more than two for each
/// level, however many nodes the tree has.
#[cycle(parts)]
pub(crate) fn copy_part<H: GcHeap, D: Drop>(
    store: &mut Store<H, D>,
    root: Option<GcRootIndex>,
    depth: usize,
    entries: &mut Vec<(i64, i64)>,
) -> Result<(), ListFault>
    requires { RootWithin D H.KIND store.old root depth }
    ensures copies { (t : Table D) (a : Account) (ty : ℕ) (tree : Tree) → HoldsAccount H.KIND store.old t a → RootIs store.old t ty root tree
        → height tree ≤ depth
        → EndsCopying H.KIND 0 (2 * depth) (length (pairs tree)) t (entries.new.items ≡ entries.old.items ++ pairs tree) result store.new }
    ensures same { IsSameStore store.old store.new }
{
    let node = match root {
        Some(node) => node,
        None => return Ok(()),
    };
    if depth == 0 {
        // A tree with a node is higher.
        unreachable!();
    }
    let scope = store.enter_gc_lifo_scope();
    let copied = copy_node(store, node, depth - 1, entries);
    store.exit_gc_lifo_scope(scope);
    copied
}

/// Copies the entries of a node's tree, whose children are no higher than `depth`. Roots of them are left standing.
#[cycle(parts)]
fn copy_node<H: GcHeap, D: Drop>(
    store: &mut Store<H, D>,
    node: GcRootIndex,
    depth: usize,
    entries: &mut Vec<(i64, i64)>,
) -> Result<(), ListFault>
    requires { NodeWithin D H.KIND store.old node (depth + 1) }
    ensures copies { (t : Table D) (a : Account) (ty : ℕ) (x : Tree) (k v : ℤ) (y : Tree) → HoldsAccount H.KIND store.old t a
        → RootIs store.old t ty (Some node) (node_of x k v y) → height (node_of x k v y) ≤ depth + 1
        → EndsCopying H.KIND 2 (2 * depth + 2) (length (pairs x) + length (pairs y)) t
        (entries.new.items ≡ entries.old.items ++ pairs (node_of x k v y)) result store.new }
    ensures same { IsSameStore store.old store.new }
{
    let read = match read_node(store, node) {
        Ok(read) => read,
        Err(fault) => return Err(fault),
    };
    match copy_part(store, read.left, depth, entries) {
        Ok(()) => match entries.push((read.key, read.value)) {
            Ok(()) => copy_part(store, read.right, depth, entries),
            Err(_) => Err(ListFault::Memory),
        },
        Err(fault) => Err(fault),
    }
}
