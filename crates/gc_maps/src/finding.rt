//! Looking for a key.

ghost use Rattle.std.specs.Prelude.{◌≡◌, ◌+◌, ◌≤◌, ℕ};
ghost use Rattle.std.specs.Ordering.{int_cmp};
ghost use Rattle.std.specs.FinMap.Entries.{find};
ghost use Rattle.gc_model.specs.Table.{Table};
ghost use Rattle.gc_model.specs.Holds.{HoldsTable};
ghost use Rattle.gc_maps.specs.Parts.{RootIs};
ghost use Rattle.gc_maps.specs.Searching.{IsSearch, SearchIn, nodes_toward, toward};
ghost use Rattle.gc_maps.specs.Trees.{Tree, height, pairs};

use crate::part::FoundNode;
use crate::reading::{find_node, word_of};
use gc_heap::GcHeap;
use gc_steps::Steps;
use gc_store::{GcRootIndex, Store};
use std::cmp::Ordering;
use std::sync::ledger::Ledger;

/// No map's tree is as high: 64-bit keys would not suffice.
pub(crate) const MOST_HEIGHT: usize = 92;

/// The word of the child of a node on whose side a key stands that compares so with the node's.
#[inline(always)]
pub(crate) fn toward(node: &FoundNode, order: Ordering) -> u32
    ensures { result ≡ toward node.now order }
{
    match order {
        Ordering::Less => node.left,
        Ordering::Equal => node.right,
        Ordering::Greater => node.right,
    }
}

/// The value of a key in the tree of a root, with a step for each node that is read. It goes from word to word, and makes no
/// root.
pub(crate) fn look_up<H: GcHeap, D: Drop, G: Ledger>(
    store: &Store<H, D>,
    root: Option<GcRootIndex>,
    key: i64,
    steps: &mut Steps<G>,
) -> Option<i64>
    requires { SearchIn D H.KIND store.now root }
    ensures finds { (t : Table D) (ty : ℕ) (tree : Tree) → HoldsTable H.KIND store.now t → RootIs store.now t ty root tree → IsSearch tree
        → result ≡ find int_cmp key (pairs tree) }
    ensures counted { (t : Table D) (ty : ℕ) (tree : Tree) → HoldsTable H.KIND store.now t → RootIs store.now t ty root tree → IsSearch tree
        → steps.new ≤ steps.old + height tree }
    ensures exact { (t : Table D) (ty : ℕ) (tree : Tree) → HoldsTable H.KIND store.now t → RootIs store.now t ty root tree → IsSearch tree
        → steps.new ≡ steps.old + nodes_toward key tree }
{
    let mut here = word_of(store, root);
    for _turn in 0..MOST_HEIGHT {
        if here == 0 {
            return None;
        }
        steps.tick();
        let node = find_node(store, here);
        let order = key.cmp(&node.key);
        if order.is_eq() {
            return Some(node.value);
        }
        here = toward(&node, order);
    }
    None
}
