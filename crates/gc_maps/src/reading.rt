//! Reading nodes.

ghost use Rattle.std.specs.Prelude.{◌≡◌, ◌<◌, ◌^◌, ℕ, ℤ, pos, Some};
ghost use Rattle.gc_owner.specs.declared.entry.GcClass.TheVariants.{Any};
ghost use Rattle.gc_model.specs.Values.{Reference, reference};
ghost use Rattle.gc_model.specs.Table.{Table};
ghost use Rattle.gc_model.specs.Forms.{naming};
ghost use Rattle.gc_model.specs.Holds.{Holds, HoldsTable, Placing};
ghost use Rattle.gc_model.specs.Accounts.{Account, HoldsAccount};
ghost use Rattle.gc_store.specs.Stores.{IsSameStore};
ghost use Rattle.gc_store.specs.Reading.{IsFoundHere};
ghost use Rattle.gc_values.specs.Kept.{FoundStands};
ghost use Rattle.gc_maps.specs.Ends.{EndsReading};
ghost use Rattle.gc_maps.specs.FoundNodes.{link_found, int_found, number_found, word_found, NodeWordIn, FindsNode, HasTree, NodeFound, NodeFoundIn, GivesLink};
ghost use Rattle.gc_maps.specs.Parts.{int_in, RootIs, PartIs, NodeIs, OpenedIs, NodeIn, LowNodeIn, RootIn, node_of};
ghost use Rattle.gc_maps.specs.Trees.{Tree, height};

use crate::part::{FoundNode, Node, Opened, Part};
use gc_heap::GcHeap;
use gc_lists::ListFault;
use gc_lists::roots::{number_in, refused};
use gc_store::{Found, GcClass, GcRootIndex, RawValue, Store};

/// Where a node has its key, its value, its height and its children.
const KEY: u32 = 0;

const VALUE: u32 = 1;

const HEIGHT: u32 = 2;

const LEFT: u32 = 3;

const RIGHT: u32 = 4;

/// The 32-bit integer that a value is; 0 where it is none.
#[inline(always)]
fn int_in(value: &RawValue) -> i32
    ensures { result ≡ int_in value.now }
{
    match value {
        RawValue::I32(number) => *number,
        _ => 0,
    }
}

/// The 64-bit integer that was found in an object; 0 where it is none.
#[inline(always)]
fn number_found(found: &Found) -> i64
    ensures { result ≡ number_found found.now }
{
    match found {
        Found::Number(value) => number_in(value),
        _ => 0,
    }
}

/// The 32-bit integer that was found in an object; 0 where it is none.
#[inline(always)]
fn int_found(found: &Found) -> i32
    ensures { result ≡ int_found found.now }
{
    match found {
        Found::Number(value) => int_in(value),
        _ => 0,
    }
}

/// The word of the reference that was found in an object; 0 where it is none.
#[inline(always)]
fn word_found(found: &Found) -> u32
    ensures { result ≡ word_found found.now }
{
    match found {
        Found::Ref(_, word) => *word,
        _ => 0,
    }
}

/// A root of what a link with that word names; none where it is null.
#[inline(always)]
pub(crate) fn give_link<H: GcHeap, D: Drop>(
    store: &mut Store<H, D>,
    word: u32,
) -> Result<Option<GcRootIndex>, ListFault>
    requires { IsFoundHere D H.KIND store.old (link_found word) }
    ensures reads { (t : Table D) (place : Placing) (r : Reference) → Holds H.KIND store.old t place
        → FoundStands (naming place store.old.ids) (link_found word) (reference Any r) → EndsReading H.KIND 1 t (GivesLink H.KIND place r) result store.new }
    ensures same { IsSameStore store.old store.new }
{
    match store.give_found(Found::Ref(GcClass::Any, word)) {
        Ok(value) => Ok(value.handle()),
        Err(fault) => Err(refused(fault)),
    }
}

/// The word of what a root names; 0, which is that of null, where there is none.
#[inline(always)]
pub(crate) fn word_of<H: GcHeap, D: Drop>(store: &Store<H, D>, root: Option<GcRootIndex>) -> u32
    requires { RootIn D H.KIND store.now root }
    ensures { (t : Table D) (place : Placing) (ty : ℕ) (tree : Tree) → Holds H.KIND store.now t place → RootIs store.now t ty root tree
        → HasTree t place ty result tree }
{
    match root {
        Some(handle) => match store.word(handle) {
            Ok(word) => word,
            Err(_) => unreachable!(),
        },
        None => 0,
    }
}

/// The key and the value of the node that has that word, and the words of its children.
#[inline(always)]
pub(crate) fn find_node<H: GcHeap, D: Drop>(store: &Store<H, D>, word: u32) -> FoundNode
    requires { NodeWordIn D H.KIND store.now word }
    ensures { FindsNode D H.KIND store.now word result }
{
    let key = store.found_in(word, KEY);
    let value = store.found_in(word, VALUE);
    let left = store.found_in(word, LEFT);
    let right = store.found_in(word, RIGHT);
    FoundNode {
        key: number_found(&key),
        value: number_found(&value),
        left: word_found(&left),
        right: word_found(&right),
    }
}

/// What was found of a node, with a root for each of its children.
#[inline(always)]
pub(crate) fn give_node<H: GcHeap, D: Drop>(
    store: &mut Store<H, D>,
    found: FoundNode,
) -> Result<Node, ListFault>
    requires { NodeFoundIn D H.KIND store.old found }
    ensures reads { (t : Table D) (place : Placing) (ty : ℕ) (x : Tree) (k v : ℤ) (y : Tree) → Holds H.KIND store.old t place
        → NodeFound (naming place store.old.ids) t ty found x k v y
        → EndsReading H.KIND 2 t (λ s u read. NodeIs s u ty read x k v y) result store.new }
    ensures same { IsSameStore store.old store.new }
{
    let left = match give_link(store, found.left) {
        Ok(left) => left,
        Err(fault) => return Err(fault),
    };
    match give_link(store, found.right) {
        Ok(right) => Ok(Node {
            key: found.key,
            value: found.value,
            left,
            right,
        }),
        Err(fault) => Err(fault),
    }
}

/// What a node has, with a root for each of its children.
#[inline(always)]
pub(crate) fn read_node<H: GcHeap, D: Drop>(
    store: &mut Store<H, D>,
    node: GcRootIndex,
) -> Result<Node, ListFault>
    requires { NodeIn D H.KIND store.old node }
    ensures reads { (t : Table D) (a : Account) (ty : ℕ) (x : Tree) (k v : ℤ) (y : Tree) → HoldsAccount H.KIND store.old t a
        → RootIs store.old t ty (Some node) (node_of x k v y)
        → EndsReading H.KIND 2 t (λ s u read. NodeIs s u ty read x k v y) result store.new }
    ensures same { IsSameStore store.old store.new }
{
    // The word finds the node once for all that is read of it, before a root is made.
    let word = word_of(store, Some(node));
    let found = find_node(store, word);
    give_node(store, found)
}

/// The height that a node has, by its root.
#[inline(always)]
fn height_of<H: GcHeap, D: Drop>(store: &Store<H, D>, node: GcRootIndex) -> i32
    requires { NodeIn D H.KIND store.now node }
    ensures { (t : Table D) (ty : ℕ) (x : Tree) (k v : ℤ) (y : Tree) → HoldsTable H.KIND store.now t → RootIs store.now t ty (Some node) (node_of x k v y)
        → height (node_of x k v y) < 2 ^ 31 → result ≡ pos (height (node_of x k v y)) }
{
    let word = word_of(store, Some(node));
    int_found(&store.found_in(word, HEIGHT))
}

/// A part by its root.
#[inline(always)]
pub(crate) fn part_of<H: GcHeap, D: Drop>(store: &Store<H, D>, root: Option<GcRootIndex>) -> Part
    requires { RootIn D H.KIND store.now root }
    ensures { (t : Table D) (ty : ℕ) (tree : Tree) → HoldsTable H.KIND store.now t → RootIs store.now t ty root tree → height tree < 2 ^ 31
        → PartIs store.now t ty result tree }
{
    match root {
        Some(node) => Part {
            root,
            height: height_of(store, node),
        },
        None => Part { root, height: 0 },
    }
}

/// What a node has, with its children as parts.
pub(crate) fn open_node<H: GcHeap, D: Drop>(
    store: &mut Store<H, D>,
    node: GcRootIndex,
) -> Result<Opened, ListFault>
    requires { LowNodeIn D H.KIND store.old node }
    ensures opens { (t : Table D) (a : Account) (ty : ℕ) (x : Tree) (k v : ℤ) (y : Tree) → HoldsAccount H.KIND store.old t a
        → RootIs store.old t ty (Some node) (node_of x k v y)
        → height (node_of x k v y) < 2 ^ 31 → EndsReading H.KIND 2 t (λ s u opened. OpenedIs s u ty opened x k v y) result store.new }
    ensures same { IsSameStore store.old store.new }
{
    match read_node(store, node) {
        Ok(read) => {
            let left = part_of(store, read.left);
            let right = part_of(store, read.right);
            Ok(Opened {
                left,
                key: read.key,
                value: read.value,
                right,
            })
        }
        Err(fault) => Err(fault),
    }
}
