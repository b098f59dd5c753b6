//! Joining parts to a balanced one.

ghost use Rattle.std.specs.Prelude.{◌≡◌, ◌+◌, ◌<◌, ℕ, ℤ, pos, nat_le, nat_lt};
ghost use Rattle.gc_model.specs.Table.{Table};
ghost use Rattle.gc_model.specs.Accounts.{Account, HoldsAccount};
ghost use Rattle.gc_store.specs.Stores.{IsSameStore};
ghost use Rattle.gc_lists.specs.Refusals.{CountsOn};
ghost use Rattle.gc_maps.specs.Lowering.{CanTurn, EndsJoining, HighLeftIn, HighRightIn, IsHighLeft, IsHighRight, IsJoinable, JoinableIn, Turns};
ghost use Rattle.gc_maps.specs.Makes.{CanMakeOver, EndsMaking, IsLow};
ghost use Rattle.gc_maps.specs.Parts.{OpenedIs, PartIs, node_of};
ghost use Rattle.gc_maps.specs.Trees.{Tree};

use crate::making::{make_node, make_three};
use crate::part::{Opened, Part};
use crate::reading::open_node;
use gc_heap::GcHeap;
use gc_lists::{Kit, ListFault};
use gc_store::{GcRootIndex, ResourceLimiter, Store};

/// Makes a node whose right child is made too: that is `low`.
fn make_over_right<H: GcHeap, D: Drop, L: ResourceLimiter>(
    store: &mut Store<H, D>,
    limiter: &mut L,
    kit: &Kit,
    left: Part,
    key: i64,
    value: i64,
    low: Opened,
) -> Result<Part, ListFault>
    requires { CanMakeOver D H.KIND store.old kit.now.node left low }
    ensures makes { (t : Table D) (a : Account) (x y z : Tree) (k v : ℤ) → HoldsAccount H.KIND store.old t a → PartIs store.old t kit.now.node left x
        → OpenedIs store.old t kit.now.node low y k v z
        → EndsMaking H.KIND store.old kit.now 2 2 t (L.limits limiter.old) (L.limits limiter.new) (node_of x key value (node_of y k v z)) result store.new }
    ensures limit { (L.limits limiter.new).limit ≡ (L.limits limiter.old).limit }
    ensures counts { CountsOn (L.limits limiter.old) (L.limits limiter.new) }
    ensures same { IsSameStore store.old store.new }
{
    match make_node(store, limiter, kit, low.left, low.key, low.value, low.right) {
        Ok(right) => make_node(store, limiter, kit, left, key, value, right),
        Err(fault) => Err(fault),
    }
}

/// Makes a node whose left child is made too: that is `low`.
fn make_over_left<H: GcHeap, D: Drop, L: ResourceLimiter>(
    store: &mut Store<H, D>,
    limiter: &mut L,
    kit: &Kit,
    low: Opened,
    key: i64,
    value: i64,
    right: Part,
) -> Result<Part, ListFault>
    requires { CanMakeOver D H.KIND store.old kit.now.node right low }
    ensures makes { (t : Table D) (a : Account) (x y z : Tree) (k v : ℤ) → HoldsAccount H.KIND store.old t a → PartIs store.old t kit.now.node right x
        → OpenedIs store.old t kit.now.node low y k v z
        → EndsMaking H.KIND store.old kit.now 2 2 t (L.limits limiter.old) (L.limits limiter.new) (node_of (node_of y k v z) key value x) result store.new }
    ensures limit { (L.limits limiter.new).limit ≡ (L.limits limiter.old).limit }
    ensures counts { CountsOn (L.limits limiter.old) (L.limits limiter.new) }
    ensures same { IsSameStore store.old store.new }
{
    match make_node(store, limiter, kit, low.left, low.key, low.value, low.right) {
        Ok(left) => make_node(store, limiter, kit, left, key, value, right),
        Err(fault) => Err(fault),
    }
}

/// Makes three nodes of two that were opened: the inner child of the first one becomes the topmost.
fn turn<H: GcHeap, D: Drop, L: ResourceLimiter>(
    store: &mut Store<H, D>,
    limiter: &mut L,
    kit: &Kit,
    high: Opened,
    opened: Opened,
) -> Result<Part, ListFault>
    requires { CanTurn D H.KIND store.old kit.now.node high opened }
    ensures turns { (t : Table D) (a : Account) (x b c y : Tree) (j u i w k v : ℤ) → HoldsAccount H.KIND store.old t a
        → Turns store.old t kit.now.node high opened x j u b i w c k v y
        → EndsMaking H.KIND store.old kit.now 3 5 t (L.limits limiter.old) (L.limits limiter.new) (node_of (node_of x j u b) i w (node_of c k v y))
        result store.new }
    ensures limit { (L.limits limiter.new).limit ≡ (L.limits limiter.old).limit }
    ensures counts { CountsOn (L.limits limiter.old) (L.limits limiter.new) }
    ensures same { IsSameStore store.old store.new }
{
    let middle = match high.right.root {
        Some(middle) => middle,
        None => return Err(ListFault::Memory),
    };
    let inner = match open_node(store, middle) {
        Ok(inner) => inner,
        Err(fault) => return Err(fault),
    };
    let left = Opened {
        left: high.left,
        key: high.key,
        value: high.value,
        right: inner.left,
    };
    let right = Opened {
        left: inner.right,
        key: opened.key,
        value: opened.value,
        right: opened.right,
    };
    make_three(store, limiter, kit, left, inner.key, inner.value, right)
}

/// Whether the first part is no higher than the second one.
fn is_no_higher(first: Part, second: Part) -> bool
    ensures { (m n : ℕ) → first.height ≡ pos m → second.height ≡ pos n → m < 1000 → n < 1000 → result ≡ nat_le m n }
{
    first.height <= second.height
}

/// Makes a balanced part of what was opened, whose left child is too high by one: `root` is its root.
fn lower_left<H: GcHeap, D: Drop, L: ResourceLimiter>(
    store: &mut Store<H, D>,
    limiter: &mut L,
    kit: &Kit,
    root: GcRootIndex,
    opened: Opened,
) -> Result<Part, ListFault>
    requires { HighLeftIn D H.KIND store.old kit.now.node root opened }
    ensures joins { (t : Table D) (a : Account) (x y : Tree) (k v : ℤ) → HoldsAccount H.KIND store.old t a
        → IsHighLeft store.old t kit.now.node root opened x k v y
        → EndsJoining H.KIND store.old kit.now t (L.limits limiter.old) (L.limits limiter.new) x (k, v) y result store.new }
    ensures limit { (L.limits limiter.new).limit ≡ (L.limits limiter.old).limit }
    ensures counts { CountsOn (L.limits limiter.old) (L.limits limiter.new) }
    ensures same { IsSameStore store.old store.new }
{
    let high = match open_node(store, root) {
        Ok(high) => high,
        Err(fault) => return Err(fault),
    };
    if is_no_higher(high.right, high.left) {
        let low = Opened {
            left: high.right,
            key: opened.key,
            value: opened.value,
            right: opened.right,
        };
        return make_over_right(store, limiter, kit, high.left, high.key, high.value, low);
    }
    turn(store, limiter, kit, high, opened)
}

/// Makes a balanced part of what was opened, whose right child is too high by one: `root` is its root.
fn lower_right<H: GcHeap, D: Drop, L: ResourceLimiter>(
    store: &mut Store<H, D>,
    limiter: &mut L,
    kit: &Kit,
    root: GcRootIndex,
    opened: Opened,
) -> Result<Part, ListFault>
    requires { HighRightIn D H.KIND store.old kit.now.node root opened }
    ensures joins { (t : Table D) (a : Account) (x y : Tree) (k v : ℤ) → HoldsAccount H.KIND store.old t a
        → IsHighRight store.old t kit.now.node root opened x k v y
        → EndsJoining H.KIND store.old kit.now t (L.limits limiter.old) (L.limits limiter.new) x (k, v) y result store.new }
    ensures limit { (L.limits limiter.new).limit ≡ (L.limits limiter.old).limit }
    ensures counts { CountsOn (L.limits limiter.old) (L.limits limiter.new) }
    ensures same { IsSameStore store.old store.new }
{
    let high = match open_node(store, root) {
        Ok(high) => high,
        Err(fault) => return Err(fault),
    };
    let low = Opened {
        left: opened.left,
        key: opened.key,
        value: opened.value,
        right: high.left,
    };
    if is_no_higher(high.left, high.right) {
        return make_over_left(store, limiter, kit, low, high.key, high.value, high.right);
    }
    turn(store, limiter, kit, low, high)
}

/// Whether the first part is higher than the second one by two or more.
fn is_too_high(first: Part, second: Part) -> bool
    requires { IsLow second.height }
    ensures { (m n : ℕ) → first.height ≡ pos m → second.height ≡ pos n → m < 1000 → n < 1000 → result ≡ nat_lt (n + 1) m }
{
    first.height > second.height + 1
}

/// Makes a balanced part of what was opened. The heights of its children differ by at most two.
pub(crate) fn join<H: GcHeap, D: Drop, L: ResourceLimiter>(
    store: &mut Store<H, D>,
    limiter: &mut L,
    kit: &Kit,
    opened: Opened,
) -> Result<Part, ListFault>
    requires { JoinableIn D H.KIND store.old kit.now.node opened }
    ensures joins { (t : Table D) (a : Account) (x y : Tree) (k v : ℤ) → HoldsAccount H.KIND store.old t a → IsJoinable store.old t kit.now.node opened x k v y
        → EndsJoining H.KIND store.old kit.now t (L.limits limiter.old) (L.limits limiter.new) x (k, v) y result store.new }
    ensures limit { (L.limits limiter.new).limit ≡ (L.limits limiter.old).limit }
    ensures counts { CountsOn (L.limits limiter.old) (L.limits limiter.new) }
    ensures same { IsSameStore store.old store.new }
{
    if is_too_high(opened.left, opened.right) {
        return match opened.left.root {
            Some(root) => lower_left(store, limiter, kit, root, opened),
            None => Err(ListFault::Memory),
        };
    }
    if is_too_high(opened.right, opened.left) {
        return match opened.right.root {
            Some(root) => lower_right(store, limiter, kit, root, opened),
            None => Err(ListFault::Memory),
        };
    }
    make_node(
        store,
        limiter,
        kit,
        opened.left,
        opened.key,
        opened.value,
        opened.right,
    )
}
