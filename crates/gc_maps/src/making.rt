//! Making nodes.

ghost use Rattle.std.specs.Prelude.{◌≡◌, ◌+◌, ◌<◌, ℕ, ℤ, pos, max};
ghost use Rattle.gc_model.specs.Table.{Table};
ghost use Rattle.gc_model.specs.Accounts.{Account, HoldsAccount};
ghost use Rattle.gc_store.specs.Stores.{IsSameStore};
ghost use Rattle.gc_lists.specs.Refusals.{CountsOn};
ghost use Rattle.gc_maps.specs.Makes.{CanMakeNode, CanMakeTwo, EndsMaking, IsLow};
ghost use Rattle.gc_maps.specs.Parts.{OpenedIs, PartIs, node_of};
ghost use Rattle.gc_maps.specs.Trees.{Tree, height};

use crate::part::{Opened, Part};
use gc_heap::GcHeap;
use gc_lists::{Kit, ListFault};
use gc_store::{Contents, GcClass, Place, PlaceFault, RawValue, ResourceLimiter, Store};

/// The height of a node over children of these heights.
fn height_over(left: i32, right: i32) -> i32
    requires left { IsLow left }
    requires right { IsLow right }
    ensures { (a b : ℕ) → left ≡ pos a → right ≡ pos b → result ≡ pos (max a b + 1) }
{
    if left < right { right + 1 } else { left + 1 }
}

/// Makes a node over two parts whose heights differ by at most one.
pub(crate) fn make_node<H: GcHeap, D: Drop, L: ResourceLimiter>(
    store: &mut Store<H, D>,
    limiter: &mut L,
    kit: &Kit,
    left: Part,
    key: i64,
    value: i64,
    right: Part,
) -> Result<Part, ListFault>
    requires { CanMakeNode D H.KIND store.old kit.now.node left right }
    ensures makes { (t : Table D) (a : Account) (x y : Tree) → HoldsAccount H.KIND store.old t a → PartIs store.old t kit.now.node left x
        → PartIs store.old t kit.now.node right y
        → EndsMaking H.KIND store.old kit.now 1 1 t (L.limits limiter.old) (L.limits limiter.new) (node_of x key value y) result store.new }
    ensures limit { (L.limits limiter.new).limit ≡ (L.limits limiter.old).limit }
    ensures counts { CountsOn (L.limits limiter.old) (L.limits limiter.new) }
    ensures same { IsSameStore store.old store.new }
{
    let height = height_over(left.height, right.height);
    let values = [
        RawValue::I64(key),
        RawValue::I64(value),
        RawValue::I32(height),
        RawValue::Ref(GcClass::Any, left.root),
        RawValue::Ref(GcClass::Any, right.root),
    ];
    match store.place(limiter, Place::Struct(kit.node()), Contents::Each(&values)) {
        Ok(root) => Ok(Part {
            root: Some(root),
            height,
        }),
        Err(PlaceFault::FuncTableFull) => Err(ListFault::Memory),
        Err(PlaceFault::ContTableFull) => Err(ListFault::Memory),
        Err(PlaceFault::TooLarge) => Err(ListFault::Memory),
        Err(PlaceFault::RootsFull) => Err(ListFault::RootsFull),
        Err(PlaceFault::HeapOutOfMemory(full)) => Err(ListFault::HeapOutOfMemory(full)),
        Err(PlaceFault::Memory) => Err(ListFault::Memory),
    }
}

/// Makes a node over two nodes, which are made too.
pub(crate) fn make_three<H: GcHeap, D: Drop, L: ResourceLimiter>(
    store: &mut Store<H, D>,
    limiter: &mut L,
    kit: &Kit,
    left: Opened,
    key: i64,
    value: i64,
    right: Opened,
) -> Result<Part, ListFault>
    requires { CanMakeTwo D H.KIND store.old kit.now.node left right }
    ensures makes { (t : Table D) (a : Account) (x y z w : Tree) (j u k v : ℤ) → HoldsAccount H.KIND store.old t a
        → OpenedIs store.old t kit.now.node left x j u y
        → OpenedIs store.old t kit.now.node right z k v w
        → EndsMaking H.KIND store.old kit.now 3 3 t (L.limits limiter.old) (L.limits limiter.new) (node_of (node_of x j u y) key value (node_of z k v w))
        result store.new }
    ensures limit { (L.limits limiter.new).limit ≡ (L.limits limiter.old).limit }
    ensures counts { CountsOn (L.limits limiter.old) (L.limits limiter.new) }
    ensures same { IsSameStore store.old store.new }
{
    let low = match make_node(
        store, limiter, kit, left.left, left.key, left.value, left.right,
    ) {
        Ok(low) => low,
        Err(fault) => return Err(fault),
    };
    let high = match make_node(
        store,
        limiter,
        kit,
        right.left,
        right.key,
        right.value,
        right.right,
    ) {
        Ok(high) => high,
        Err(fault) => return Err(fault),
    };
    make_node(store, limiter, kit, low, key, value, high)
}
