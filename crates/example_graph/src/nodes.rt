//! Nodes: structs with a key and two edges, and what is known of them.

ghost use Rattle.std.specs.Prelude.{◌≡◌, ℕ, ℤ, IfOk, Ok, Some, slice_get};
ghost use Rattle.gc_types.specs.declared.kind.TypeKind.{TypeKind};
ghost use Rattle.gc_types.specs.declared.kind.VMGcKind.{VMGcKind};
ghost use Rattle.gc_store.specs.Kinds.{NamesKind};
ghost use Rattle.gc_objects.specs.Kinds.{IsDeclaredAs};
ghost use Rattle.gc_objects.specs.declared.val.Val.TheVariants as Val;
ghost use Rattle.example_graph.specs.Entries.{key_in, IsGraphNode, HoldsEntry, KeepsEntries};

use crate::fault::{GraphFault, not_made};
use gc_heap::GcHeap;
use gc_objects::{AnyRef, StructRef, StructRefPre, Val};
use gc_rooted::{OwnedRooted, Rooted, RootedGcRef};
use gc_store::laws::stores_hold_tables;
use gc_store::{PageLimit, Store};
use gc_types::{FieldType, HeapType, Mutability, RefType, StorageType, VMSharedTypeIndex, ValType};

/// The index of a node's key.
const KEY: usize = 0;

/// The index of its edge to the next node of its ring.
pub(crate) const NEXT: usize = 1;

/// The index of its edge to the node that all nodes of its ring share.
pub(crate) const SHARED: usize = 2;

/// The index of the type of nodes, which is the only one.
const NODE: u32 = 0;

/// The field of a key.
fn key_field() -> FieldType {
    FieldType {
        mutability: Mutability::Const,
        element_type: StorageType::ValType(ValType::I64),
    }
}

/// The field of an edge.
fn edge_field() -> FieldType {
    FieldType {
        mutability: Mutability::Var,
        element_type: StorageType::ValType(ValType::Ref(RefType {
            nullable: true,
            heap_type: HeapType::Any,
        })),
    }
}

/// Declares the type of nodes.
pub(crate) fn declare_nodes<H: GcHeap>(store: &mut Store<H, u64>) -> Result<(), GraphFault> {
    let fields = [key_field(), edge_field(), edge_field()];
    store.declare_struct(&fields, None, true)?;
    Ok(())
}

/// An allocator of nodes.
fn node_allocator<H: GcHeap>(store: &mut Store<H, u64>) -> Result<StructRefPre, GraphFault>
    ensures declared { IfOk result (IsDeclaredAs store.new TypeKind.Struct) }
    ensures same { store.new ≡ store.old }
{
    match store.types().struct_type(VMSharedTypeIndex::new(NODE)) {
        Some(ty) => Ok(StructRefPre::new(store, ty)?),
        None => Err(GraphFault::NoType),
    }
}

/// The values of a node.
fn node_values(key: i64, edges: [Val; 2]) -> [Val; 3]
    ensures { slice_get result 0 ≡ Some (Val.I64 key) }
{
    [Val::I64(key), edges[0], edges[1]]
}

/// Makes a node, and a scoped root for it.
pub(crate) fn make_node<H: GcHeap>(
    store: &mut Store<H, u64>,
    limiter: &mut PageLimit,
    key: i64,
    edges: [Val; 2],
) -> Result<Rooted<StructRef>, GraphFault>
    ensures made { IfOk result (λ made. IsGraphNode H.KIND store.new made.index key) }
    ensures keeps { KeepsEntries H.KIND store.old store.new }
{
    let allocator = node_allocator(store)?;
    let values = node_values(key, edges);
    stores_hold_tables(store);
    match StructRef::new(store, limiter, &allocator, &values) {
        Ok(made) => Ok(made),
        Err(fault) => Err(not_made(fault)),
    }
}

/// Makes an owned root for a node.
fn own_node<H: GcHeap>(
    store: &mut Store<H, u64>,
    node: Rooted<StructRef>,
) -> Result<OwnedRooted<StructRef>, GraphFault>
    ensures added { (key : ℤ) → IsGraphNode H.KIND store.old node.index key → IfOk result (λ entry. HoldsEntry H.KIND store.new entry.index key) }
    ensures keeps { KeepsEntries H.KIND store.old store.new }
{
    match node.to_owned_rooted(store) {
        Ok(entry) => Ok(entry),
        Err(fault) => Err(GraphFault::Root(fault)),
    }
}

/// Adds an entry in a scope of the caller's.
pub(crate) fn add_in_scope<H: GcHeap>(
    store: &mut Store<H, u64>,
    limiter: &mut PageLimit,
    key: i64,
    edges: [Val; 2],
) -> Result<OwnedRooted<StructRef>, GraphFault>
    ensures added { IfOk result (λ entry. HoldsEntry H.KIND store.new entry.index key) }
    ensures keeps { KeepsEntries H.KIND store.old store.new }
{
    let made = make_node(store, limiter, key, edges)?;
    own_node(store, made)
}

/// Adds an entry: a node that an owned root keeps until its handle is given up.
pub(crate) fn add_entry<H: GcHeap>(
    store: &mut Store<H, u64>,
    limiter: &mut PageLimit,
    key: i64,
    edges: [Val; 2],
) -> Result<OwnedRooted<StructRef>, GraphFault>
    ensures added { IfOk result (λ entry. HoldsEntry H.KIND store.new entry.index key) }
    ensures keeps { KeepsEntries H.KIND store.old store.new }
{
    let scope = store.enter_gc_lifo_scope();
    let added = add_in_scope(store, limiter, key, edges);
    leave_scope(store, scope);
    added
}

/// The key that a value is; 0 where it is no 64-bit integer.
fn key_in(value: &Val) -> i64
    ensures { result ≡ key_in value.now }
{
    match value {
        Val::I32(_) => 0,
        Val::I64(key) => *key,
        Val::F32(_) => 0,
        Val::F64(_) => 0,
        Val::V128(_) => 0,
        Val::FuncRef(_) => 0,
        Val::ContRef(_) => 0,
        Val::ExternRef(_) => 0,
        Val::AnyRef(_) => 0,
        Val::ExnRef(_) => 0,
    }
}

/// The key of a node.
pub(crate) fn key_of<H: GcHeap, R: RootedGcRef<StructRef>>(
    store: &mut Store<H, u64>,
    node: &R,
) -> Result<i64, GraphFault>
    requires { NamesKind ℕ H.KIND store.old VMGcKind.StructRef (R.index node.now) }
    ensures found { (key : ℤ) → IsGraphNode H.KIND store.old (R.index node.now) key → result ≡ Ok key }
    ensures keeps { KeepsEntries H.KIND store.old store.new }
{
    match StructRef::field(store, node, KEY) {
        Ok(value) => Ok(key_in(&value)),
        Err(fault) => Err(GraphFault::Access(fault)),
    }
}

/// The node that a handle names, which is found out.
pub(crate) fn as_node<H: GcHeap>(
    store: &Store<H, u64>,
    handle: Rooted<AnyRef>,
) -> Result<Rooted<StructRef>, GraphFault>
    ensures { IfOk result (λ node. NamesKind ℕ H.KIND store.now VMGcKind.StructRef node.index) }
{
    match AnyRef::as_struct(store, handle) {
        Ok(Some(node)) => Ok(node),
        Ok(None) => Err(GraphFault::NoNode),
        Err(fault) => Err(GraphFault::Root(fault)),
    }
}

/// Lets the edge of a node to the next one name another.
pub(crate) fn set_next<H: GcHeap>(
    store: &mut Store<H, u64>,
    from: Rooted<AnyRef>,
    to: Rooted<AnyRef>,
) -> Result<(), GraphFault>
    ensures keeps { KeepsEntries H.KIND store.old store.new }
{
    let node = as_node(store, from)?;
    match StructRef::set_field(store, &node, NEXT, Val::AnyRef(Some(to))) {
        Ok(()) => Ok(()),
        Err(fault) => Err(GraphFault::Access(fault)),
    }
}

/// The value of an edge of a node: a reference has a new scoped root.
pub(crate) fn edge_of<H: GcHeap>(
    store: &mut Store<H, u64>,
    from: Rooted<AnyRef>,
    index: usize,
) -> Result<Val, GraphFault>
    ensures keeps { KeepsEntries H.KIND store.old store.new }
{
    let node = as_node(store, from)?;
    match StructRef::field(store, &node, index) {
        Ok(value) => Ok(value),
        Err(fault) => Err(GraphFault::Access(fault)),
    }
}

/// The node that an edge of a node names, by a new scoped root.
pub(crate) fn follow<H: GcHeap>(
    store: &mut Store<H, u64>,
    from: Rooted<AnyRef>,
    index: usize,
) -> Result<Rooted<AnyRef>, GraphFault>
    ensures keeps { KeepsEntries H.KIND store.old store.new }
{
    match edge_of(store, from, index)? {
        Val::AnyRef(Some(handle)) => Ok(handle),
        _ => Err(GraphFault::NoNode),
    }
}

/// Leaves the scope that was entered with so many scoped roots; where there are fewer, it was left before.
pub(crate) fn leave_scope<H: GcHeap>(store: &mut Store<H, u64>, scope: usize)
    ensures keeps { KeepsEntries H.KIND store.old store.new }
{
    if scope <= store.enter_gc_lifo_scope() {
        store.exit_gc_lifo_scope(scope);
    }
}
