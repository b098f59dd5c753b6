//! The types of cells and nodes.

ghost use Rattle.std.specs.Prelude.{◌≡◌, ◌≤◌, ℕ, length};
ghost use Rattle.gc_types.specs.Declarations.{constant_field};
ghost use Rattle.gc_model.specs.Table.{Table};
ghost use Rattle.gc_model.specs.Accounts.{Account, HoldsAccount};
ghost use Rattle.gc_store.specs.Stores.{IsSameStore};
ghost use Rattle.gc_lists.specs.Kits.{MakesKit, cell_fields, link, node_fields};

use gc_heap::GcHeap;
use gc_store::{Store, StoreId};
use gc_types::{
    FieldType, HeapType, Mutability, RefType, StorageType, TypeFault, Types, VMSharedTypeIndex,
    ValType,
};

/// The types of a store's cells and nodes, of which its lists and maps are made.
#[derive(Clone, Copy, Debug)]
pub struct Kit {
    store_id: StoreId,
    cell: VMSharedTypeIndex,
    node: VMSharedTypeIndex,
}

/// A constant field.
fn constant(ty: ValType) -> FieldType
    ensures { result ≡ constant_field ty }
{
    FieldType {
        mutability: Mutability::Const,
        element_type: StorageType::ValType(ty),
    }
}

/// A constant reference to a struct of that type, or null.
fn link(ty: VMSharedTypeIndex) -> FieldType
    ensures { result ≡ constant_field (link ty) }
{
    constant(ValType::Ref(RefType {
        nullable: true,
        heap_type: HeapType::ConcreteStruct(ty),
    }))
}

/// The fields of a cell of that type: its number and the next cell.
fn cell_fields(ty: VMSharedTypeIndex) -> [FieldType; 2]
    ensures { result ≡ cell_fields ty }
{
    [constant(ValType::I64), link(ty)]
}

/// The fields of a node of that type: its key, its value, its height, and its left and its right child.
fn node_fields(ty: VMSharedTypeIndex) -> [FieldType; 5]
    ensures { result ≡ node_fields ty }
{
    [
        constant(ValType::I64),
        constant(ValType::I64),
        constant(ValType::I32),
        link(ty),
        link(ty),
    ]
}

/// The most indexes that types may have.
const MAX_TYPES: u32 = u32::MAX;

/// The index of the type that is declared next, in a time that is logarithmic in the number of types.
fn next_index(types: &Types) -> u32
    ensures { result ≡ length types.now.declarations }
{
    types.are_declared();
    let mut low = 0;
    let mut high = MAX_TYPES;
    while low < high {
        let middle = low + (high - low) / 2;
        match types.kind_of(VMSharedTypeIndex::new(middle)) {
            Some(_) => low = middle + 1,
            None => high = middle,
        }
    }
    low
}

impl Kit {
    /// Declares the types of cells and of nodes, both final and without a supertype.
    ///
    /// `BadType` exactly where fewer than two type indexes are left. After `Memory` one more type may stand.
    pub fn new<H: GcHeap, D: Drop>(store: &mut Store<H, D>) -> Result<Kit, TypeFault>
        ensures makes { (t : Table D) (a : Account) → HoldsAccount H.KIND store.old t a → MakesKit H.KIND t a result store.new }
        ensures same { IsSameStore store.old store.new }
        ensures spare { store.old.spare ≤ store.new.spare }
    {
        let next = next_index(store.types());
        if next > MAX_TYPES - 2 {
            return Err(TypeFault::BadType);
        }
        let cell = VMSharedTypeIndex::new(next);
        let node = VMSharedTypeIndex::new(next + 1);
        store.declare_struct(&cell_fields(cell), None, true)?;
        match store.declare_struct(&node_fields(node), None, true) {
            Ok(_) => Ok(Kit {
                store_id: store.id(),
                cell,
                node,
            }),
            Err(fault) => Err(fault),
        }
    }

    /// The id of the store whose types these are.
    pub fn store_id(&self) -> StoreId
        ensures { result ≡ self.now.store_id }
    {
        self.store_id
    }

    /// The type of cells.
    pub fn cell(&self) -> VMSharedTypeIndex
        ensures { result ≡ self.now.cell }
    {
        self.cell
    }

    /// The type of nodes.
    pub fn node(&self) -> VMSharedTypeIndex
        ensures { result ≡ self.now.node }
    {
        self.node
    }
}
