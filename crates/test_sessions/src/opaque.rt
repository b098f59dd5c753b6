//! A store that holds a function or a continuation, which no command makes.

use crate::table::Header;
use gc_heap::GcHeap;
use gc_objects::{StructRef, StructRefPre, Val};
use gc_rooted::RootedGcRef;
use gc_store::{GcClass, Scripted, Store};
use gc_types::{
    FieldType, Func, HeapType, Mutability, RefType, StorageType, VMSharedTypeIndex, ValType,
};

/// The number of the function, and the continuation.
const NUMBER: u32 = 7;

/// A field of nullable references of that type.
fn field_of(heap_type: HeapType) -> FieldType {
    FieldType {
        mutability: Mutability::Var,
        element_type: StorageType::ValType(ValType::Ref(RefType {
            nullable: true,
            heap_type,
        })),
    }
}

/// Declares a type of structs with a field of that type, which gets that index, and makes the first global name one that holds a
/// value. Where that can't be done the replies are others.
fn hold<H: GcHeap>(
    store: &mut Store<H, u64>,
    limiter: &mut Scripted,
    heap_type: HeapType,
    index: u32,
    value: Val,
) {
    let _declared = store.declare_struct(&[field_of(heap_type)], None, false);
    let Some(ty) = store.types().struct_type(VMSharedTypeIndex::new(index)) else {
        return;
    };
    let Ok(allocator) = StructRefPre::new(store, ty) else {
        return;
    };
    if let Ok(handle) = StructRef::new(store, limiter, &allocator, &[value]) {
        let _set = store.global_set(0, GcClass::Any, Some(handle.root_index()));
    }
}

/// Makes the first global of a new store name a struct that holds a function, of type 0, or a continuation, where a header asks for it.
pub(crate) fn hold_asked<H: GcHeap>(
    store: &mut Store<H, u64>,
    limiter: &mut Scripted,
    header: Header<'_>,
) {
    if header.has("function") {
        let function = VMSharedTypeIndex::new(0);
        let _declared = store.declare_func(&[], &[], None, false);
        let value = Val::FuncRef(Func::new(NUMBER, function));
        hold(store, limiter, HeapType::ConcreteFunc(function), 1, value);
    }
    if header.has("continuation") {
        let value = Val::ContRef(Some(u64::from(NUMBER)));
        hold(store, limiter, HeapType::Cont, 0, value);
    }
}
