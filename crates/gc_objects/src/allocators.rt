//! Types that objects are made of, once they are known to be a store's.

ghost use Rattle.std.specs.Prelude.{◌≡◌, ◌↔◌, IfOk, IsErrOf, OnErr, false};
ghost use Rattle.gc_objects.specs.Kinds.{is_type_of, IsDeclaredAs};

use crate::checks::carries_id;
use gc_heap::GcHeap;
use gc_store::{RootFault, Store};
use gc_types::{ArrayType, ExnType, StructType, TypeKind};
use std::marker::Model;

/// A struct type of a store, to make structs of.
#[derive(Debug, Drop)]
pub struct StructRefPre {
    ty: StructType,
}

impl Model for StructRefPre {
    ghost use Rattle.gc_types.specs.Declarations.{TypeName};

    ghost Value = { TypeName };

    ghost view = { λ p. p.ty };
}

impl StructRefPre {
    /// An allocator of structs of that type: `WrongStore` exactly where the type is another store's. It
    /// takes no memory and changes nothing.
    pub fn new<H: GcHeap, D: Drop>(
        store: &mut Store<H, D>,
        ty: StructType,
    ) -> Result<StructRefPre, RootFault>
        requires { IsDeclaredAs store.old TypeKind.Struct ty }
        ensures ok { IfOk result (λ pre. (pre ≡ ty) × IsDeclaredAs store.new TypeKind.Struct pre) }
        ensures wrong_store { IsErrOf result RootFault.WrongStore ↔ (is_type_of store.old ty ≡ false) }
        ensures err { OnErr result (IsErrOf result RootFault.WrongStore) }
        ensures same { store.new ≡ store.old }
    {
        if !carries_id(store, ty.engine(), ty.number()) {
            return Err(RootFault::WrongStore);
        }
        Ok(StructRefPre { ty })
    }

    /// The type.
    pub(crate) fn ty(&self) -> StructType
        ensures { result ≡ self.now }
    {
        self.ty
    }
}

/// An array type of a store, to make arrays of.
#[derive(Debug, Drop)]
pub struct ArrayRefPre {
    ty: ArrayType,
}

impl Model for ArrayRefPre {
    ghost use Rattle.gc_types.specs.Declarations.{TypeName};

    ghost Value = { TypeName };

    ghost view = { λ p. p.ty };
}

impl ArrayRefPre {
    /// An allocator of arrays of that type, as `StructRefPre::new` makes one of structs.
    pub fn new<H: GcHeap, D: Drop>(
        store: &mut Store<H, D>,
        ty: ArrayType,
    ) -> Result<ArrayRefPre, RootFault>
        requires { IsDeclaredAs store.old TypeKind.Array ty }
        ensures ok { IfOk result (λ pre. (pre ≡ ty) × IsDeclaredAs store.new TypeKind.Array pre) }
        ensures wrong_store { IsErrOf result RootFault.WrongStore ↔ (is_type_of store.old ty ≡ false) }
        ensures err { OnErr result (IsErrOf result RootFault.WrongStore) }
        ensures same { store.new ≡ store.old }
    {
        if !carries_id(store, ty.engine(), ty.number()) {
            return Err(RootFault::WrongStore);
        }
        Ok(ArrayRefPre { ty })
    }

    /// The type.
    pub(crate) fn ty(&self) -> ArrayType
        ensures { result ≡ self.now }
    {
        self.ty
    }
}

/// An exception type of a store, to make exceptions of.
#[derive(Debug, Drop)]
pub struct ExnRefPre {
    ty: ExnType,
}

impl Model for ExnRefPre {
    ghost use Rattle.gc_types.specs.Declarations.{TypeName};

    ghost Value = { TypeName };

    ghost view = { λ p. p.ty };
}

impl ExnRefPre {
    /// An allocator of exceptions of that type, as `StructRefPre::new` makes one of structs.
    pub fn new<H: GcHeap, D: Drop>(
        store: &mut Store<H, D>,
        ty: ExnType,
    ) -> Result<ExnRefPre, RootFault>
        requires { IsDeclaredAs store.old TypeKind.Exn ty }
        ensures ok { IfOk result (λ pre. (pre ≡ ty) × IsDeclaredAs store.new TypeKind.Exn pre) }
        ensures wrong_store { IsErrOf result RootFault.WrongStore ↔ (is_type_of store.old ty ≡ false) }
        ensures err { OnErr result (IsErrOf result RootFault.WrongStore) }
        ensures same { store.new ≡ store.old }
    {
        if !carries_id(store, ty.engine(), ty.number()) {
            return Err(RootFault::WrongStore);
        }
        Ok(ExnRefPre { ty })
    }

    /// The type.
    pub(crate) fn ty(&self) -> ExnType
        ensures { result ≡ self.now }
    {
        self.ty
    }
}
