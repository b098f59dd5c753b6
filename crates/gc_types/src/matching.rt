//! Which types match which (WebAssembly GC proposal).

ghost use Rattle.std.specs.Prelude.{◌≡◌, ◌↔◌, IsTrue};
ghost use Rattle.gc_types.specs.HeapTypes.{concrete, is_under, is_under_eq};
ghost use Rattle.gc_types.specs.Subtyping.{MatchesHeap, MatchesRef, MatchesVal, MatchesStorage, MatchesField};

use crate::ancestry::Ancestry;
use crate::index::VMSharedTypeIndex;
use crate::kind::TypeKind;
use crate::value::{FieldType, HeapType, Mutability, RefType, StorageType, ValType};

impl Ancestry {
    /// Whether a reference to the first heap type is one to the second.
    pub(crate) fn matches_heap(&self, x: &HeapType, y: &HeapType) -> bool
        ensures { IsTrue result ↔ MatchesHeap self.now x.now y.now }
    {
        match x.concrete().zip(y.concrete()) {
            Some(((kind, x), (other, y))) => kind == other && self.is_subtype(x, y),
            None => x.is_under(y),
        }
    }

    /// Whether a reference of the first type is one of the second: its heap type matches, and it
    /// isn't nullable or the other is.
    pub(crate) fn matches_ref(&self, x: &RefType, y: &RefType) -> bool
        ensures { IsTrue result ↔ MatchesRef self.now x.now y.now }
    {
        (!x.nullable || y.nullable) && self.matches_heap(&x.heap_type, &y.heap_type)
    }

    /// Whether a value of the first type is one of the second. Numbers match alone where they are equal.
    pub(crate) fn matches_val(&self, x: &ValType, y: &ValType) -> bool
        ensures { IsTrue result ↔ MatchesVal self.now x.now y.now }
    {
        match (x, y) {
            (ValType::Ref(x), ValType::Ref(y)) => self.matches_ref(x, y),
            _ => x == y,
        }
    }

    /// Whether what is stored as the first type may be read as the second. A packed number matches
    /// itself alone.
    pub(crate) fn matches_storage(&self, x: &StorageType, y: &StorageType) -> bool
        ensures { IsTrue result ↔ MatchesStorage self.now x.now y.now }
    {
        match (x, y) {
            (StorageType::ValType(x), StorageType::ValType(y)) => self.matches_val(x, y),
            _ => x == y,
        }
    }

    /// Whether a field of the first type may stand for one of the second: the mutabilities are equal
    /// and the storage type matches, for a mutable field both ways, as it is written too.
    pub(crate) fn matches_field(&self, x: &FieldType, y: &FieldType) -> bool
        ensures { IsTrue result ↔ MatchesField self.now x.now y.now }
    {
        x.mutability == y.mutability
            && self.matches_storage(&x.element_type, &y.element_type)
            && (x.mutability == Mutability::Const
                || self.matches_storage(&y.element_type, &x.element_type))
    }
}

impl HeapType {
    /// The kind and the index of the declared type that the heap type names; None for an abstract one.
    pub(crate) fn concrete(&self) -> Option<(TypeKind, VMSharedTypeIndex)>
        ensures { result ≡ concrete self.now }
    {
        match self {
            HeapType::ConcreteStruct(ty) => Some((TypeKind::Struct, *ty)),
            HeapType::ConcreteArray(ty) => Some((TypeKind::Array, *ty)),
            HeapType::ConcreteFunc(ty) => Some((TypeKind::Func, *ty)),
            HeapType::ConcreteExn(ty) => Some((TypeKind::Exn, *ty)),
            _ => None,
        }
    }

    /// Whether the type matches the other by the diagram of heap types alone, with no two concrete
    /// types compared.
    fn is_under(&self, upper: &HeapType) -> bool
        ensures { result ≡ is_under self.now upper.now }
    {
        match upper {
            HeapType::Any => matches!(self, HeapType::Any) || self.is_under_eq(),
            HeapType::Eq => self.is_under_eq(),
            HeapType::I31 => matches!(self, HeapType::I31 | HeapType::None),
            HeapType::Struct => matches!(
                self,
                HeapType::Struct | HeapType::ConcreteStruct(_) | HeapType::None
            ),
            HeapType::Array => matches!(
                self,
                HeapType::Array | HeapType::ConcreteArray(_) | HeapType::None
            ),
            HeapType::None | HeapType::ConcreteStruct(_) | HeapType::ConcreteArray(_) => {
                matches!(self, HeapType::None)
            }
            HeapType::Extern => matches!(self, HeapType::Extern | HeapType::NoExtern),
            HeapType::NoExtern => matches!(self, HeapType::NoExtern),
            HeapType::Func => matches!(
                self,
                HeapType::Func | HeapType::ConcreteFunc(_) | HeapType::NoFunc
            ),
            HeapType::NoFunc | HeapType::ConcreteFunc(_) => matches!(self, HeapType::NoFunc),
            HeapType::Exn => matches!(
                self,
                HeapType::Exn | HeapType::ConcreteExn(_) | HeapType::NoExn
            ),
            HeapType::NoExn | HeapType::ConcreteExn(_) => matches!(self, HeapType::NoExn),
            HeapType::Cont => matches!(self, HeapType::Cont | HeapType::NoCont),
            HeapType::NoCont => matches!(self, HeapType::NoCont),
        }
    }

    /// Whether the type matches `Eq`.
    fn is_under_eq(&self) -> bool
        ensures { result ≡ is_under_eq self.now }
    {
        matches!(
            self,
            HeapType::Eq
                | HeapType::I31
                | HeapType::Struct
                | HeapType::ConcreteStruct(_)
                | HeapType::Array
                | HeapType::ConcreteArray(_)
                | HeapType::None
        )
    }
}
