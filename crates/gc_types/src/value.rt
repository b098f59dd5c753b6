//! The types of values, fields and references (WebAssembly GC proposal).

ghost use Rattle.std.specs.Prelude.{◌≡◌, ◌<◌, ◌≤◌, ◌^◌, ◌↔◌, IsTrue, IfSome, IfNone};
ghost use Rattle.gc_types.specs.Values.{unpacked, heap_top};

use crate::index::VMSharedTypeIndex;

/// Whether a field may be written after its object is made.
#[derive(Clone, Copy, Debug, PartialEq, Eq, Hash)]
pub enum Mutability {
    Const,
    Var,
}

impl Mutability {
    /// Whether the field may be written.
    pub fn is_var(&self) -> bool
        ensures { IsTrue result ↔ (self.now ≡ Mutability.Var) }
    {
        matches!(self, Mutability::Var)
    }
}

/// What a field or an element holds: a value, or a number packed into 8 or 16 bits.
#[derive(Clone, Copy, Debug, PartialEq, Eq, Hash)]
pub enum StorageType {
    I8,
    I16,
    ValType(ValType),
}

impl StorageType {
    /// Whether this is a number packed into 8 bits.
    pub fn is_i8(&self) -> bool
        ensures { IsTrue result ↔ (self.now ≡ StorageType.I8) }
    {
        matches!(self, StorageType::I8)
    }

    /// Whether this is a number packed into 16 bits.
    pub fn is_i16(&self) -> bool
        ensures { IsTrue result ↔ (self.now ≡ StorageType.I16) }
    {
        matches!(self, StorageType::I16)
    }

    /// The type of the value that is read: a packed number is read as 32 bits.
    pub fn unpack(&self) -> ValType
        ensures { result ≡ unpacked self.now }
    {
        match self {
            StorageType::I8 | StorageType::I16 => ValType::I32,
            StorageType::ValType(ty) => *ty,
        }
    }
}

/// The type of a value. `F32` and `F64` are 32 and 64 bits and nothing more.
#[derive(Clone, Copy, Debug, PartialEq, Eq, Hash)]
pub enum ValType {
    I32,
    I64,
    F32,
    F64,
    V128,
    Ref(RefType),
}

/// The type of a reference.
#[derive(Clone, Copy, Debug, PartialEq, Eq, Hash)]
pub struct RefType {
    pub nullable: bool,
    pub heap_type: HeapType,
}

/// What a reference may name. The concrete types are indexes into the type table.
#[derive(Clone, Copy, Debug, PartialEq, Eq, Hash)]
pub enum HeapType {
    Any,
    Eq,
    I31,
    Struct,
    Array,
    None,
    ConcreteStruct(VMSharedTypeIndex),
    ConcreteArray(VMSharedTypeIndex),
    Extern,
    NoExtern,
    Func,
    NoFunc,
    ConcreteFunc(VMSharedTypeIndex),
    Exn,
    NoExn,
    ConcreteExn(VMSharedTypeIndex),
    Cont,
    NoCont,
}

/// The greatest types of the five hierarchies of references.
#[derive(Clone, Copy, Debug, PartialEq, Eq, Hash)]
pub enum HeapTopType {
    Any,
    Extern,
    Func,
    Exn,
    Cont,
}

impl HeapType {
    /// The greatest type that this one matches.
    pub fn top(&self) -> HeapTopType
        ensures { result ≡ heap_top self.now }
    {
        match self {
            HeapType::Any
            | HeapType::Eq
            | HeapType::I31
            | HeapType::Struct
            | HeapType::Array
            | HeapType::None
            | HeapType::ConcreteStruct(_)
            | HeapType::ConcreteArray(_) => HeapTopType::Any,
            HeapType::Extern | HeapType::NoExtern => HeapTopType::Extern,
            HeapType::Func | HeapType::NoFunc | HeapType::ConcreteFunc(_) => HeapTopType::Func,
            HeapType::Exn | HeapType::NoExn | HeapType::ConcreteExn(_) => HeapTopType::Exn,
            HeapType::Cont | HeapType::NoCont => HeapTopType::Cont,
        }
    }
}

/// The type of a field or an element.
#[derive(Clone, Copy, Debug, PartialEq, Eq, Hash)]
pub struct FieldType {
    pub mutability: Mutability,
    pub element_type: StorageType,
}

/// A function value: a number of the embedder's and its function type.
#[derive(Clone, Copy, Debug, PartialEq, Eq, Hash)]
pub struct Func {
    pub number: u32,
    pub ty: VMSharedTypeIndex,
}

impl Func {
    /// The function value of that number and type. None exactly where the number is 2^31 or more.
    pub fn new(number: u32, ty: VMSharedTypeIndex) -> Option<Func>
        ensures some { IfSome result (λ func. func ≡ record { number = number; ty = ty }) }
        ensures small { IfSome result (λ func. func.number < 2 ^ 31) }
        ensures none { IfNone result (2 ^ 31 ≤ number) }
    {
        (number < 0x8000_0000).then_some(Func { number, ty })
    }
}

/// The tag of an exception: two plain numbers.
#[derive(Clone, Copy, Debug, PartialEq, Eq, Hash)]
pub struct Tag {
    pub instance: u32,
    pub index: u32,
}
