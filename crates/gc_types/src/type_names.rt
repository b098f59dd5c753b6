//! Names of declared types: the id of a table and an index there.

ghost use Rattle.std.specs.Prelude.{◌≡◌};

use crate::index::VMSharedTypeIndex;
use std::marker::{Model, PhantomData};

/// The name of a declared type, whose kind `K` tells.
#[derive_where(Clone, Copy, Debug)]
pub struct TypeOfKind<K> {
    engine: u64,
    number: u64,
    index: VMSharedTypeIndex,
    kind: PhantomData<K>,
}

/// What the name of a struct type, an array type, an exception type or a function type is marked by.
#[derive(Clone, Copy, Debug)]
pub struct OfStruct;

#[derive(Clone, Copy, Debug)]
pub struct OfArray;

#[derive(Clone, Copy, Debug)]
pub struct OfExn;

#[derive(Clone, Copy, Debug)]
pub struct OfFunc;

/// The name of a declared struct type.
pub type StructType = TypeOfKind<OfStruct>;

/// The name of a declared array type.
pub type ArrayType = TypeOfKind<OfArray>;

/// The name of a declared exception type.
pub type ExnType = TypeOfKind<OfExn>;

/// The name of a declared function type.
pub type FuncType = TypeOfKind<OfFunc>;

impl<K> Model for TypeOfKind<K> {
    ghost use Rattle.gc_types.specs.Declarations.{TypeName};

    ghost Value = { TypeName };

    ghost view = { λ t. record { engine = t.engine; number = t.number; index = t.index } };

    ghost inverse = { λ n. record { engine = n.engine; number = n.number; index = n.index; kind = record {} } };
}

impl<K> TypeOfKind<K> {
    pub(crate) fn new(engine: u64, number: u64, index: VMSharedTypeIndex) -> TypeOfKind<K>
        ensures { result ≡ record { engine = engine; number = number; index = index } }
    {
        TypeOfKind {
            engine,
            number,
            index,
            kind: PhantomData,
        }
    }

    /// The first number of its table's id.
    pub fn engine(&self) -> u64
        ensures { result ≡ self.now.engine }
    {
        self.engine
    }

    /// The second number of its table's id.
    pub fn number(&self) -> u64
        ensures { result ≡ self.now.number }
    {
        self.number
    }

    /// The type's index in its table.
    pub fn index(&self) -> VMSharedTypeIndex
        ensures { result ≡ self.now.index }
    {
        self.index
    }
}
