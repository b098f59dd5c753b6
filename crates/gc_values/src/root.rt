//! Handles of roots, and the values that go in and out of a store.

use crate::engine::StoreId;
use gc_owner::GcClass;
use gc_refs::{I31, V128};
use gc_types::{Func, Tag, VMSharedTypeIndex};
use thiserror::Error;

/// Which root of a store a handle names.
#[derive(Clone, Copy, Debug, PartialEq, Eq, Hash)]
pub enum RootSlot {
    /// A scoped root, by its index.
    Scoped(u32),
    /// An owned root, by the low 32 bits of its number, which is the handle's generation.
    Owned(u32),
}

/// A handle of a root. It is live as long as its root stands; an index that is used again has
/// another generation, so a handle of a scope that was left is never live again.
#[derive(Clone, Copy, Debug, PartialEq, Eq, Hash)]
pub struct GcRootIndex {
    pub store_id: StoreId,
    pub generation: u64,
    pub slot: RootSlot,
}

/// Why a handle is refused, or a root is not made.
#[derive(Clone, Copy, Debug, PartialEq, Eq, Error)]
pub enum RootFault {
    #[error("the handle is another store's")]
    WrongStore,
    #[error("the handle's root was dropped")]
    Unrooted,
    #[error("no further root may be made")]
    RootsFull,
    #[error("out of memory")]
    Memory,
}

/// A value as a store takes and gives it. Floating-point numbers are their bits, and a continuation is the number that
/// the embedder has for it, or none.
#[derive(Clone, Copy, Debug)]
pub enum RawValue {
    I32(i32),
    I64(i64),
    F32(u32),
    F64(u64),
    V128(V128),
    Func(Option<Func>),
    Cont(Option<u64>),
    Ref(GcClass, Option<GcRootIndex>),
}

/// What a reference is.
#[derive(Clone, Copy, Debug)]
pub enum RootedObject {
    I31(I31),
    Struct(VMSharedTypeIndex),
    /// An array's type and its length.
    Array(VMSharedTypeIndex, u32),
    Host,
    Exn(VMSharedTypeIndex, Tag),
}
