//! Requests for objects.

ghost use Rattle.std.specs.Prelude.{◌≡◌};
ghost use Rattle.gc_values.specs.Filling.{asked_type};

use crate::root::RawValue;
use gc_types::{Tag, TypeShape, VMSharedTypeIndex};

/// What is to be placed.
#[derive(Clone, Copy, Debug)]
pub enum Place {
    Struct(VMSharedTypeIndex),
    Exn(VMSharedTypeIndex, Tag),
    /// An array's type and its length.
    Array(VMSharedTypeIndex, u32),
}

impl Place {
    /// The type of what is to be placed.
    #[inline(always)]
    pub fn ty(&self) -> VMSharedTypeIndex
        ensures { result ≡ asked_type self.now }
    {
        match *self {
            Place::Struct(ty) => ty,
            Place::Exn(ty, _) => ty,
            Place::Array(ty, _) => ty,
        }
    }
}

/// The type of a new object: its index, and what it lists.
#[derive(Clone, Copy)]
pub(crate) struct DeclaredType<'a> {
    pub(crate) index: VMSharedTypeIndex,
    pub(crate) shape: &'a TypeShape,
}

/// The values of what is to be placed.
#[derive(Clone, Copy, Debug)]
pub enum Contents<'a> {
    /// A value for each field or element, in order.
    Each(&'a [RawValue]),
    /// One value for all elements of an array. It isn't looked at where there are none.
    Same(&'a RawValue),
    /// The elements of an array of bytes.
    Bytes(&'a [u8]),
}
