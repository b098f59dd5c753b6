//! What the layout of a type says of a new object.

ghost use Rattle.std.specs.Prelude.{◌≡◌};
ghost use Rattle.gc_heap.specs.Heap.{array_size, layout_kind};

use gc_types::{GcArrayLayout, GcStructLayout, VMGcKind};

/// The kind of an object with that layout.
pub(crate) fn kind_of_layout(layout: &GcStructLayout) -> VMGcKind
    ensures { result ≡ layout_kind layout.now }
{
    if layout.is_exception {
        VMGcKind::ExnRef
    } else {
        VMGcKind::StructRef
    }
}

/// The bytes of an array of that length.
pub(crate) fn array_bytes(layout: &GcArrayLayout, length: u32) -> u64
    ensures { result ≡ array_size layout.now length }
{
    u64::from(layout.base_size) + u64::from(length) * u64::from(layout.elem_size)
}
