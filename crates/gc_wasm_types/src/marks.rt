//! The types of references that have values of their own.

use gc_objects::{ArrayRef, ExternRef, StructRef};
use gc_rooted::GcRef;
use gc_types::HeapType;

/// A type of references whose handles go in and out of raw words.
pub trait WasmRef: GcRef {
    ghost use Rattle.std.specs.Prelude.{◌≡◌};
    ghost use Rattle.gc_types.specs.declared.value.HeapType.{HeapType};

    ghost HEAP: { HeapType };

    /// The type of all these references.
    fn heap_type() -> HeapType
        ensures { result ≡ HEAP };
}

impl WasmRef for StructRef {
    ghost use Rattle.gc_types.specs.declared.value.HeapType.{HeapType};

    ghost HEAP = { HeapType.Struct };

    fn heap_type() -> HeapType {
        HeapType::Struct
    }
}

impl WasmRef for ArrayRef {
    ghost use Rattle.gc_types.specs.declared.value.HeapType.{HeapType};

    ghost HEAP = { HeapType.Array };

    fn heap_type() -> HeapType {
        HeapType::Array
    }
}

impl WasmRef for ExternRef {
    ghost use Rattle.gc_types.specs.declared.value.HeapType.{HeapType};

    ghost HEAP = { HeapType.Extern };

    fn heap_type() -> HeapType {
        HeapType::Extern
    }
}
