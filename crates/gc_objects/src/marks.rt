//! The types that handles are marked with. They are markers: nothing is ever made of them.

ghost use Rattle.gc_types.specs.declared.kind.VMGcKind.{VMGcKind};
ghost use Rattle.gc_owner.specs.declared.entry.GcClass.{GcClass};

use gc_rooted::GcRef;
use gc_store::GcClass;
use gc_types::VMGcKind;

/// References that are 31-bit numbers, structs or arrays.
pub struct AnyRef;

impl GcRef for AnyRef {
    ghost CLASS = { GcClass.Any };

    ghost KIND = { VMGcKind.AnyRef };

    const CLASS: GcClass = GcClass::Any;

    const KIND: VMGcKind = VMGcKind::AnyRef;
}

/// References that can be compared: the same as `AnyRef` so far.
pub struct EqRef;

impl GcRef for EqRef {
    ghost CLASS = { GcClass.Any };

    ghost KIND = { VMGcKind.EqRef };

    const CLASS: GcClass = GcClass::Any;

    const KIND: VMGcKind = VMGcKind::EqRef;
}

/// References to structs.
pub struct StructRef;

impl GcRef for StructRef {
    ghost CLASS = { GcClass.Any };

    ghost KIND = { VMGcKind.StructRef };

    const CLASS: GcClass = GcClass::Any;

    const KIND: VMGcKind = VMGcKind::StructRef;
}

/// References to arrays.
pub struct ArrayRef;

impl GcRef for ArrayRef {
    ghost CLASS = { GcClass.Any };

    ghost KIND = { VMGcKind.ArrayRef };

    const CLASS: GcClass = GcClass::Any;

    const KIND: VMGcKind = VMGcKind::ArrayRef;
}

/// References of the embedder: anything but an exception.
pub struct ExternRef;

impl GcRef for ExternRef {
    ghost CLASS = { GcClass.Extern };

    ghost KIND = { VMGcKind.ExternRef };

    const CLASS: GcClass = GcClass::Extern;

    const KIND: VMGcKind = VMGcKind::ExternRef;
}

/// References to exceptions.
pub struct ExnRef;

impl GcRef for ExnRef {
    ghost CLASS = { GcClass.Exn };

    ghost KIND = { VMGcKind.ExnRef };

    const CLASS: GcClass = GcClass::Exn;

    const KIND: VMGcKind = VMGcKind::ExnRef;
}
