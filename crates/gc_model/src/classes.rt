//! Classes of references, and null in each.

ghost use Rattle.std.specs.Prelude.{◌≡◌};
ghost use Rattle.gc_model.specs.Fits.{has_class, null_fits};

use gc_owner::GcClass;
use gc_types::{HeapTopType, RefType};

/// Whether references whose types lie under that top have the class.
pub fn has_class(top: HeapTopType, class: GcClass) -> bool
    ensures { result ≡ has_class top class }
{
    match top {
        HeapTopType::Any => matches!(class, GcClass::Any),
        HeapTopType::Extern => matches!(class, GcClass::Extern),
        HeapTopType::Exn => matches!(class, GcClass::Exn),
        HeapTopType::Func => false,
        HeapTopType::Cont => false,
    }
}

/// Whether null fits the type in that class.
pub fn null_fits(ty: &RefType, class: GcClass) -> bool
    ensures { result ≡ null_fits ty.now class }
{
    ty.nullable && has_class(ty.heap_type.top(), class)
}
