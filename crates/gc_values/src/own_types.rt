//! The type that an object has by itself.

ghost use Rattle.std.specs.Prelude.{◌≡◌};
ghost use Rattle.gc_values.specs.OwnTypes.{own_type};

use crate::root::RootedObject;
use gc_owner::GcClass;
use gc_types::HeapType;

/// The type of an object by itself, as a reference of class any.
fn own_any_type(object: &RootedObject) -> Option<HeapType>
    ensures { result ≡ own_type GcClass.Any object.now }
{
    match object {
        RootedObject::I31(_) => Some(HeapType::I31),
        RootedObject::Struct(ty) => Some(HeapType::ConcreteStruct(*ty)),
        RootedObject::Array(ty, _) => Some(HeapType::ConcreteArray(*ty)),
        RootedObject::Host => None,
        RootedObject::Exn(..) => None,
    }
}

/// The type of an object by itself, as a reference of that class; None where it fits no type of the class.
pub fn own_type(class: GcClass, object: &RootedObject) -> Option<HeapType>
    ensures { result ≡ own_type class object.now }
{
    match class {
        GcClass::Any => own_any_type(object),
        GcClass::Extern => match object {
            RootedObject::Exn(..) => None,
            _ => Some(HeapType::Extern),
        },
        GcClass::Exn => match object {
            RootedObject::Exn(ty, _) => Some(HeapType::ConcreteExn(*ty)),
            _ => None,
        },
    }
}
