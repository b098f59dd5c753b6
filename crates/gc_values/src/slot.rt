//! Where the values of an object lie.

ghost use Rattle.std.specs.Prelude.{◌≡◌, List, Some};
ghost use Rattle.gc_types.specs.declared.kind.Layouts.{Layouts};
ghost use Rattle.gc_types.specs.declared.value.FieldType.{FieldType};
ghost use Rattle.gc_types.specs.Declarations.{Shape, shape_elem, shape_fields};
ghost use Rattle.gc_values.specs.HeldSlots.{AreFieldSlots, HasShapeSlot, FindsShapeSlot, IsHeldWithSlot, FindsHeldSlot};

use gc_heap::GcHeap;
use gc_heap::access::header_of;
use gc_refs::VMGcRef;
use gc_types::{FieldLayout, FieldType, Layouts, StorageType, TypeShape, Types};

/// A place for one value in an object.
#[derive(Clone, Copy)]
pub struct Slot {
    /// What the value is stored as.
    pub storage: StorageType,
    /// Bytes from the object's first byte.
    pub offset: u32,
}

/// The fields of a struct or an exception, with where they lie.
#[derive(Clone, Copy)]
pub(crate) struct FieldSlots<'a> {
    fields: &'a [FieldType],
    field_layouts: &'a [FieldLayout],
}

impl FieldSlots<'_> {
    /// The slot of a field.
    #[inline(always)]
    pub(crate) fn at(&self, index: u32) -> Slot
        requires { (layouts : Layouts) × ((shape : Shape) × (AreFieldSlots layouts shape self.now × HasShapeSlot layouts shape index)) }
        ensures { (layouts : Layouts) (shape : Shape) → AreFieldSlots layouts shape self.now → FindsShapeSlot layouts shape index result }
    {
        Slot {
            storage: self.fields[index as usize].element_type,
            offset: self.field_layouts[index as usize].offset,
        }
    }
}

/// The slots of the fields of a struct or an exception of that shape.
#[inline(always)]
pub(crate) fn field_slots(shape: &TypeShape, layouts: Layouts) -> FieldSlots<'_>
    requires { (fields : List FieldType) × (shape_fields shape.now ≡ Some fields) }
    ensures { AreFieldSlots layouts shape.now result }
{
    let layout = shape.struct_layout(layouts).unwrap();
    FieldSlots {
        fields: shape.fields().unwrap(),
        field_layouts: layout.fields.as_slice(),
    }
}

/// The slot of an element of an array of that shape.
#[inline(always)]
pub(crate) fn element_slot(
    shape: &TypeShape,
    layouts: Layouts,
    index: u32,
    element: FieldType,
) -> Slot
    requires has { HasShapeSlot layouts shape.now index }
    requires element { shape_elem shape.now ≡ Some element }
    ensures { FindsShapeSlot layouts shape.now index result }
{
    let storage = element.element_type;
    let layout = shape.array_layout(layouts).unwrap();
    Slot {
        storage,
        offset: layout.elem_offset(index).unwrap(),
    }
}

/// The slot of the value at that index of an object of that shape.
#[inline(always)]
pub(crate) fn slot_at(shape: &TypeShape, layouts: Layouts, index: u32) -> Slot
    requires { HasShapeSlot layouts shape.now index }
    ensures { FindsShapeSlot layouts shape.now index result }
{
    match shape.elem_type() {
        Some(element) => element_slot(shape, layouts, index, *element),
        None => field_slots(shape, layouts).at(index),
    }
}

/// The slot of the value at that index of a held object.
#[inline(always)]
pub fn slot_in<H: GcHeap>(heap: &H, types: &Types, gc_ref: &VMGcRef, index: u32) -> Slot
    requires sound { H.sound heap.now }
    requires has { IsHeldWithSlot H.KIND types.now.declarations (H.seen heap.now) gc_ref.now index }
    ensures { FindsHeldSlot H.KIND types.now.declarations (H.seen heap.now) gc_ref.now index result }
{
    let header = header_of(heap, gc_ref);
    let shape = types.shape(header.type_index()).unwrap();
    slot_at(shape, H::KIND, index)
}
