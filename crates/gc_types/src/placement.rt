//! The layouts of a type in each of the three heaps.

ghost use Rattle.std.specs.Prelude.{◌≡◌, ◌+◌, ◌≤◌, ◌<◌, ◌^◌, length, IfOk};
ghost use Rattle.gc_types.specs.Layouts.{struct_base, exception_base, array_base, array_layout, storage_width, is_gc_storage, is_gc_heap_type, round_up};
ghost use Rattle.gc_types.specs.Entries.{fields_layout, object_layout, object_layouts, object_in, array_layouts, array_in};

use crate::kind::Layouts;
use crate::layout::{FieldLayout, FieldLayouts, GcArrayLayout, GcStructLayout};
use crate::value::{FieldType, HeapType, StorageType, ValType};
use std::alloc::{AllocError, Global};

impl Layouts {
    /// The first offset of a struct that a field may take, in bytes.
    pub fn struct_base(self) -> u32
        ensures value { result ≡ struct_base self }
        ensures small { result ≤ 28 }
    {
        match self {
            Layouts::Null => 8,
            Layouts::Counting => 28,
            Layouts::Copying => 12,
        }
    }

    /// The first offset of an exception that a field may take, in bytes.
    pub fn exception_base(self) -> u32
        ensures value { result ≡ exception_base self }
        ensures small { result ≤ 36 }
    {
        match self {
            Layouts::Null => 16,
            Layouts::Counting => 36,
            Layouts::Copying => 20,
        }
    }

    /// Where the elements of an array begin, before that is rounded up to their width, in bytes.
    pub fn array_base(self) -> u32
        ensures value { result ≡ array_base self }
        ensures small { result ≤ 32 }
    {
        match self {
            Layouts::Null => 12,
            Layouts::Counting => 32,
            Layouts::Copying => 16,
        }
    }
}

impl HeapType {
    fn is_gc(&self) -> bool
        ensures { result ≡ is_gc_heap_type self.now }
    {
        !matches!(
            self,
            HeapType::Func
                | HeapType::NoFunc
                | HeapType::ConcreteFunc(_)
                | HeapType::Cont
                | HeapType::NoCont
        )
    }
}

impl StorageType {
    /// The bytes that a field of the type takes.
    pub fn width(&self) -> u32
        ensures value { result ≡ storage_width self.now }
        ensures positive { 0 < result }
        ensures small { result ≤ 16 }
    {
        match self {
            StorageType::I8 => 1,
            StorageType::I16 => 2,
            StorageType::ValType(ValType::I32 | ValType::F32 | ValType::Ref(_)) => 4,
            StorageType::ValType(ValType::I64 | ValType::F64) => 8,
            StorageType::ValType(ValType::V128) => 16,
        }
    }

    /// Whether a collection follows what a field of the type holds.
    pub fn is_gc_ref(&self) -> bool
        ensures { result ≡ is_gc_storage self.now }
    {
        match self {
            StorageType::ValType(ValType::Ref(ty)) => ty.heap_type.is_gc(),
            _ => false,
        }
    }
}

/// The least multiple of `width` that is not below `offset`.
fn next_multiple(offset: u32, width: u32) -> u32
    requires positive { 0 < width }
    requires fits { offset + width < 2 ^ 32 }
    ensures value { result ≡ round_up offset width }
    ensures near { result < offset + width }
{
    (offset + (width - 1)) / width * width
}

/// The layout of an object whose fields begin at `base`. Its time is linear in their number.
fn lay_out(
    alloc: Global,
    base: u32,
    is_exception: bool,
    fields: &[FieldType],
) -> Result<GcStructLayout, AllocError>
    requires few { length fields.now ≤ 10000 }
    requires small { base ≤ 36 }
    ensures { IfOk result (λ layout. layout ≡ fields_layout base is_exception fields.now) }
{
    let mut places = Vec::with_capacity(alloc, fields.len())?;
    let mut end = base;
    for field in fields {
        let width = field.element_type.width();
        let offset = next_multiple(end, width);
        let is_gc_ref = field.element_type.is_gc_ref();
        places.push(FieldLayout { offset, is_gc_ref })?;
        end = offset + width;
    }
    Ok(GcStructLayout {
        size: end,
        is_exception,
        fields: FieldLayouts::from(places),
    })
}

/// Where the values of a struct or an exception lie in each heap.
#[derive(Drop)]
pub(crate) struct ObjectLayouts {
    null: GcStructLayout,
    counting: GcStructLayout,
    copying: GcStructLayout,
}

/// The layout of a struct or an exception in that heap. Its time is linear in the fields.
fn lay_out_in(
    alloc: Global,
    heap: Layouts,
    is_exception: bool,
    fields: &[FieldType],
) -> Result<GcStructLayout, AllocError>
    requires { length fields.now ≤ 10000 }
    ensures { IfOk result (λ o. o ≡ object_layout is_exception heap fields.now) }
{
    let base = if is_exception {
        heap.exception_base()
    } else {
        heap.struct_base()
    };
    lay_out(alloc, base, is_exception, fields)
}

impl ObjectLayouts {
    /// The layouts of objects with these fields. Its time is linear in their number.
    pub(crate) fn new(
        alloc: Global,
        is_exception: bool,
        fields: &[FieldType],
    ) -> Result<ObjectLayouts, AllocError>
        requires { length fields.now ≤ 10000 }
        ensures { IfOk result (λ o. o ≡ object_layouts is_exception fields.now) }
    {
        let null = lay_out_in(alloc, Layouts::Null, is_exception, fields)?;
        let counting = lay_out_in(alloc, Layouts::Counting, is_exception, fields)?;
        let copying = lay_out_in(alloc, Layouts::Copying, is_exception, fields)?;
        Ok(ObjectLayouts {
            null,
            counting,
            copying,
        })
    }

    /// The layout in that heap.
    pub(crate) fn get(&self, heap: Layouts) -> &GcStructLayout
        ensures { result.now ≡ object_in heap self.now }
    {
        match heap {
            Layouts::Null => &self.null,
            Layouts::Counting => &self.counting,
            Layouts::Copying => &self.copying,
        }
    }
}

/// Where the elements of an array lie in each heap.
#[derive(Drop)]
pub(crate) struct ArrayLayouts {
    null: GcArrayLayout,
    counting: GcArrayLayout,
    copying: GcArrayLayout,
}

impl Layouts {
    /// The layout of an array of these elements.
    fn array_layout(self, elem: &FieldType) -> GcArrayLayout
        ensures { result ≡ array_layout self elem.now }
    {
        let elem_size = elem.element_type.width();
        GcArrayLayout {
            base_size: next_multiple(self.array_base(), elem_size),
            elem_size,
            elems_are_gc_refs: elem.element_type.is_gc_ref(),
        }
    }
}

impl ArrayLayouts {
    /// The layouts of an array of these elements.
    pub(crate) fn new(elem: &FieldType) -> ArrayLayouts
        ensures { result ≡ array_layouts elem.now }
    {
        ArrayLayouts {
            null: Layouts::Null.array_layout(elem),
            counting: Layouts::Counting.array_layout(elem),
            copying: Layouts::Copying.array_layout(elem),
        }
    }

    /// The layout in that heap.
    pub(crate) fn get(&self, heap: Layouts) -> &GcArrayLayout
        ensures { result.now ≡ array_in heap self.now }
    {
        match heap {
            Layouts::Null => &self.null,
            Layouts::Counting => &self.counting,
            Layouts::Copying => &self.copying,
        }
    }
}
