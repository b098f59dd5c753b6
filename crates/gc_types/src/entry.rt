//! What is kept of a declared type.

ghost use Rattle.std.specs.Prelude.{◌≡◌, ◌≤◌, true, false, length, map, option_map, option_copied, slice_get, IfOk};
ghost use Rattle.std.specs.Option.{option_and_then};
ghost use Rattle.gc_types.specs.Declarations.{shape_kind, shape_fields, shape_struct_fields, shape_elem, constant_field};
ghost use Rattle.gc_types.specs.Layouts.{shape_layout, array_layout, shape_trace};
ghost use Rattle.gc_types.specs.Entries.{object_layout};
ghost use Rattle.gc_types.specs.Shapes.{shape_of};

use crate::index::VMSharedTypeIndex;
use crate::kind::{Layouts, TypeKind};
use crate::layout::{GcArrayLayout, GcStructLayout, TraceInfo};
use crate::placement::{ArrayLayouts, ObjectLayouts};
use crate::traces::Traces;
use crate::value::{FieldType, Mutability, StorageType, ValType};
use std::alloc::{AllocError, Global};
use std::marker::Model;
use std::rc::Rc;

/// A struct's fields, with where they lie in each heap.
#[derive(Drop)]
pub(crate) struct StructFields {
    fields: Vec<FieldType>,
    layouts: ObjectLayouts,
}

impl Model for StructFields {
    ghost use Rattle.std.specs.Prelude.{List, ◌≡◌, false};
    ghost use Rattle.gc_types.specs.declared.value.FieldType.{FieldType};
    ghost use Rattle.gc_types.specs.Entries.{object_layouts};

    ghost Value = { List FieldType };

    ghost view = { λ s. s.fields.items };

    ghost invariant = { λ s. s.layouts ≡ object_layouts false s.fields.items };
}

impl StructFields {
    /// Time is linear in the fields.
    pub(crate) fn new(alloc: Global, fields: &[FieldType]) -> Result<StructFields, AllocError>
        requires { length fields.now ≤ 10000 }
        ensures { IfOk result (λ s. s ≡ fields.now) }
    {
        let layouts = ObjectLayouts::new(alloc, false, fields)?;
        let fields = Vec::from_slice(alloc, fields)?;
        Ok(StructFields { fields, layouts })
    }

    pub(crate) fn as_slice(&self) -> &[FieldType]
        ensures { result.now ≡ self.now }
    {
        self.fields.as_slice()
    }

    /// Where they lie in that heap.
    #[inline(always)]
    pub(crate) fn layout(&self, heap: Layouts) -> &GcStructLayout
        ensures { result.now ≡ object_layout false heap self.now }
    {
        self.layouts.get(heap)
    }
}

/// An exception's parameters and the fields that they stand for, with where these lie in each heap.
#[derive(Drop)]
// What it has alike with a struct stands first, so that one is read as the other.
pub(crate) struct ExnParams {
    fields: Vec<FieldType>,
    layouts: ObjectLayouts,
    params: Vec<ValType>,
}

impl Model for ExnParams {
    ghost use Rattle.std.specs.Prelude.{List, ◌≡◌, true, map};
    ghost use Rattle.gc_types.specs.declared.value.ValType.{ValType};
    ghost use Rattle.gc_types.specs.Entries.{object_layouts};
    ghost use Rattle.gc_types.specs.Declarations.{constant_field};

    ghost Value = { List ValType };

    ghost view = { λ e. e.params.items };

    ghost invariant = { λ e. (e.fields.items ≡ map constant_field e.params.items) × (e.layouts ≡ object_layouts true (map constant_field e.params.items)) };
}

impl ExnParams {
    /// Time is linear in the parameters.
    pub(crate) fn new(alloc: Global, params: &[ValType]) -> Result<ExnParams, AllocError>
        requires { length params.now ≤ 10000 }
        ensures { IfOk result (λ e. e ≡ params.now) }
    {
        let fields = constant_fields(alloc, params)?;
        let layouts = ObjectLayouts::new(alloc, true, fields.as_slice())?;
        let params = Vec::from_slice(alloc, params)?;
        Ok(ExnParams {
            fields,
            layouts,
            params,
        })
    }

    pub(crate) fn as_slice(&self) -> &[ValType]
        ensures { result.now ≡ self.now }
    {
        self.params.as_slice()
    }

    /// The fields of an exception with these parameters.
    #[inline(always)]
    fn fields(&self) -> &[FieldType]
        ensures { result.now ≡ map constant_field self.now }
    {
        self.fields.as_slice()
    }

    /// Where they lie in that heap.
    #[inline(always)]
    pub(crate) fn layout(&self, heap: Layouts) -> &GcStructLayout
        ensures { result.now ≡ object_layout true heap (map constant_field self.now) }
    {
        self.layouts.get(heap)
    }
}

impl FieldType {
    /// A constant field of that type.
    fn constant(ty: ValType) -> FieldType
        ensures { result ≡ constant_field ty }
    {
        FieldType {
            mutability: Mutability::Const,
            element_type: StorageType::ValType(ty),
        }
    }
}

/// The fields of an exception with these parameters.
fn constant_fields(alloc: Global, params: &[ValType]) -> Result<Vec<FieldType>, AllocError>
    ensures { IfOk result (λ fields. fields.items ≡ map constant_field params.now) }
{
    params
        .iter()
        .map(|ty| FieldType::constant(*ty))
        .collect(alloc)
}

/// An array's element, with where the elements lie in each heap.
#[derive(Drop)]
pub(crate) struct ArrayElem {
    elem: FieldType,
    layouts: ArrayLayouts,
}

impl Model for ArrayElem {
    ghost use Rattle.std.specs.Prelude.{◌≡◌};
    ghost use Rattle.gc_types.specs.declared.value.FieldType.{FieldType};
    ghost use Rattle.gc_types.specs.Entries.{array_layouts};

    ghost Value = { FieldType };

    ghost view = { λ a. a.elem };

    ghost invariant = { λ a. a.layouts ≡ array_layouts a.elem };
}

impl ArrayElem {
    pub(crate) fn new(elem: FieldType) -> ArrayElem
        ensures { result ≡ elem }
    {
        ArrayElem {
            elem,
            layouts: ArrayLayouts::new(&elem),
        }
    }

    #[inline(always)]
    pub(crate) fn elem(&self) -> &FieldType
        ensures { result.now ≡ self.now }
    {
        &self.elem
    }

    #[inline(always)]
    fn layout(&self, heap: Layouts) -> &GcArrayLayout
        ensures { result.now ≡ array_layout heap self.now }
    {
        self.layouts.get(heap)
    }
}

/// A function's parameters and results.
#[derive(Drop)]
pub(crate) struct Signature {
    pub(crate) params: Vec<ValType>,
    pub(crate) results: Vec<ValType>,
}

impl Signature {
    /// Time is linear in the parameters and results.
    pub(crate) fn new(
        alloc: Global,
        params: &[ValType],
        results: &[ValType],
    ) -> Result<Signature, AllocError>
        ensures params { IfOk result (λ s. s.params.items ≡ params.now) }
        ensures results { IfOk result (λ s. s.results.items ≡ results.now) }
    {
        Ok(Signature {
            params: Vec::from_slice(alloc, params)?,
            results: Vec::from_slice(alloc, results)?,
        })
    }
}

/// What a declaration lists.
#[derive(Drop)]
pub(crate) enum Body {
    Struct(StructFields),
    Array(ArrayElem),
    Exn(ExnParams),
    Func(Signature),
}

/// What a declared type lists, with where the values of its objects lie in each heap. The table shares it with whoever makes
/// objects of the type, so that it is asked for once an object.
#[derive(Drop)]
pub struct TypeShape {
    body: Body,
}

impl Model for TypeShape {
    ghost use Rattle.gc_types.specs.Declarations.{Shape};
    ghost use Rattle.gc_types.specs.Shapes.{shape_of};

    ghost Value = { Shape };

    ghost view = { λ s. shape_of s.body };
}

impl TypeShape {
    /// What is listed.
    pub(crate) fn body(&self) -> &Body
        ensures { shape_of result.now ≡ self.now }
    {
        &self.body
    }

    /// What sort of type it is.
    #[inline(always)]
    pub fn kind(&self) -> TypeKind
        ensures { result ≡ shape_kind self.now }
    {
        match &self.body {
            Body::Struct(_) => TypeKind::Struct,
            Body::Array(_) => TypeKind::Array,
            Body::Exn(_) => TypeKind::Exn,
            Body::Func(_) => TypeKind::Func,
        }
    }

    /// The fields of a struct or an exception.
    #[inline(always)]
    pub fn fields(&self) -> Option<&[FieldType]>
        ensures { option_copied result ≡ shape_fields self.now }
    {
        match &self.body {
            Body::Struct(fields) => Some(fields.as_slice()),
            Body::Exn(params) => Some(params.fields()),
            Body::Array(_) | Body::Func(_) => None,
        }
    }

    /// How many fields a struct has.
    #[inline(always)]
    pub(crate) fn struct_len(&self) -> Option<usize>
        ensures { result ≡ option_map length (shape_struct_fields self.now) }
    {
        match &self.body {
            Body::Struct(fields) => Some(fields.as_slice().len()),
            Body::Array(_) | Body::Exn(_) | Body::Func(_) => None,
        }
    }

    /// That field of a struct or an exception.
    // An arm for each: of one field nothing but what is asked of it is read then.
    #[inline(always)]
    pub(crate) fn field(&self, index: usize) -> Option<FieldType>
        ensures { result ≡ option_and_then (λ fields. slice_get fields index) (shape_fields self.now) }
    {
        match &self.body {
            Body::Struct(fields) => fields.as_slice().get(index).copied(),
            Body::Exn(params) => {
                let ty = params.as_slice().get(index)?;
                Some(FieldType::constant(*ty))
            }
            Body::Array(_) | Body::Func(_) => None,
        }
    }

    /// An array's element, lent.
    #[inline(always)]
    pub fn elem_type(&self) -> Option<&FieldType>
        ensures { option_copied result ≡ shape_elem self.now }
    {
        match &self.body {
            Body::Array(array) => Some(array.elem()),
            Body::Struct(_) | Body::Exn(_) | Body::Func(_) => None,
        }
    }

    /// The layout of a struct or an exception.
    #[inline(always)]
    pub fn struct_layout(&self, heap: Layouts) -> Option<&GcStructLayout>
        ensures { option_copied result ≡ shape_layout heap self.now }
    {
        match &self.body {
            Body::Struct(fields) => Some(fields.layout(heap)),
            Body::Exn(params) => Some(params.layout(heap)),
            Body::Array(_) | Body::Func(_) => None,
        }
    }

    /// The layout of an array.
    #[inline(always)]
    pub fn array_layout(&self, heap: Layouts) -> Option<&GcArrayLayout>
        ensures { option_copied result ≡ option_map (array_layout heap) (shape_elem self.now) }
    {
        match &self.body {
            Body::Array(array) => Some(array.layout(heap)),
            Body::Struct(_) | Body::Exn(_) | Body::Func(_) => None,
        }
    }
}

/// A declared type.
#[derive(Drop)]
pub(crate) struct Declared {
    shape: Rc<TypeShape>,
    // Beside the share: a collection looks at one of them for each object.
    traces: Traces,
    supertype: Option<VMSharedTypeIndex>,
    is_final: bool,
}

impl Model for Declared {
    ghost use Rattle.std.specs.Prelude.{◌≡◌};
    ghost use Rattle.gc_types.specs.Declarations.{Declaration};
    ghost use Rattle.gc_types.specs.Entries.{shape_traces};

    ghost Value = { Declaration };

    ghost view = { λ d. record { shape = d.shape.value; supertype = d.supertype; is_final = d.is_final } };

    ghost invariant = { λ d. d.traces ≡ shape_traces d.shape.value };
}

impl Declared {
    pub(crate) fn new(
        alloc: Global,
        body: Body,
        supertype: Option<VMSharedTypeIndex>,
        is_final: bool,
    ) -> Result<Declared, AllocError>
        ensures { IfOk result (λ d. d ≡ record { shape = shape_of body; supertype = supertype; is_final = is_final }) }
    {
        let shape = TypeShape { body };
        let traces = Traces::new(alloc, &shape)?;
        Ok(Declared {
            shape: Rc::new(alloc, shape)?,
            traces,
            supertype,
            is_final,
        })
    }

    #[inline(always)]
    pub(crate) fn shape(&self) -> &Rc<TypeShape>
        ensures { result.now.value ≡ self.now.shape }
    {
        &self.shape
    }

    pub(crate) fn body(&self) -> &Body
        ensures { shape_of result.now ≡ self.now.shape }
    {
        self.shape.body()
    }

    pub(crate) fn kind(&self) -> TypeKind
        ensures { result ≡ shape_kind self.now.shape }
    {
        self.shape.kind()
    }

    /// Where the references of the type's objects lie; functions are no objects.
    #[inline(always)]
    pub(crate) fn trace_info(&self, heap: Layouts) -> Option<&TraceInfo>
        ensures { option_copied result ≡ shape_trace heap self.now.shape }
    {
        self.traces.get(heap)
    }

    pub(crate) fn supertype(&self) -> Option<VMSharedTypeIndex>
        ensures { result ≡ self.now.supertype }
    {
        self.supertype
    }

    pub(crate) fn is_final(&self) -> bool
        ensures { result ≡ self.now.is_final }
    {
        self.is_final
    }
}
