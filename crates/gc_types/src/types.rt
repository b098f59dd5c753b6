//! The table of declared types.

ghost use Rattle.std.specs.Prelude.{[], ◌↔◌, IsTrue, ◌≡◌, length, IfOk, OnOk, OnErr, option_copied, option_map, slice_get, IsErrOf, IfSome, IsSome, Some};
ghost use Rattle.std.specs.Option.{option_and_then};
ghost use Rattle.gc_types.specs.Declarations.{with_declaration, struct_type, array_type, exn_type, func_type, fields_at, struct_fields_at, elem_at, kind_at, shape_at, supertype_at, is_final_at};
ghost use Rattle.gc_types.specs.Declarable.{Declarable, AreDeclared, ExnIsFinal, HasFewFields};
ghost use Rattle.gc_types.specs.Subtyping.{supertypes_of, Meets, MatchesRef, MatchesVal, MatchesField};
ghost use Rattle.gc_types.specs.Layouts.{struct_layout, layout_at, array_layout_at, trace_at};

use crate::ancestry::Ancestry;
use crate::checks;
use crate::entry::{ArrayElem, Body, Declared, ExnParams, Signature, StructFields, TypeShape};
use crate::index::VMSharedTypeIndex;
use crate::kind::{Layouts, TypeKind};
use crate::layout::{GcArrayLayout, GcStructLayout, TraceInfo};
use crate::type_names::{ArrayType, ExnType, FuncType, StructType};
use crate::value::{FieldType, RefType, ValType};
use std::alloc::{AllocError, Global};
use std::marker::Model;
use std::rc::Rc;
use thiserror::Error;

/// How many fields, parameters or results a type may have.
pub const MAX_FIELDS: usize = 10_000;

/// How many types a table may have: each index but the reserved one.
pub const MAX_TYPES: usize = 4_294_967_295;

/// Why a type is not declared.
#[derive(Debug, Drop, Error)]
pub enum TypeFault {
    #[error("the type may not be declared")]
    BadType,
    #[error("out of memory")]
    Memory,
}

impl From<AllocError> for TypeFault {
    ghost use Rattle.std.specs.Prelude.{◌≡◌};
    ghost use Rattle.gc_types.specs.declared.types.TypeFault.TheVariants.{Memory};

    ghost from_gives = { λ _ fault. fault ≡ Memory };

    fn from(_: AllocError) -> TypeFault {
        TypeFault::Memory
    }
}

/// The types that were declared, in order. Types that are declared alike are not merged: each has
/// an index of its own.
#[derive(Drop)]
pub struct Types {
    alloc: Global,
    engine: u64,
    number: u64,
    ancestry: Ancestry,
    declared: Vec<Declared>,
}

impl Model for Types {
    ghost use Rattle.gc_types.specs.Declarations.{TypeTable};

    ghost Value = { TypeTable };

    ghost use Rattle.gc_types.specs.Tables.{IsTable};

    ghost view = { λ t. record { engine = t.engine; number = t.number; declarations = t.declared.items } };

    ghost invariant = { λ t. IsTable t.ancestry t.declared.items };
}

impl Types {
    /// An empty table with that id.
    pub fn new(alloc: Global, engine: u64, number: u64) -> Types
        ensures { result ≡ record { engine = engine; number = number; declarations = [] } }
    {
        Types {
            alloc,
            engine,
            number,
            ancestry: Ancestry::new(alloc),
            declared: Vec::new(alloc),
        }
    }

    /// Declares a struct with these fields.
    ///
    /// `BadType` exactly where a field names an index above the new one, or a type of another kind than
    /// its variant says; or the supertype isn't an earlier struct, is final, or isn't matched (each of
    /// its fields by the field at the same place); or there are more than 10,000 fields; or the table
    /// has 4,294,967,295 types. While it is checked, the new type counts as a subtype of its supertype,
    /// and it may name itself. Time is linear in the fields, times the logarithm of the longest chain of
    /// supertypes.
    pub fn declare_struct(
        &mut self,
        fields: &[FieldType],
        supertype: Option<VMSharedTypeIndex>,
        is_final: bool,
    ) -> Result<StructType, TypeFault>
        ensures declared { OnOk result (self.new ≡ with_declaration (struct_type fields.now supertype is_final) self.old) }
        ensures named { IfOk result (λ ty. ty ≡ record { engine = self.old.engine; number = self.old.number; index = length self.old.declarations }) }
        ensures declarable { OnOk result (Declarable self.old.declarations (struct_type fields.now supertype is_final)) }
        ensures bad { IsErrOf result TypeFault.BadType → ¬ Declarable self.old.declarations (struct_type fields.now supertype is_final) }
        ensures err { OnErr result (self.new ≡ self.old) }
    {
        if fields.len() > MAX_FIELDS {
            return Err(TypeFault::BadType);
        }
        let body = Body::Struct(StructFields::new(self.alloc, fields)?);
        let index = self.declare(Declared::new(self.alloc, body, supertype, is_final)?)?;
        Ok(StructType::new(self.engine, self.number, index))
    }

    /// Declares an array of these elements. `BadType` as in `declare_struct`, where the element takes
    /// the place of the fields.
    pub fn declare_array(
        &mut self,
        elem: FieldType,
        supertype: Option<VMSharedTypeIndex>,
        is_final: bool,
    ) -> Result<ArrayType, TypeFault>
        ensures declared { OnOk result (self.new ≡ with_declaration (array_type elem supertype is_final) self.old) }
        ensures named { IfOk result (λ ty. ty ≡ record { engine = self.old.engine; number = self.old.number; index = length self.old.declarations }) }
        ensures declarable { OnOk result (Declarable self.old.declarations (array_type elem supertype is_final)) }
        ensures bad { IsErrOf result TypeFault.BadType → ¬ Declarable self.old.declarations (array_type elem supertype is_final) }
        ensures err { OnErr result (self.new ≡ self.old) }
    {
        let body = Body::Array(ArrayElem::new(elem));
        let index = self.declare(Declared::new(self.alloc, body, supertype, is_final)?)?;
        Ok(ArrayType::new(self.engine, self.number, index))
    }

    /// Declares an exception with these parameters, which are its fields and constant. It has no
    /// supertype and is final. `BadType` as in `declare_struct`.
    pub fn declare_exn(&mut self, params: &[ValType]) -> Result<ExnType, TypeFault>
        ensures declared { OnOk result (self.new ≡ with_declaration (exn_type params.now) self.old) }
        ensures named { IfOk result (λ ty. ty ≡ record { engine = self.old.engine; number = self.old.number; index = length self.old.declarations }) }
        ensures declarable { OnOk result (Declarable self.old.declarations (exn_type params.now)) }
        ensures bad { IsErrOf result TypeFault.BadType → ¬ Declarable self.old.declarations (exn_type params.now) }
        ensures err { OnErr result (self.new ≡ self.old) }
    {
        if params.len() > MAX_FIELDS {
            return Err(TypeFault::BadType);
        }
        let body = Body::Exn(ExnParams::new(self.alloc, params)?);
        let index = self.declare(Declared::new(self.alloc, body, None, true)?)?;
        Ok(ExnType::new(self.engine, self.number, index))
    }

    /// Declares a function. `BadType` as in `declare_struct`, for parameters and for results; it
    /// matches a supertype with as many of each where each parameter of the supertype matches its own,
    /// and each of its results that of the supertype.
    pub fn declare_func(
        &mut self,
        params: &[ValType],
        results: &[ValType],
        supertype: Option<VMSharedTypeIndex>,
        is_final: bool,
    ) -> Result<FuncType, TypeFault>
        ensures declared { OnOk result (self.new ≡ with_declaration (func_type params.now results.now supertype is_final) self.old) }
        ensures named { IfOk result (λ ty. ty ≡ record { engine = self.old.engine; number = self.old.number; index = length self.old.declarations }) }
        ensures declarable { OnOk result (Declarable self.old.declarations (func_type params.now results.now supertype is_final)) }
        ensures bad { IsErrOf result TypeFault.BadType → ¬ Declarable self.old.declarations (func_type params.now results.now supertype is_final) }
        ensures err { OnErr result (self.new ≡ self.old) }
    {
        if params.len() > MAX_FIELDS || results.len() > MAX_FIELDS {
            return Err(TypeFault::BadType);
        }
        let body = Body::Func(Signature::new(self.alloc, params, results)?);
        let index = self.declare(Declared::new(self.alloc, body, supertype, is_final)?)?;
        Ok(FuncType::new(self.engine, self.number, index))
    }

    /// Declares that type.
    fn declare(&mut self, new: Declared) -> Result<VMSharedTypeIndex, TypeFault>
        requires few_fields { HasFewFields new.shape }
        requires exn_is_final { ExnIsFinal new.shape new.is_final }
        ensures declared { OnOk result (self.new ≡ with_declaration new self.old) }
        ensures index { IfOk result (λ index. index ≡ length self.old.declarations) }
        ensures declarable { OnOk result (Declarable self.old.declarations new) }
        ensures bad { IsErrOf result TypeFault.BadType → ¬ Declarable self.old.declarations new }
        ensures err { OnErr result (self.new ≡ self.old) }
    {
        let index = self.declared.len();
        if index >= MAX_TYPES || !checks::is_earlier(new.supertype(), index) {
            return Err(TypeFault::BadType);
        }
        checks::push(&mut self.ancestry, &mut self.declared, new)?;
        if !checks::may_stand(&self.ancestry, self.declared.as_slice()) {
            checks::pop(&mut self.ancestry, &mut self.declared);
            return Err(TypeFault::BadType);
        }
        Ok(VMSharedTypeIndex::new(index as u32))
    }

    /// Each type could be declared behind those before it. This call does nothing: its clause is a
    /// law, and the premise of those on layouts (`layout_laws`).
    pub fn are_declared(&self)
        ensures { AreDeclared self.now.declarations }
    {
        let _types = &self.declared;
    }

    /// Whether no type is declared.
    pub fn is_empty(&self) -> bool
        ensures { IsTrue result ↔ (self.now.declarations ≡ []) }
    {
        self.declared.is_empty()
    }

    /// Whether the first type is the second or, by following supertypes, one of its subtypes; false
    /// where one isn't declared. The number of steps is logarithmic in the depth of the first; that
    /// is not proved.
    pub fn is_subtype(&self, sub: VMSharedTypeIndex, sup: VMSharedTypeIndex) -> bool
        ensures { IsTrue result ↔ Meets (supertypes_of self.now.declarations) sub sup }
    {
        self.ancestry.is_subtype(sub, sup)
    }

    /// Whether a reference of the first type is one of the second (WebAssembly GC proposal). An index
    /// that isn't declared matches no concrete type, not even itself.
    pub fn matches_ref(&self, a: &RefType, b: &RefType) -> bool
        ensures { IsTrue result ↔ MatchesRef (supertypes_of self.now.declarations) a.now b.now }
    {
        self.ancestry.matches_ref(a, b)
    }

    /// Whether a value of the first type is one of the second; undeclared indexes as in `matches_ref`.
    pub fn matches_val(&self, a: &ValType, b: &ValType) -> bool
        ensures { IsTrue result ↔ MatchesVal (supertypes_of self.now.declarations) a.now b.now }
    {
        self.ancestry.matches_val(a, b)
    }

    /// Whether a field of the first type may stand for one of the second; undeclared indexes as in
    /// `matches_ref`.
    pub fn matches_field(&self, a: &FieldType, b: &FieldType) -> bool
        ensures { IsTrue result ↔ MatchesField (supertypes_of self.now.declarations) a.now b.now }
    {
        self.ancestry.matches_field(a, b)
    }

    /// What sort of type that is; None exactly where it isn't declared.
    #[inline(always)]
    pub fn kind_of(&self, ty: VMSharedTypeIndex) -> Option<TypeKind>
        ensures { result ≡ kind_at self.now.declarations ty }
    {
        let declared = self.declared.get(ty.as_u32() as usize)?;
        Some(declared.shape().kind())
    }

    /// What the type lists, with where the values of its objects lie: all that is asked of it to make one. None exactly where
    /// it isn't declared.
    #[inline(always)]
    pub fn shape(&self, ty: VMSharedTypeIndex) -> Option<&Rc<TypeShape>>
        ensures { option_map (λ shape. shape.value) (option_copied result) ≡ shape_at self.now.declarations ty }
    {
        let declared = self.declared.get(ty.as_u32() as usize)?;
        Some(declared.shape())
    }

    /// The name of that struct type; None exactly where the index names none.
    pub fn struct_type(&self, ty: VMSharedTypeIndex) -> Option<StructType>
        ensures names { IfSome result (λ name. name ≡ record { engine = self.now.engine; number = self.now.number; index = ty }) }
        ensures kind { IsSome result ↔ (kind_at self.now.declarations ty ≡ Some TypeKind.Struct) }
    {
        match self.kind_of(ty) {
            Some(TypeKind::Struct) => Some(StructType::new(self.engine, self.number, ty)),
            _ => None,
        }
    }

    /// The name of that array type; None exactly where the index names none.
    pub fn array_type(&self, ty: VMSharedTypeIndex) -> Option<ArrayType>
        ensures names { IfSome result (λ name. name ≡ record { engine = self.now.engine; number = self.now.number; index = ty }) }
        ensures kind { IsSome result ↔ (kind_at self.now.declarations ty ≡ Some TypeKind.Array) }
    {
        match self.kind_of(ty) {
            Some(TypeKind::Array) => Some(ArrayType::new(self.engine, self.number, ty)),
            _ => None,
        }
    }

    /// The name of that exception type; None exactly where the index names none.
    pub fn exn_type(&self, ty: VMSharedTypeIndex) -> Option<ExnType>
        ensures names { IfSome result (λ name. name ≡ record { engine = self.now.engine; number = self.now.number; index = ty }) }
        ensures kind { IsSome result ↔ (kind_at self.now.declarations ty ≡ Some TypeKind.Exn) }
    {
        match self.kind_of(ty) {
            Some(TypeKind::Exn) => Some(ExnType::new(self.engine, self.number, ty)),
            _ => None,
        }
    }

    /// The name of that function type; None exactly where the index names none.
    pub fn func_type(&self, ty: VMSharedTypeIndex) -> Option<FuncType>
        ensures names { IfSome result (λ name. name ≡ record { engine = self.now.engine; number = self.now.number; index = ty }) }
        ensures kind { IsSome result ↔ (kind_at self.now.declarations ty ≡ Some TypeKind.Func) }
    {
        match self.kind_of(ty) {
            Some(TypeKind::Func) => Some(FuncType::new(self.engine, self.number, ty)),
            _ => None,
        }
    }

    /// The supertype that the type was declared with; None exactly where it isn't declared or has none.
    pub fn supertype_of(&self, ty: VMSharedTypeIndex) -> Option<VMSharedTypeIndex>
        ensures { result ≡ supertype_at self.now.declarations ty }
    {
        let declared = self.declared.get(ty.as_u32() as usize)?;
        declared.supertype()
    }

    /// Whether no type may extend that one; false where it isn't declared.
    pub fn is_final(&self, ty: VMSharedTypeIndex) -> bool
        ensures { result ≡ is_final_at self.now.declarations ty }
    {
        match self.declared.get(ty.as_u32() as usize) {
            Some(declared) => declared.is_final(),
            None => false,
        }
    }

    /// The fields of the struct or exception type; None exactly where the index names none.
    #[inline(always)]
    pub fn fields(&self, ty: VMSharedTypeIndex) -> Option<&[FieldType]>
        ensures { option_copied result ≡ fields_at self.now.declarations ty }
    {
        let declared = self.declared.get(ty.as_u32() as usize)?;
        declared.shape().fields()
    }

    /// How many fields the struct or exception type has; None exactly where the index names none.
    #[inline(always)]
    pub fn fields_len(&self, ty: VMSharedTypeIndex) -> Option<usize>
        ensures { result ≡ option_map length (fields_at self.now.declarations ty) }
    {
        let fields = self.fields(ty)?;
        Some(fields.len())
    }

    /// How many fields the struct type has; None exactly where the index names no struct type.
    #[inline(always)]
    pub fn struct_len(&self, ty: VMSharedTypeIndex) -> Option<usize>
        ensures { result ≡ option_map length (struct_fields_at self.now.declarations ty) }
    {
        let declared = self.declared.get(ty.as_u32() as usize)?;
        declared.shape().struct_len()
    }

    /// The type of that field; None exactly where there is no such struct or exception type or field.
    #[inline(always)]
    pub fn field(&self, ty: VMSharedTypeIndex, index: usize) -> Option<FieldType>
        ensures { result ≡ option_and_then (λ fields. slice_get fields index) (fields_at self.now.declarations ty) }
    {
        let declared = self.declared.get(ty.as_u32() as usize)?;
        declared.shape().field(index)
    }

    /// The type of the elements; None exactly where the index names no array type.
    #[inline(always)]
    pub fn array_elem(&self, ty: VMSharedTypeIndex) -> Option<FieldType>
        ensures { result ≡ elem_at self.now.declarations ty }
    {
        let declared = self.declared.get(ty.as_u32() as usize)?;
        let elem = declared.shape().elem_type()?;
        Some(*elem)
    }

    /// Where the fields of the struct or exception type lie in that heap; None exactly where the
    /// index names none.
    #[inline(always)]
    pub fn struct_layout(&self, heap: Layouts, ty: VMSharedTypeIndex) -> Option<&GcStructLayout>
        ensures value { option_copied result ≡ layout_at heap self.now.declarations ty }
        ensures structs { IsSome (struct_fields_at self.now.declarations ty)
            → option_copied result ≡ option_map (struct_layout heap) (struct_fields_at self.now.declarations ty) }
    {
        let declared = self.declared.get(ty.as_u32() as usize)?;
        declared.shape().struct_layout(heap)
    }

    /// Where the elements of the array type lie in that heap; None exactly where the index names none.
    #[inline(always)]
    pub fn array_layout(&self, heap: Layouts, ty: VMSharedTypeIndex) -> Option<&GcArrayLayout>
        ensures { option_copied result ≡ array_layout_at heap self.now.declarations ty }
    {
        let declared = self.declared.get(ty.as_u32() as usize)?;
        declared.shape().array_layout(heap)
    }

    /// Where the references of the type's objects lie in that heap; None exactly where the index
    /// names no struct, exception or array type.
    pub fn trace_info(&self, heap: Layouts, ty: VMSharedTypeIndex) -> Option<&TraceInfo>
        ensures { option_copied result ≡ trace_at heap self.now.declarations ty }
    {
        let declared = self.declared.get(ty.as_u32() as usize)?;
        declared.trace_info(heap)
    }
}
