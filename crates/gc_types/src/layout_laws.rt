//! What holds of layouts, whatever types are declared. These functions do nothing: their clauses
//! are the laws. `Types::are_declared` gives their premise on the list of types.

ghost use Rattle.std.specs.Prelude.{List, All, Some, ℕ, ◌≡◌, true};
ghost use Rattle.gc_types.specs.declared.kind.Layouts.{Layouts};
ghost use Rattle.gc_types.specs.declared.kind.Layouts.TheVariants.{Copying};
ghost use Rattle.gc_types.specs.declared.value.FieldType.{FieldType};
ghost use Rattle.gc_types.specs.declared.value.ValType.{ValType};
ghost use Rattle.gc_types.specs.Declarations.{Declaration, struct_fields_at, elem_at};
ghost use Rattle.gc_types.specs.Declarable.{AreDeclared};
ghost use Rattle.gc_types.specs.Subtyping.{Meets, supertypes_of};
ghost use Rattle.gc_types.specs.Layouts.{struct_base, exception_base, struct_layout, exn_layout, array_layout, ref_offsets, is_gc_storage};
ghost use Rattle.gc_types.specs.LayoutLaws.{LiesAlike, ElemsLieAlike, IsPlacedIn};

/// A subtype of a struct is a struct, whose first fields lie at the offsets of its supertype's
/// fields, and are references where those are, in every heap.
pub fn subtype_fields_lie_alike()
    ensures { (heap : Layouts) (types : List Declaration) (sub sup : ℕ) (fields : List FieldType)
        → AreDeclared types → Meets (supertypes_of types) sub sup → struct_fields_at types sup ≡ Some fields → LiesAlike heap types fields sub }
{}

/// A subtype of an array is an array, whose elements lie as those of its supertype, in every heap.
pub fn subtype_elems_lie_alike()
    ensures { (heap : Layouts) (types : List Declaration) (sub sup : ℕ) (elem : FieldType)
        → AreDeclared types → Meets (supertypes_of types) sub sup → elem_at types sup ≡ Some elem → ElemsLieAlike heap types elem sub }
{}

/// Each reference of a struct lies at a multiple of 4, from the first free offset on and inside the
/// size, in every heap.
pub fn struct_references_are_aligned()
    ensures { (heap : Layouts) (fields : List FieldType)
        → All (IsPlacedIn (struct_base heap) (struct_layout heap fields).size) (ref_offsets (struct_layout heap fields).fields) }
{}

/// Each reference of an exception lies at a multiple of 4, from the first free offset on and inside
/// the size, in every heap.
pub fn exn_references_are_aligned()
    ensures { (heap : Layouts) (params : List ValType)
        → All (IsPlacedIn (exception_base heap) (exn_layout heap params).size) (ref_offsets (exn_layout heap params).fields) }
{}

/// In the copying heap an array of references has its elements from offset 16 on, 4 bytes each.
pub fn copying_arrays_of_references_begin_at_16()
    ensures { (elem : FieldType) → is_gc_storage elem.element_type ≡ true
        → array_layout Copying elem ≡ record { base_size = 16; elem_size = 4; elems_are_gc_refs = true } }
{}
