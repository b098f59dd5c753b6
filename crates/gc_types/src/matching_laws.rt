//! What holds of matching, whatever types are declared. These functions do nothing: their clauses
//! are the laws.
//!
//! Where an index isn't declared, its heap type matches no concrete type, itself neither. So each
//! relation is reflexive on types whose indexes are declared, and transitive on all.

ghost use Rattle.std.specs.Prelude.{List, Option, ℕ, ◌<◌, length};
ghost use Rattle.gc_types.specs.declared.value.HeapType.{HeapType};
ghost use Rattle.gc_types.specs.declared.value.RefType.{RefType};
ghost use Rattle.gc_types.specs.declared.value.ValType.{ValType};
ghost use Rattle.gc_types.specs.declared.value.StorageType.{StorageType};
ghost use Rattle.gc_types.specs.declared.value.FieldType.{FieldType};
ghost use Rattle.gc_types.specs.Subtyping.{Meets, MatchesHeap, MatchesRef, MatchesVal, MatchesStorage, MatchesField, IsDeclaredHeap, IsDeclaredVal, IsDeclaredStorage};

/// A declared type is a subtype of itself.
pub fn subtyping_is_reflexive()
    ensures { (supers : List (Option ℕ)) (a : ℕ) → a < length supers → Meets supers a a }
{}

/// A subtype of a subtype is a subtype.
pub fn subtyping_is_transitive()
    ensures { (supers : List (Option ℕ)) (a b c : ℕ) → Meets supers a b → Meets supers b c → Meets supers a c }
{}

/// A heap type matches itself.
pub fn heap_matching_is_reflexive()
    ensures { (supers : List (Option ℕ)) (x : HeapType) → IsDeclaredHeap supers x → MatchesHeap supers x x }
{}

/// Heap types match along chains.
pub fn heap_matching_is_transitive()
    ensures { (supers : List (Option ℕ)) (x y z : HeapType) → MatchesHeap supers x y → MatchesHeap supers y z → MatchesHeap supers x z }
{}

/// A reference type matches itself.
pub fn ref_matching_is_reflexive()
    ensures { (supers : List (Option ℕ)) (x : RefType) → IsDeclaredHeap supers x.heap_type → MatchesRef supers x x }
{}

/// Reference types match along chains.
pub fn ref_matching_is_transitive()
    ensures { (supers : List (Option ℕ)) (x y z : RefType) → MatchesRef supers x y → MatchesRef supers y z → MatchesRef supers x z }
{}

/// A value type matches itself.
pub fn val_matching_is_reflexive()
    ensures { (supers : List (Option ℕ)) (x : ValType) → IsDeclaredVal supers x → MatchesVal supers x x }
{}

/// Value types match along chains.
pub fn val_matching_is_transitive()
    ensures { (supers : List (Option ℕ)) (x y z : ValType) → MatchesVal supers x y → MatchesVal supers y z → MatchesVal supers x z }
{}

/// A storage type matches itself.
pub fn storage_matching_is_reflexive()
    ensures { (supers : List (Option ℕ)) (x : StorageType) → IsDeclaredStorage supers x → MatchesStorage supers x x }
{}

/// Storage types match along chains.
pub fn storage_matching_is_transitive()
    ensures { (supers : List (Option ℕ)) (x y z : StorageType) → MatchesStorage supers x y → MatchesStorage supers y z → MatchesStorage supers x z }
{}

/// A field type matches itself.
pub fn field_matching_is_reflexive()
    ensures { (supers : List (Option ℕ)) (x : FieldType) → IsDeclaredStorage supers x.element_type → MatchesField supers x x }
{}

/// Field types match along chains.
pub fn field_matching_is_transitive()
    ensures { (supers : List (Option ℕ)) (x y z : FieldType) → MatchesField supers x y → MatchesField supers y z → MatchesField supers x z }
{}
