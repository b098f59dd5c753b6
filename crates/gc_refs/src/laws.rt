//! What holds of the types of this crate, whatever the calls. These functions do nothing: their
//! clauses are the laws.

ghost use Rattle.std.specs.Prelude.{◌≡◌, ◌<◌, ◌^◌, ◌%◌, ◌++◌, ℕ, ℤ, List, FitsSigned, take, replicate};
ghost use Rattle.std.specs.Int.{w32, w64, w128};
ghost use Rattle.gc_refs.specs.Header.{Header, header_bytes, header_at, with_spare, spare_bits, kind_part};
ghost use Rattle.gc_refs.specs.LittleEndian.{unsigned_at, signed_at, unsigned_bytes, signed_bytes};
ghost use Rattle.gc_refs.specs.Equality.{IsOfNumbers};

use crate::i31::I31;
use crate::object_refs::{VMArrayRef, VMExnRef, VMExternRef, VMStructRef};
use crate::typed::TypedGcRef;
use crate::word::VMGcRef;
use std::hash::Hash;

/// Equality of 31-bit numbers and of references is equality of their numbers, and equal values hash
/// alike.
pub fn equality_is_of_numbers()
    ensures i31 { IsOfNumbers ⟦<I31 as PartialEq>⟧.eq ⟦<I31 as Hash>⟧.hash_input }
    ensures gc_ref { IsOfNumbers ⟦<VMGcRef as PartialEq>⟧.eq ⟦<VMGcRef as Hash>⟧.hash_input }
    ensures struct_ref { IsOfNumbers ⟦<VMStructRef as PartialEq>⟧.eq ⟦<VMStructRef as Hash>⟧.hash_input }
    ensures array_ref { IsOfNumbers ⟦<VMArrayRef as PartialEq>⟧.eq ⟦<VMArrayRef as Hash>⟧.hash_input }
    ensures exn_ref { IsOfNumbers ⟦<VMExnRef as PartialEq>⟧.eq ⟦<VMExnRef as Hash>⟧.hash_input }
    ensures extern_ref { IsOfNumbers ⟦<VMExternRef as PartialEq>⟧.eq ⟦<VMExternRef as Hash>⟧.hash_input }
{}

/// The same of a typed reference, whatever its type is.
pub fn typed_equality_is_of_words<T>()
    ensures { IsOfNumbers ⟦<TypedGcRef<T> as PartialEq>⟧.eq ⟦<TypedGcRef<T> as Hash>⟧.hash_input }
{}

/// The bit that marks the word of a 31-bit number is the lowest.
pub fn discriminant_is_the_lowest_bit()
    ensures { VMGcRef.I31_REF_DISCRIMINANT ≡ 1 }
{}

/// What `read_at` reads is what `write_at` wrote, whatever bytes lie behind it.
pub fn headers_are_read_back()
    ensures { (h : Header) (behind : List ℕ) → h.kind_word < 2 ^ 32 → h.type_word < 2 ^ 32 → header_at (header_bytes h ++ behind) ≡ h }
{}

/// `reserved_u26` reads what `set_reserved_u26` set, and the kind bits stay.
pub fn spare_bits_are_read_back()
    ensures spare { (h : Header) (spare : ℕ) → spare < spare_bits → (with_spare spare h).kind_word % spare_bits ≡ spare }
    ensures kind { (h : Header) (spare : ℕ) → spare < spare_bits → kind_part (with_spare spare h).kind_word ≡ kind_part h.kind_word }
{}

/// Each getter of a raw value reads what the function of its type put in.
pub fn raw_values_are_read_back()
    ensures i32 { (v : ℤ) → FitsSigned w32 v → signed_at w32 (take 4 (signed_bytes w32 v ++ replicate 12 0)) ≡ v }
    ensures i64 { (v : ℤ) → FitsSigned w64 v → signed_at w64 (take 8 (signed_bytes w64 v ++ replicate 8 0)) ≡ v }
    ensures u32 { (v : ℕ) → v < 2 ^ 32 → unsigned_at w32 (take 4 (unsigned_bytes w32 v ++ replicate 12 0)) ≡ v }
    ensures u64 { (v : ℕ) → v < 2 ^ 64 → unsigned_at w64 (take 8 (unsigned_bytes w64 v ++ replicate 8 0)) ≡ v }
    ensures v128 { (v : ℕ) → v < 2 ^ 128 → unsigned_at w128 (unsigned_bytes w128 v) ≡ v }
{}
