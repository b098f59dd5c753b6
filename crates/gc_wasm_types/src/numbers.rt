//! 31-bit numbers as values by themselves.

ghost use Rattle.std.specs.Prelude.{◌≡◌, MatchOption};
ghost use Rattle.gc_types.specs.declared.value.HeapType.{HeapType};
ghost use Rattle.gc_refs.specs.Words.{IsHeapWord, i31_word};
ghost use Rattle.gc_wasm_types.specs.Values.{reference_type};

use crate::checks::check_reference;
use crate::wasm_ty::WasmTy;
use crate::words::write_word;
use gc_heap::GcHeap;
use gc_objects::AccessFault;
use gc_refs::{I31, VMGcRef, ValRaw};
use gc_store::laws::stores_hold_tables;
use gc_store::{GcClass, RootFault, Store};
use gc_types::{HeapType, RefType, ValType};

/// The type of 31-bit numbers.
fn number_type(nullable: bool) -> ValType
    ensures { result ≡ reference_type nullable HeapType.I31 }
{
    ValType::Ref(RefType {
        nullable,
        heap_type: HeapType::I31,
    })
}

/// The number with a word, where the word is that of one.
fn number_in(word: u32) -> Option<I31>
    ensures { MatchOption result (IsHeapWord word) (λ n. word ≡ i31_word n) }
{
    match VMGcRef::from_raw_u32(word) {
        Some(gc_ref) => gc_ref.as_i31(),
        None => None,
    }
}

impl WasmTy for I31 {
    ghost use Rattle.std.specs.Prelude.{false};
    ghost use Rattle.gc_wasm_types.specs.Values.{number_form, number};

    ghost value = { number };

    ghost FORM = { number_form false };

    fn valtype() -> ValType {
        number_type(false)
    }

    fn compatible_with_store<H: GcHeap, D: Drop>(&self, _store: &Store<H, D>) -> bool {
        true
    }

    fn is_vmgcref_and_points_to_object(&self) -> bool {
        false
    }

    fn dynamic_concrete_type_check<H: GcHeap, D: Drop>(
        &self,
        _store: &Store<H, D>,
        _nullable: bool,
        _actual: &HeapType,
    ) -> Result<(), AccessFault> {
        Err(AccessFault::TypeMismatch)
    }

    fn store<H: GcHeap, D: Drop>(
        &self,
        store: &mut Store<H, D>,
        into: &mut ValRaw,
    ) -> Result<(), RootFault> {
        stores_hold_tables(store);
        write_word(into, VMGcRef::from_i31(*self).as_raw_u32());
        Ok(())
    }

    fn load<H: GcHeap, D: Drop>(_store: &mut Store<H, D>, from: &ValRaw) -> Result<I31, RootFault> {
        Ok(number_in(from.get_anyref()).unwrap())
    }
}

impl WasmTy for Option<I31> {
    ghost use Rattle.std.specs.Prelude.{true};
    ghost use Rattle.gc_wasm_types.specs.Values.{number_form, number, or_absent};

    ghost value = { or_absent number };

    ghost FORM = { number_form true };

    fn valtype() -> ValType {
        number_type(true)
    }

    fn compatible_with_store<H: GcHeap, D: Drop>(&self, _store: &Store<H, D>) -> bool {
        true
    }

    fn is_vmgcref_and_points_to_object(&self) -> bool {
        false
    }

    fn dynamic_concrete_type_check<H: GcHeap, D: Drop>(
        &self,
        store: &Store<H, D>,
        nullable: bool,
        actual: &HeapType,
    ) -> Result<(), AccessFault> {
        match self {
            Some(_) => Err(AccessFault::TypeMismatch),
            None => check_reference(store, GcClass::Any, None, nullable, actual),
        }
    }

    fn store<H: GcHeap, D: Drop>(
        &self,
        store: &mut Store<H, D>,
        into: &mut ValRaw,
    ) -> Result<(), RootFault> {
        stores_hold_tables(store);
        match self {
            Some(number) => write_word(into, VMGcRef::from_i31(*number).as_raw_u32()),
            None => write_word(into, 0),
        }
        Ok(())
    }

    fn load<H: GcHeap, D: Drop>(
        _store: &mut Store<H, D>,
        from: &ValRaw,
    ) -> Result<Option<I31>, RootFault> {
        Ok(number_in(from.get_anyref()))
    }
}
