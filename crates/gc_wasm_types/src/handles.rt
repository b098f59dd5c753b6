//! Handles of scoped and of owned roots, with null or without.

ghost use Rattle.std.specs.Prelude.{◌≡◌};
ghost use Rattle.gc_wasm_types.specs.Values.{reference_type};

use crate::checks::{check_reference, is_of_store};
use crate::marks::WasmRef;
use crate::wasm_ty::WasmTy;
use crate::words::{load_owned, load_scoped, store_root, write_word};
use gc_heap::GcHeap;
use gc_objects::AccessFault;
use gc_refs::ValRaw;
use gc_rooted::{GcRef, OwnedRooted, Rooted, RootedGcRef};
use gc_store::{GcRootIndex, RootFault, Store};
use gc_types::{HeapType, RefType, ValType};

/// A handle of a root, which goes in and out of raw words: by itself, and as an `Option` of it.
pub trait WasmHandle {
    ghost use Rattle.std.specs.Prelude.{◌≡◌, ◌↔◌, IfOk, MatchResult, None, option_map};
    ghost use Rattle.gc_model.specs.Holds.{Placing, IsWord};
    ghost use Rattle.gc_model.specs.Table.{Table};
    ghost use Rattle.gc_model.specs.Values.{Reference};
    ghost use Rattle.gc_model.specs.Accounts.{Account};
    ghost use Rattle.gc_values.specs.declared.root.GcRootIndex.{GcRootIndex};
    ghost use Rattle.gc_store.specs.OwnedWords.{HoldsThere};
    ghost use Rattle.gc_store.specs.RawWords.{IsRawWord};
    ghost use Rattle.gc_store.specs.Stores.{IsSameStore};
    ghost use Rattle.gc_wasm_types.specs.Loads.{LoadsValue, RefusesLoad, ValueIsOf, KeepsRoom, WantsNoMemory};
    ghost use Rattle.gc_wasm_types.specs.Values.{Manner, handle, or_absent, references, raw_word};

    /// The root that it names.
    ghost root: { Self → GcRootIndex };

    /// What root is made for a reference that is loaded.
    ghost MANNER: { Manner };

    /// The mark of what it names.
    type Mark: WasmRef;

    /// The root that it names.
    fn root(&self) -> GcRootIndex
        ensures { result ≡ root self.now };

    /// A handle of a new root for the reference with that word; None exactly for 0. Refused as `WasmTy::load`.
    fn load_handle<H: GcHeap, D: Drop>(
        store: &mut Store<H, D>,
        from: &ValRaw,
    ) -> Result<Option<Self>, RootFault>
        requires { IsRawWord D H.KIND store.old Self.Mark.KIND (raw_word from.now) }
        ensures loads { (t : Table D) (place : Placing) (a : Account) (r : Reference) → HoldsThere H.KIND store.old t place a
            → IsWord place r (raw_word from.now)
            → MatchResult result (λ found. LoadsValue MANNER H.KIND t place a r (or_absent (λ h. handle (root h)) found) store.new)
            (λ why. RefusesLoad MANNER H.KIND t place a r why store.new) }
        ensures null { IfOk result (λ found. (option_map root found ≡ None) ↔ (raw_word from.now ≡ 0)) }
        ensures kind { IfOk result (λ found. ValueIsOf D H.KIND store.new (references Self.Mark.KIND) (or_absent (λ h. handle (root h)) found)) }
        ensures same { IsSameStore store.old store.new }
        ensures room { KeepsRoom MANNER store.old store.new }
        ensures reserved { WantsNoMemory MANNER store.old result };
}

impl<T: WasmRef> WasmHandle for Rooted<T> {
    ghost use Rattle.gc_wasm_types.specs.Values.{scoped};

    ghost root = { λ h. h.index };

    ghost MANNER = { scoped };

    type Mark = T;

    fn root(&self) -> GcRootIndex {
        self.root_index()
    }

    fn load_handle<H: GcHeap, D: Drop>(
        store: &mut Store<H, D>,
        from: &ValRaw,
    ) -> Result<Option<Rooted<T>>, RootFault> {
        load_scoped(store, from)
    }
}

impl<T: WasmRef> WasmHandle for OwnedRooted<T> {
    ghost use Rattle.gc_wasm_types.specs.Values.{owned};

    ghost root = { λ h. h.index };

    ghost MANNER = { owned };

    type Mark = T;

    fn root(&self) -> GcRootIndex {
        self.root_index()
    }

    fn load_handle<H: GcHeap, D: Drop>(
        store: &mut Store<H, D>,
        from: &ValRaw,
    ) -> Result<Option<OwnedRooted<T>>, RootFault> {
        load_owned(store, from)
    }
}

/// The type of references of a mark.
fn reference_type<T: WasmRef>(nullable: bool) -> ValType
    ensures { result ≡ reference_type nullable T.HEAP }
{
    ValType::Ref(RefType {
        nullable,
        heap_type: T::heap_type(),
    })
}

impl<R: WasmHandle> WasmTy for R {
    ghost use Rattle.std.specs.Prelude.{false};
    ghost use Rattle.gc_wasm_types.specs.Values.{handle_form, handle};

    ghost value = { λ h. handle (R.root h) };

    ghost FORM = { handle_form false R.Mark.HEAP R.Mark.KIND R.Mark.CLASS R.MANNER };

    fn valtype() -> ValType {
        reference_type::<R::Mark>(false)
    }

    fn compatible_with_store<H: GcHeap, D: Drop>(&self, store: &Store<H, D>) -> bool {
        is_of_store(store, self.root())
    }

    fn is_vmgcref_and_points_to_object(&self) -> bool {
        true
    }

    fn dynamic_concrete_type_check<H: GcHeap, D: Drop>(
        &self,
        store: &Store<H, D>,
        nullable: bool,
        actual: &HeapType,
    ) -> Result<(), AccessFault> {
        check_reference(store, R::Mark::CLASS, Some(self.root()), nullable, actual)
    }

    fn store<H: GcHeap, D: Drop>(
        &self,
        store: &mut Store<H, D>,
        into: &mut ValRaw,
    ) -> Result<(), RootFault> {
        store_root(store, self.root(), into)
    }

    fn load<H: GcHeap, D: Drop>(store: &mut Store<H, D>, from: &ValRaw) -> Result<R, RootFault> {
        match R::load_handle(store, from) {
            Ok(Some(handle)) => Ok(handle),
            // The word isn't 0.
            Ok(None) => unreachable!(),
            Err(fault) => Err(fault),
        }
    }
}

impl<R: WasmHandle> WasmTy for Option<R> {
    ghost use Rattle.std.specs.Prelude.{true};
    ghost use Rattle.gc_wasm_types.specs.Values.{handle_form, handle, or_absent};

    ghost value = { or_absent (λ h. handle (R.root h)) };

    ghost FORM = { handle_form true R.Mark.HEAP R.Mark.KIND R.Mark.CLASS R.MANNER };

    fn valtype() -> ValType {
        reference_type::<R::Mark>(true)
    }

    fn compatible_with_store<H: GcHeap, D: Drop>(&self, store: &Store<H, D>) -> bool {
        match self {
            Some(handle) => is_of_store(store, handle.root()),
            None => true,
        }
    }

    fn is_vmgcref_and_points_to_object(&self) -> bool {
        self.is_some()
    }

    fn dynamic_concrete_type_check<H: GcHeap, D: Drop>(
        &self,
        store: &Store<H, D>,
        nullable: bool,
        actual: &HeapType,
    ) -> Result<(), AccessFault> {
        match self {
            Some(handle) => {
                check_reference(store, R::Mark::CLASS, Some(handle.root()), nullable, actual)
            }
            None => check_reference(store, R::Mark::CLASS, None, nullable, actual),
        }
    }

    fn store<H: GcHeap, D: Drop>(
        &self,
        store: &mut Store<H, D>,
        into: &mut ValRaw,
    ) -> Result<(), RootFault> {
        match self {
            Some(handle) => store_root(store, handle.root(), into),
            None => {
                write_word(into, 0);
                Ok(())
            }
        }
    }

    fn load<H: GcHeap, D: Drop>(
        store: &mut Store<H, D>,
        from: &ValRaw,
    ) -> Result<Option<R>, RootFault> {
        R::load_handle(store, from)
    }
}
