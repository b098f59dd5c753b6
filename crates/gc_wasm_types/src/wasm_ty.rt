//! The types of references that raw words keep.

use gc_heap::GcHeap;
use gc_objects::AccessFault;
use gc_refs::ValRaw;
use gc_store::{RootFault, Store};
use gc_types::{HeapType, ValType};

/// A type of references that go in and out of raw words.
pub trait WasmTy {
    ghost use Rattle.std.specs.Prelude.{◌≡◌, IfOk, MatchResult, OnErr, OnOk, is_some};
    ghost use Rattle.gc_types.specs.declared.value.ValType.{ValType};
    ghost use Rattle.gc_model.specs.Holds.{HoldsTable, Holds, Placing, IsWord};
    ghost use Rattle.gc_model.specs.Table.{Table};
    ghost use Rattle.gc_model.specs.Values.{Reference};
    ghost use Rattle.gc_model.specs.Accounts.{Account};
    ghost use Rattle.gc_store.specs.OwnedWords.{HoldsThere};
    ghost use Rattle.gc_store.specs.Stores.{IsSameStore};
    ghost use Rattle.gc_wasm_types.specs.Loads.{CanLoad, LoadsValue, RefusesLoad, ValueIsOf, KeepsRoom, WantsNoMemory};
    ghost use Rattle.gc_wasm_types.specs.Values.{WasmValue, WasmForm, value_root, is_own_reference, reference_type, ChecksType, raw_word, StoresWord};

    /// Null, the number, or the root that it names.
    ghost value: { Self → WasmValue };

    /// What the type is.
    ghost FORM: { WasmForm };

    /// The WebAssembly type: nullable exactly for an `Option`.
    fn valtype() -> ValType
        ensures { result ≡ ValType.Ref FORM.ty };

    /// Whether it may be given to a store: false exactly for another store's handle.
    fn compatible_with_store<H: GcHeap, D: Drop>(&self, store: &Store<H, D>) -> bool
        ensures { result ≡ is_own_reference store.now (value self.now) };

    /// Whether it is a handle: true exactly for one that is there.
    fn is_vmgcref_and_points_to_object(&self) -> bool
        ensures { result ≡ is_some (value_root (value self.now)) };

    /// Whether it fits a type: `WrongStore`, `Unrooted`, and `TypeMismatch` where it doesn't, and always for an `I31` that is
    /// there. It takes no memory and changes nothing.
    fn dynamic_concrete_type_check<H: GcHeap, D: Drop>(
        &self,
        store: &Store<H, D>,
        nullable: bool,
        actual: &HeapType,
    ) -> Result<(), AccessFault>
        ensures { (t : Table D) → HoldsTable H.KIND store.now t
            → ChecksType store.now t FORM.class (value self.now) (reference_type nullable actual.now) result };

    /// Writes the word of its reference, 0 for null, to be kept until the heap collects next; its root stays. `WrongStore`, then
    /// `Unrooted`. It takes no memory, and a refused call writes nothing. `load` takes what is written.
    fn store<H: GcHeap, D: Drop>(
        &self,
        store: &mut Store<H, D>,
        into: &mut ValRaw,
    ) -> Result<(), RootFault>
        ensures stores { (t : Table D) (place : Placing) → Holds H.KIND store.old t place → StoresWord store.old t place (value self.now) into.new result }
        ensures word { ValueIsOf D H.KIND store.old FORM.kind (value self.now)
            → OnOk result (CanLoad D H.KIND store.new FORM.kind FORM.ty.nullable (raw_word into.new)) }
        ensures err { OnErr result (into.new ≡ into.old) }
        ensures rest { store.new ≡ store.old };

    /// The reference with the word that is kept, with a new root of its own; none is made for null and for an `I31`.
    /// `RootsFull` where no further one may be made; with room reserved for it a scoped one wants no memory. The word has
    /// to be that of a reference which the type takes, as `store` wrote it and the heap still has it, and is 0 only for
    /// an `Option`.
    fn load<H: GcHeap, D: Drop>(store: &mut Store<H, D>, from: &ValRaw) -> Result<Self, RootFault>
        requires { CanLoad D H.KIND store.old FORM.kind FORM.ty.nullable (raw_word from.now) }
        ensures loads { (t : Table D) (place : Placing) (a : Account) (r : Reference) → HoldsThere H.KIND store.old t place a
            → IsWord place r (raw_word from.now)
            → MatchResult result (λ v. LoadsValue FORM.manner H.KIND t place a r (value v) store.new)
            (λ why. RefusesLoad FORM.manner H.KIND t place a r why store.new) }
        ensures kind { IfOk result (λ v. ValueIsOf D H.KIND store.new FORM.kind (value v)) }
        ensures same { IsSameStore store.old store.new }
        ensures room { KeepsRoom FORM.manner store.old store.new }
        ensures reserved { WantsNoMemory FORM.manner store.old result };
}
