//! One value is taken into a line.

ghost use Rattle.std.specs.Prelude.{◌≡◌, ℕ, List};
ghost use Rattle.gc_model.specs.Holds.{Holds, Placing};
ghost use Rattle.gc_model.specs.Table.{Table};
ghost use Rattle.gc_model.specs.Values.{Reference, Value, reference};
ghost use Rattle.gc_values.specs.declared.root.RawValue.TheVariants as raw;
ghost use Rattle.gc_store.specs.Roots.{NamesReference};
ghost use Rattle.gc_store.specs.Slots.{HandleStands};
ghost use Rattle.gc_store.specs.Values.{IsLive, NamesLive, RawStands};
ghost use Rattle.gc_paths.specs.Progress.{Basis};
ghost use Rattle.gc_save_image.specs.Parts.{found_handles};
ghost use Rattle.gc_save_image.specs.Progress.{AnswersImagePart, ImageGoesOn, ImageProgress, SaysValue};
ghost use Rattle.gc_save_image.specs.Steps.{LeadsOn, TakesImageReference};

use crate::collect_fault::CollectFault;
use crate::found::Found;
use gc_heap::GcHeap;
use gc_image::{ImageReference, ImageValue};
use gc_owner::GcClass;
use gc_store::{GcRootIndex, RawValue, Store};

/// What a handle names: an object by its number, which it is given where it has none. The word of a 31-bit number is odd.
fn reference_of<H: GcHeap>(
    store: &Store<H, u64>,
    found: &mut Found,
    handle: GcRootIndex,
) -> Result<ImageReference, CollectFault>
    requires { IsLive ℕ H.KIND store.now handle }
    ensures { (t : Table ℕ) (place : Placing) (r : Reference) → Holds H.KIND store.now t place → NamesReference store.now t handle r
        → TakesImageReference place r handle (found_handles found.old) (found_handles found.new) result }
{
    let word = match store.word(handle) {
        Ok(word) => word,
        Err(_) => unreachable!(),
    };
    if word % 2 == 1 {
        return Ok(ImageReference::Small(word / 2));
    }
    match found.number(word, handle) {
        Ok(number) => Ok(ImageReference::Object(number)),
        Err(_) => Err(CollectFault::Memory),
    }
}

/// A reference of that class: null, or what a handle names.
pub(crate) fn take_reference<H: GcHeap>(
    store: &Store<H, u64>,
    found: &mut Found,
    class: GcClass,
    handle: Option<GcRootIndex>,
) -> Result<ImageValue, CollectFault>
    requires { NamesLive ℕ H.KIND store.now (raw.Ref class handle) }
    ensures { (b : Basis ℕ) (told : List ℕ) (count : ℕ) (q : Reference) (progress : ImageProgress H.KIND b told count store.now (found_handles found.old))
        → HandleStands store.now progress.holds.now handle q → LeadsOn b (reference class q)
        → AnswersImagePart H.KIND b (λ x. ImageGoesOn H.KIND b told count store.now (found_handles found.new) (λ then. SaysValue then (reference class q) x))
        ⊥ result store.now }
{
    match handle {
        None => Ok(ImageValue::Ref(class, ImageReference::Null)),
        Some(handle) => match reference_of(store, found, handle) {
            Ok(reference) => Ok(ImageValue::Ref(class, reference)),
            Err(fault) => Err(fault),
        },
    }
}

/// A value that was read. A function and a continuation have no word: null stands in their place.
pub(crate) fn take_raw<H: GcHeap>(
    store: &Store<H, u64>,
    found: &mut Found,
    value: RawValue,
) -> Result<ImageValue, CollectFault>
    requires { NamesLive ℕ H.KIND store.now value }
    ensures { (b : Basis ℕ) (told : List ℕ) (count : ℕ) (v : Value) (progress : ImageProgress H.KIND b told count store.now (found_handles found.old))
        → RawStands store.now progress.holds.now value v → LeadsOn b v
        → AnswersImagePart H.KIND b (λ x. ImageGoesOn H.KIND b told count store.now (found_handles found.new) (λ then. SaysValue then v x)) ⊥ result store.now }
{
    match value {
        RawValue::I32(n) => Ok(ImageValue::I32(n)),
        RawValue::I64(n) => Ok(ImageValue::I64(n)),
        RawValue::F32(bits) => Ok(ImageValue::F32(bits)),
        RawValue::F64(bits) => Ok(ImageValue::F64(bits)),
        RawValue::V128(bits) => Ok(ImageValue::V128(bits)),
        RawValue::Func(_) => Ok(ImageValue::Ref(GcClass::Any, ImageReference::Null)),
        RawValue::Cont(_) => Ok(ImageValue::Ref(GcClass::Any, ImageReference::Null)),
        RawValue::Ref(class, handle) => take_reference(store, found, class, handle),
    }
}
