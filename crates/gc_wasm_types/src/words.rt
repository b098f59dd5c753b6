//! References as raw words.

ghost use Rattle.std.specs.Prelude.{◌≡◌, ◌↔◌, ◌<◌, ◌≤◌, IfOk, IfSome, OnErr, OnOk, Bool, option_map, None};
ghost use Rattle.gc_types.specs.declared.kind.VMGcKind.{VMGcKind};
ghost use Rattle.gc_model.specs.Holds.{Holds, Placing, IsWord};
ghost use Rattle.gc_model.specs.Table.{Table};
ghost use Rattle.gc_model.specs.Values.{Reference};
ghost use Rattle.gc_model.specs.Accounts.{Account};
ghost use Rattle.gc_store.specs.OwnedWords.{HoldsThere};
ghost use Rattle.gc_store.specs.Stores.{IsSameStore, scoped_places};
ghost use Rattle.gc_store.specs.Kinds.{NamesKind};
ghost use Rattle.gc_store.specs.RawWords.{IsRawWord};
ghost use Rattle.gc_objects.specs.Given.{root_of_handle};
ghost use Rattle.gc_objects.specs.RawWords.{TakesWord};
ghost use Rattle.gc_wasm_types.specs.Loads.{OwnsWordOf, CanLoad};
ghost use Rattle.gc_wasm_types.specs.Values.{handle, references, raw_word, word_bytes, StoresWord};

use gc_heap::GcHeap;
use gc_refs::ValRaw;
use gc_rooted::{GcRef, OwnedRooted, Rooted};
use gc_store::{GcRootIndex, RootFault, Store};

/// Writes a word.
pub(crate) fn write_word(into: &mut ValRaw, word: u32)
    ensures bytes { into.new ≡ word_bytes word }
    ensures word { raw_word into.new ≡ word }
{
    *into = ValRaw::anyref(word);
}

/// Writes the word of what a root names.
pub(crate) fn store_root<H: GcHeap, D: Drop>(
    store: &mut Store<H, D>,
    root: GcRootIndex,
    into: &mut ValRaw,
) -> Result<(), RootFault>
    ensures stores { (t : Table D) (place : Placing) → Holds H.KIND store.old t place → StoresWord store.old t place (handle root) into.new result }
    ensures word { (kind : VMGcKind) (nullable : Bool) → NamesKind D H.KIND store.old kind root
        → OnOk result (CanLoad D H.KIND store.new (references kind) nullable (raw_word into.new)) }
    ensures err { OnErr result (into.new ≡ into.old) }
    ensures rest { store.new ≡ store.old }
{
    match store.show_word(root) {
        Ok(word) => {
            write_word(into, word);
            Ok(())
        }
        Err(fault) => Err(fault),
    }
}

/// A new scoped root for the reference with that word; None exactly for 0.
pub(crate) fn load_scoped<H: GcHeap, D: Drop, T: GcRef>(
    store: &mut Store<H, D>,
    from: &ValRaw,
) -> Result<Option<Rooted<T>>, RootFault>
    requires { IsRawWord D H.KIND store.old T.KIND (raw_word from.now) }
    ensures takes { (t : Table D) (place : Placing) (a : Account) (r : Reference) → HoldsThere H.KIND store.old t place a → IsWord place r (raw_word from.now)
        → TakesWord H.KIND t place a r result store.new }
    ensures null { IfOk result (λ found. (root_of_handle found ≡ None) ↔ (raw_word from.now ≡ 0)) }
    ensures kind { IfOk result (λ found. IfSome found (λ handle. NamesKind D H.KIND store.new T.KIND handle.index)) }
    ensures same { IsSameStore store.old store.new }
    ensures spare { scoped_places store.old ≤ scoped_places store.new }
    ensures reserved { 0 < store.old.spare → result ≡ Err RootFault.Memory → ⊥ }
{
    match store.push_word(from.get_anyref()) {
        Ok(Some(root)) => Ok(Some(Rooted::from_gc_root_index(store, root))),
        Ok(None) => Ok(None),
        Err(fault) => Err(fault),
    }
}

/// A new owned root for the reference with that word; None exactly for 0.
pub(crate) fn load_owned<H: GcHeap, D: Drop, T: GcRef>(
    store: &mut Store<H, D>,
    from: &ValRaw,
) -> Result<Option<OwnedRooted<T>>, RootFault>
    requires { IsRawWord D H.KIND store.old T.KIND (raw_word from.now) }
    ensures owns { (t : Table D) (place : Placing) (a : Account) (r : Reference) → HoldsThere H.KIND store.old t place a → IsWord place r (raw_word from.now)
        → OwnsWordOf H.KIND t a r result store.new }
    ensures null { IfOk result (λ found. (option_map (λ (h : OwnedRooted T). h.index) found ≡ None) ↔ (raw_word from.now ≡ 0)) }
    ensures kind { IfOk result (λ found. IfSome found (λ handle. NamesKind D H.KIND store.new T.KIND handle.index)) }
    ensures same { IsSameStore store.old store.new }
    ensures spare { store.old.spare ≤ store.new.spare }
{
    OwnedRooted::from_word(store, from.get_anyref())
}
