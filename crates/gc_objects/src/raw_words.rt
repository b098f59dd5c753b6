//! The embedder's references by their raw words.

ghost use Rattle.std.specs.Prelude.{◌≡◌, ◌↔◌, ◌≤◌, ◌<◌, false, true, None, Err, IfOk, IfSome, OnErr};
ghost use Rattle.gc_types.specs.declared.kind.VMGcKind.{VMGcKind};
ghost use Rattle.gc_model.specs.Holds.{HoldsTable, Holds, Placing, IsWord};
ghost use Rattle.gc_model.specs.Table.{Table};
ghost use Rattle.gc_model.specs.Values.{Reference};
ghost use Rattle.gc_model.specs.Accounts.{Account};
ghost use Rattle.gc_store.specs.OwnedWords.{HoldsThere};
ghost use Rattle.gc_store.specs.Roots.{is_of_store, NamesReference, NamesNothing, TellsWord};
ghost use Rattle.gc_store.specs.Stores.{IsSameStore, scoped_places};
ghost use Rattle.gc_store.specs.Kinds.{NamesKind};
ghost use Rattle.gc_store.specs.RawWords.{IsRawWord};
ghost use Rattle.gc_objects.specs.Given.{root_of_handle};
ghost use Rattle.gc_objects.specs.RawWords.{TakesWord};

use crate::marks::ExternRef;
use gc_heap::GcHeap;
use gc_rooted::{Rooted, RootedGcRef};
use gc_store::{RootFault, Store};

impl ExternRef {
    /// The word of the handle's reference, for `from_raw` until the heap collects next. `WrongStore`, then `Unrooted`. It
    /// takes no memory and makes no root.
    pub fn to_raw<H: GcHeap, D: Drop, R: RootedGcRef<ExternRef>>(
        store: &mut Store<H, D>,
        this: &R,
    ) -> Result<u32, RootFault>
        requires { NamesKind D H.KIND store.old VMGcKind.ExternRef (R.index this.now) }
        ensures wrong_store { is_of_store store.old (R.index this.now) ≡ false → result ≡ Err RootFault.WrongStore }
        ensures live { (t : Table D) (place : Placing) (r : Reference) → Holds H.KIND store.old t place
            → NamesReference store.old t (R.index this.now) r → TellsWord place r result }
        ensures gone { is_of_store store.old (R.index this.now) ≡ true → (t : Table D) → HoldsTable H.KIND store.old t
            → NamesNothing store.old t (R.index this.now) → result ≡ Err RootFault.Unrooted }
        ensures kind { IfOk result (IsRawWord D H.KIND store.new VMGcKind.ExternRef) }
        ensures rest { store.new ≡ store.old }
    {
        store.show_word(this.root_index())
    }

    /// A new scoped root for the reference with that word; None exactly for 0, which is null. `RootsFull` where no further
    /// one may be made. The word has to be 0, that of a 31-bit number, or that of an object that the heap holds now
    /// and that is no exception: `to_raw` gives such a one.
    pub fn from_raw<H: GcHeap, D: Drop>(
        store: &mut Store<H, D>,
        raw: u32,
    ) -> Result<Option<Rooted<ExternRef>>, RootFault>
        requires { IsRawWord D H.KIND store.old VMGcKind.ExternRef raw }
        ensures takes { (t : Table D) (place : Placing) (a : Account) (r : Reference) → HoldsThere H.KIND store.old t place a → IsWord place r raw
            → TakesWord H.KIND t place a r result store.new }
        ensures null { IfOk result (λ found. (root_of_handle found ≡ None) ↔ (raw ≡ 0)) }
        ensures kind { IfOk result (λ found. IfSome found (λ handle. NamesKind D H.KIND store.new VMGcKind.ExternRef handle.index)) }
        ensures err { OnErr result (store.new ≡ store.old) }
        ensures same { IsSameStore store.old store.new }
        ensures spare { scoped_places store.old ≤ scoped_places store.new }
        ensures reserved { 0 < store.old.spare → result ≡ Err RootFault.Memory → ⊥ }
    {
        match store.push_word(raw) {
            Ok(Some(root)) => Ok(Some(Rooted::from_gc_root_index(store, root))),
            Ok(None) => Ok(None),
            Err(fault) => Err(fault),
        }
    }
}
