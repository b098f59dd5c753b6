//! Hashes of roots, and of what they name.

ghost use Rattle.std.specs.Prelude.{◌≡◌, true, false, Ok, Err, OnErr};
ghost use Rattle.gc_model.specs.Values.{Reference};
ghost use Rattle.gc_model.specs.Table.{Table};
ghost use Rattle.gc_model.specs.Reads.{same_reference};
ghost use Rattle.gc_model.specs.Holds.{HoldsTable, Holds, Placing};
ghost use Rattle.gc_rooted.specs.Hashes.{HashesReference};
ghost use Rattle.gc_store.specs.Roots.{is_of_store, NamesReference, NamesNothing};

use gc_heap::GcHeap;
use gc_store::Store;
use gc_values::root::{GcRootIndex, RootFault};
use std::hash::Hasher;

/// Feeds a hasher what a handle names. `WrongStore` where it is another store's, then `Unrooted` where it isn't live.
pub(crate) fn hash_named<H: GcHeap, D: Drop, S: Hasher>(
    store: &Store<H, D>,
    index: GcRootIndex,
    state: &mut S,
) -> Result<(), RootFault>
    ensures wrong_store { is_of_store store.now index ≡ false → result ≡ Err RootFault.WrongStore }
    ensures live { (t : Table D) (place : Placing) (r : Reference) → Holds H.KIND store.now t place → NamesReference store.now t index r
        → HashesReference S.write place r state.old state.new result }
    ensures gone { is_of_store store.now index ≡ true → (t : Table D) → HoldsTable H.KIND store.now t → NamesNothing store.now t index
        → result ≡ Err RootFault.Unrooted }
    ensures err { OnErr result (state.new ≡ state.old) }
{
    match store.word(index) {
        Ok(word) => {
            state.write_u32(word);
            Ok(())
        }
        Err(fault) => Err(fault),
    }
}

/// Handles that name the same reference feed a hasher alike, as long as objects lie where they lie.
pub fn same_references_hash_alike<S: Hasher>()
    ensures { (place : Placing) (r q : Reference) (before first second : S) → same_reference r q ≡ true
        → HashesReference S.write place r before first (Ok tt) → HashesReference S.write place q before second (Ok tt) → first ≡ second }
{}
