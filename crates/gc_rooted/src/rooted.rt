//! Handles that say of which type what they name is.

ghost use Rattle.std.specs.Prelude.{◌≡◌, ◌↔◌, ◌⊎◌, IsTrue, IsOkAnd, Option, option_map, true, false, Ok, Err};
ghost use Rattle.gc_model.specs.Values.{Reference};
ghost use Rattle.gc_model.specs.Table.{Table};
ghost use Rattle.gc_model.specs.Reads.{same_reference};
ghost use Rattle.gc_model.specs.Holds.{HoldsTable};
ghost use Rattle.gc_store.specs.Kinds.{IsScopedOfKind};
ghost use Rattle.gc_rooted.specs.Marks.{is_rooted_exception, IsAnyOfKind, IsOfMark, FindsMarked};
ghost use Rattle.gc_store.specs.Roots.{is_of_store, NamesReference, NamesNothing};

use crate::hashes::hash_named;
use gc_heap::GcHeap;
use gc_owner::GcClass;
use gc_store::Store;
use gc_types::VMGcKind;
use gc_values::root::{GcRootIndex, RootFault, RootSlot, RootedObject};
use std::hash::{Hash, Hasher};
use std::marker::PhantomData;

/// A type of references that handles are marked with: its class, and the kind of the objects that it is the
/// widest type of.
pub trait GcRef {
    ghost use Rattle.gc_types.specs.declared.kind.VMGcKind.{VMGcKind};
    ghost use Rattle.gc_owner.specs.declared.entry.GcClass.{GcClass};

    ghost CLASS: { GcClass };

    ghost KIND: { VMGcKind };

    const CLASS: GcClass;

    const KIND: VMGcKind;
}

/// A handle that names a root of a store.
pub trait RootedGcRef<T: GcRef> {
    ghost use Rattle.std.specs.Prelude.{◌≡◌, true, false, Err, OnErr};
    ghost use Rattle.std.specs.List.{fold};
    ghost use Rattle.gc_model.specs.Values.{Reference};
    ghost use Rattle.gc_model.specs.Table.{Table};
    ghost use Rattle.gc_model.specs.Holds.{HoldsTable, Holds, Placing};
    ghost use Rattle.gc_values.specs.declared.root.GcRootIndex.{GcRootIndex};
    ghost use Rattle.gc_rooted.specs.Hashes.{HashesReference};
    ghost use Rattle.gc_store.specs.Roots.{is_of_store, NamesReference, NamesNothing};

    /// The root that it names.
    ghost index: { Self → GcRootIndex };

    /// The root that it names.
    fn root_index(&self) -> GcRootIndex
        ensures { result ≡ index self.now };

    /// Feeds a hasher what the handle names: handles of the same reference feed it alike, as long as the heap doesn't
    /// collect. `WrongStore` where it is another store's, then `Unrooted` where it isn't live. It takes no memory.
    final fn ref_hash<H: GcHeap, D: Drop, S: Hasher>(
        &self,
        store: &Store<H, D>,
        state: &mut S,
    ) -> Result<(), RootFault>
        ensures wrong_store { is_of_store store.now (index self.now) ≡ false → result ≡ Err RootFault.WrongStore }
        ensures live { (t : Table D) (place : Placing) (r : Reference) → Holds H.KIND store.now t place → NamesReference store.now t (index self.now) r
            → HashesReference S.write place r state.old state.new result }
        ensures gone { is_of_store store.now (index self.now) ≡ true → (t : Table D) → HoldsTable H.KIND store.now t
            → NamesNothing store.now t (index self.now) → result ≡ Err RootFault.Unrooted }
        ensures err { OnErr result (state.new ≡ state.old) }
    {
        hash_named(store, self.root_index(), state)
    }

    /// Feeds a hasher the root that it names: handles of one root feed it alike.
    final fn rooted_hash<S: Hasher>(&self, state: &mut S)
        ensures { state.new ≡ fold S.write state.old (⟦<GcRootIndex as Hash>⟧.hash_input (index self.now)) }
    {
        self.root_index().hash(state);
    }
}

/// A handle of a scoped root. It is live as long as its scope isn't left.
#[derive_where(Clone, Copy, Debug)]
pub struct Rooted<T: GcRef> {
    index: GcRootIndex,
    marker: PhantomData<T>,
}

impl<T: GcRef> RootedGcRef<T> for Rooted<T> {
    ghost index = { λ r. r.index };

    fn root_index(&self) -> GcRootIndex {
        self.index
    }
}

/// Whether what a root names is an exception.
fn is_exception(object: &RootedObject) -> bool
    ensures { result ≡ is_rooted_exception object.now }
{
    match object {
        RootedObject::I31(_) => false,
        RootedObject::Struct(_) => false,
        RootedObject::Array(..) => false,
        RootedObject::Host => false,
        RootedObject::Exn(..) => true,
    }
}

/// Whether what a root names is of class any, and of a kind there.
fn is_any_of_kind(object: &RootedObject, kind: VMGcKind) -> bool
    ensures { IsTrue result ↔ IsAnyOfKind kind object.now }
{
    match object {
        RootedObject::I31(_) => VMGcKind::EqRef.matches(kind),
        RootedObject::Struct(_) => VMGcKind::StructRef.matches(kind),
        RootedObject::Array(..) => VMGcKind::ArrayRef.matches(kind),
        RootedObject::Host => false,
        RootedObject::Exn(..) => false,
    }
}

/// Whether what a root names is what a marker of that class and kind takes.
fn is_of_mark(object: &RootedObject, class: GcClass, kind: VMGcKind) -> bool
    ensures { IsTrue result ↔ IsOfMark class kind object.now }
{
    match class {
        GcClass::Any => is_any_of_kind(object, kind),
        GcClass::Extern => !is_exception(object),
        GcClass::Exn => is_exception(object),
    }
}

impl<T: GcRef> Rooted<T> {
    /// A handle of the scoped root that an index names, where its reference is of this type; None where it isn't, and
    /// where the root is an owned one. `WrongStore` where it is another store's index, `Unrooted` where it isn't live.
    /// No root is made.
    pub fn from_index<H: GcHeap, D: Drop>(
        store: &Store<H, D>,
        index: GcRootIndex,
    ) -> Result<Option<Rooted<T>>, RootFault>
        ensures wrong_store { is_of_store store.now index ≡ false → result ≡ Err RootFault.WrongStore }
        ensures live { (t : Table D) (r : Reference) → HoldsTable H.KIND store.now t → NamesReference store.now t index r
            → IsOkAnd result (λ (found : Option (Rooted T)). FindsMarked T.CLASS T.KIND t r index (option_map (λ (h : Rooted T). h.index) found)) }
        ensures gone { is_of_store store.now index ≡ true → (t : Table D) → HoldsTable H.KIND store.now t → NamesNothing store.now t index
            → result ≡ Err RootFault.Unrooted }
    {
        let object = store.object(index)?;
        match index.slot {
            RootSlot::Owned(_) => Ok(None),
            RootSlot::Scoped(_) => {
                if is_of_mark(&object, T::CLASS, T::KIND) {
                    return Ok(Some(Rooted::of_root(index)));
                }
                Ok(None)
            }
        }
    }

    /// A handle of the scoped root that an index names, whose reference the caller knows to be of this type, as `from_index`
    /// finds out. Nothing is looked at.
    pub fn from_gc_root_index<H: GcHeap, D: Drop>(
        store: &Store<H, D>,
        index: GcRootIndex,
    ) -> Rooted<T>
        requires { IsScopedOfKind D H.KIND store.now T.KIND index }
        ensures { result.index ≡ index }
    {
        Rooted::of_root(index)
    }

    /// A handle of that root.
    pub(crate) fn of_root(index: GcRootIndex) -> Rooted<T>
        ensures { result.index ≡ index }
    {
        Rooted {
            index,
            marker: PhantomData,
        }
    }

    /// The same root under another type, which isn't asked of its reference: the calls on typed handles say what they
    /// need of them.
    pub fn cast<U: GcRef>(self) -> Rooted<U>
        ensures { result.index ≡ self.index }
    {
        Rooted::of_root(self.index)
    }

    /// Whether two handles are of the same root. Two roots may name the same object: see `ref_eq`.
    pub fn rooted_eq(a: Rooted<T>, b: Rooted<T>) -> bool
        ensures { IsTrue result ↔ (a.index ≡ b.index) }
    {
        a.index == b.index
    }
}

/// Whether two handles name the same reference. `WrongStore` where one is another store's, then
/// `Unrooted` where one isn't live.
pub fn ref_eq<H: GcHeap, D: Drop, T: GcRef, R: RootedGcRef<T>, Q: RootedGcRef<T>>(
    store: &Store<H, D>,
    a: &R,
    b: &Q,
) -> Result<bool, RootFault>
    ensures wrong_store { (is_of_store store.now (R.index a.now) ≡ false) ⊎ (is_of_store store.now (Q.index b.now) ≡ false)
        → result ≡ Err RootFault.WrongStore }
    ensures live { (t : Table D) (r q : Reference) → HoldsTable H.KIND store.now t
        → NamesReference store.now t (R.index a.now) r → NamesReference store.now t (Q.index b.now) q → result ≡ Ok (same_reference r q) }
    ensures gone { is_of_store store.now (R.index a.now) ≡ true → is_of_store store.now (Q.index b.now) ≡ true → (t : Table D) → HoldsTable H.KIND store.now t
        → NamesNothing store.now t (R.index a.now) ⊎ NamesNothing store.now t (Q.index b.now) → result ≡ Err RootFault.Unrooted }
{
    store.index_eq(a.root_index(), b.root_index())
}
