//! What handles and types have to do with each other: hashes, wider types, and subtypes that were asked of.

ghost use Rattle.std.specs.Prelude.{◌≡◌};

use crate::fault::Result;
use crate::page::Page;
use crate::setup::{EMPTY, NARROW, UNDECLARED, new_host, new_struct};
use gc_heap::GcHeap;
use gc_objects::{ExternRef, StructRef, Upcast};
use gc_rooted::{Rooted, RootedGcRef, ref_eq};
use gc_store::{RootFault, Store};
use gc_types::VMSharedTypeIndex;
use std::hash::{FoldHasher, Hasher};

/// Whether the references of two handles are hashed alike.
fn are_hashed_alike<H: GcHeap, R, Q>(
    store: &Store<H, u64>,
    first: &R,
    second: &Q,
) -> Result<bool, RootFault>
where
    R: RootedGcRef<ExternRef>,
    Q: RootedGcRef<ExternRef>,
{
    let mut hasher = FoldHasher::default();
    first.ref_hash(store, &mut hasher)?;
    let mut other = FoldHasher::default();
    second.ref_hash(store, &mut other)?;
    Ok(hasher.finish() == other.finish())
}

/// The hash of the root that a handle names.
fn root_hash<R: RootedGcRef<ExternRef>>(handle: &R) -> u64 {
    let mut hasher = FoldHasher::default();
    handle.rooted_hash(&mut hasher);
    hasher.finish()
}

/// A scoped handle and two of an owned root: their references are hashed alike, and so are the roots of those two.
pub(crate) fn run_hashes<H: GcHeap>(page: &mut Page, store: &mut Store<H, u64>) -> Result<()> {
    let host = new_host(store, 10)?;
    let owned = host.to_owned_rooted(store)?;
    let second = owned.clone_in(store)?;
    let references = are_hashed_alike(store, &host, &owned);
    let roots = root_hash(&owned) == root_hash(&second);
    writeln!(page, "hashed alike: {references:?}, roots: {roots}");
    Ok(())
}

/// A handle as one of what can be compared.
fn comparable<U: Upcast>(handle: U) -> U::EqRoot
    ensures { U.EqRoot.index result ≡ U.root handle }
{
    handle.to_eqref()
}

/// Makes a struct, and takes its scoped and its owned handle as those of wider types.
pub(crate) fn run_widened<H: GcHeap>(page: &mut Page, store: &mut Store<H, u64>) -> Result<()> {
    let made = new_struct(store, EMPTY, &[])?;
    let owned = made.to_owned_rooted(store)?;
    let same = ref_eq(store, &comparable(made), &comparable(owned));
    let found = Rooted::<StructRef>::from_index(store, made.root_index());
    let is_struct = matches!(found, Ok(Some(_)));
    writeln!(page, "the same: {same:?}, a struct: {is_struct}");
    Ok(())
}

/// Asks of pairs of types, and shows what is kept of each before and after: of a type and its supertype in both orders, and of
/// a type that isn't declared.
pub(crate) fn run_subtypes<H: GcHeap>(page: &mut Page, store: &mut Store<H, u64>) {
    for (sub, sup) in [(NARROW, EMPTY), (EMPTY, NARROW), (NARROW, UNDECLARED)] {
        let (sub, sup) = (VMSharedTypeIndex::new(sub), VMSharedTypeIndex::new(sup));
        let before = store.cached_subtype(sub, sup);
        let answer = store.is_subtype_cached(sub, sup);
        let after = store.cached_subtype(sub, sup);
        writeln!(page, "kept {before:?}, answered {answer}, kept {after:?}");
    }
}
