//! Handles of structs and arrays as those of wider types.

ghost use Rattle.gc_types.specs.declared.kind.VMGcKind.{VMGcKind};
ghost use Rattle.gc_types.specs.declared.kind.Layouts.{Layouts};
ghost use Rattle.gc_model.specs.Stores.{StoreView};
ghost use Rattle.gc_values.specs.declared.root.GcRootIndex.{GcRootIndex};
ghost use Rattle.gc_store.specs.Kinds.{NamesKind};

use crate::marks::{AnyRef, ArrayRef, EqRef, StructRef};
use gc_rooted::{GcRef, OwnedRooted, Rooted, RootedGcRef};

/// Handles whose references are of class any and can be compared.
pub trait Upcast {
    ghost use Rattle.std.specs.Prelude.{◌≡◌};
    ghost use Rattle.gc_values.specs.declared.root.GcRootIndex.{GcRootIndex};

    /// The root that it names.
    ghost root: { Self → GcRootIndex };

    /// The handle as one of any reference of class any.
    type AnyRoot: RootedGcRef<AnyRef>;

    /// The handle as one of what can be compared.
    type EqRoot: RootedGcRef<EqRef>;

    /// The same root, as any reference of class any.
    fn to_anyref(self) -> Self::AnyRoot
        ensures { Self.AnyRoot.index result ≡ root self };

    /// The same root, as what can be compared.
    fn to_eqref(self) -> Self::EqRoot
        ensures { Self.EqRoot.index result ≡ root self };
}

/// Marks of structs and of arrays: references of class any that can be compared and are no 31-bit numbers. A mark of the
/// embedder's own has to be such a one too, as its handles become those of class any with no test.
pub trait CompoundRef: GcRef {}

impl CompoundRef for StructRef {}

impl CompoundRef for ArrayRef {}

impl<T: CompoundRef> Upcast for Rooted<T> {
    ghost root = { λ r. r.index };

    type AnyRoot = Rooted<AnyRef>;

    type EqRoot = Rooted<EqRef>;

    fn to_anyref(self) -> Rooted<AnyRef> {
        self.cast()
    }

    fn to_eqref(self) -> Rooted<EqRef> {
        self.cast()
    }
}

impl<T: CompoundRef> Upcast for OwnedRooted<T> {
    ghost root = { λ r. r.index };

    type AnyRoot = OwnedRooted<AnyRef>;

    type EqRoot = OwnedRooted<EqRef>;

    fn to_anyref(self) -> OwnedRooted<AnyRef> {
        self.cast()
    }

    fn to_eqref(self) -> OwnedRooted<EqRef> {
        self.cast()
    }
}

/// A handle that names a struct or an array is one of any reference of class any, and of what can be compared.
pub fn narrow_handles_are_wide<D: Drop>()
    ensures any { (layouts : Layouts) (s : StoreView D) (handle : GcRootIndex) → NamesKind D layouts s VMGcKind.StructRef handle
        → NamesKind D layouts s VMGcKind.AnyRef handle }
    ensures any_array { (layouts : Layouts) (s : StoreView D) (handle : GcRootIndex) → NamesKind D layouts s VMGcKind.ArrayRef handle
        → NamesKind D layouts s VMGcKind.AnyRef handle }
    ensures eq { (layouts : Layouts) (s : StoreView D) (handle : GcRootIndex) → NamesKind D layouts s VMGcKind.StructRef handle
        → NamesKind D layouts s VMGcKind.EqRef handle }
    ensures eq_array { (layouts : Layouts) (s : StoreView D) (handle : GcRootIndex) → NamesKind D layouts s VMGcKind.ArrayRef handle
        → NamesKind D layouts s VMGcKind.EqRef handle }
{}
