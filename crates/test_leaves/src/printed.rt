//! References as they are printed.

use gc_refs::{
    Pointer, TypedGcRef, VMArrayRef, VMExnRef, VMExternRef, VMGcHeader, VMGcRef, VMStructRef,
};
use std::alloc::AllocError;
use std::fmt;

/// A word in lower-case digits.
#[derive(Drop)]
struct Lower<'a>(&'a VMGcRef);

impl fmt::Display for Lower<'_> {
    fn fmt<W: fmt::Write>(&self, f: &mut fmt::Formatter<W>) -> fmt::Result {
        fmt::LowerHex::fmt(self.0, f)
    }
}

/// A word in upper-case digits.
#[derive(Drop)]
struct Upper<'a>(&'a VMGcRef);

impl fmt::Display for Upper<'_> {
    fn fmt<W: fmt::Write>(&self, f: &mut fmt::Formatter<W>) -> fmt::Result {
        fmt::UpperHex::fmt(self.0, f)
    }
}

/// A reference as a place.
#[derive(Drop)]
struct Placed<'a, P>(&'a P);

impl<P: Pointer> fmt::Display for Placed<'_, P> {
    fn fmt<W: fmt::Write>(&self, f: &mut fmt::Formatter<W>) -> fmt::Result {
        Pointer::fmt(self.0, f)
    }
}

/// Writes the texts of a word.
pub(crate) fn show_word_texts(gc_ref: &VMGcRef, out: &mut String) -> Result<(), AllocError> {
    let (lower, upper, placed) = (Lower(gc_ref), Upper(gc_ref), Placed(gc_ref));
    write!(
        out,
        "{lower} {lower:#} {upper} {upper:#} {placed} {gc_ref:?}"
    )
}

/// Writes the texts of a reference.
fn show_reference<P: Pointer + fmt::Debug>(
    reference: &P,
    out: &mut String,
) -> Result<(), AllocError> {
    write!(out, "{} {reference:?}, ", Placed(reference))
}

/// Writes the texts of references of each kind that have that word.
pub(crate) fn show_kind_texts(gc_ref: &VMGcRef, out: &mut String) -> Result<(), AllocError> {
    show_reference(&VMStructRef::new_unchecked(gc_ref.unchecked_copy()), out)?;
    show_reference(&VMArrayRef::new_unchecked(gc_ref.unchecked_copy()), out)?;
    show_reference(&VMExnRef::new_unchecked(gc_ref.unchecked_copy()), out)?;
    show_reference(&VMExternRef::new_unchecked(gc_ref.unchecked_copy()), out)?;
    show_typed(gc_ref, out)
}

/// Writes the text of a typed reference that has that word.
fn show_typed(gc_ref: &VMGcRef, out: &mut String) -> Result<(), AllocError> {
    let typed: TypedGcRef<VMGcHeader> = TypedGcRef::new_unchecked(gc_ref.unchecked_copy());
    write!(out, "{typed:?}")
}
