//! References printed as Rust prints pointers.
//!
//! The library here has no trait for `{:p}`, so this crate has its own.

use crate::object_refs::{VMArrayRef, VMExnRef, VMExternRef, VMStructRef};
use crate::word::VMGcRef;
use std::fmt;

/// A value that is printed as a place: in lower-case hexadecimal digits, after `0x`.
pub trait Pointer {
    /// Writes the place.
    fn fmt<W: fmt::Write>(&self, f: &mut fmt::Formatter<W>) -> fmt::Result;
}

impl Pointer for VMGcRef {
    fn fmt<W: fmt::Write>(&self, f: &mut fmt::Formatter<W>) -> fmt::Result {
        let word = self.as_raw_u32();
        write!(f, "{word:#x}")
    }
}

impl Pointer for VMStructRef {
    fn fmt<W: fmt::Write>(&self, f: &mut fmt::Formatter<W>) -> fmt::Result {
        Pointer::fmt(self.as_gc_ref(), f)
    }
}

impl Pointer for VMArrayRef {
    fn fmt<W: fmt::Write>(&self, f: &mut fmt::Formatter<W>) -> fmt::Result {
        Pointer::fmt(self.as_gc_ref(), f)
    }
}

impl Pointer for VMExnRef {
    fn fmt<W: fmt::Write>(&self, f: &mut fmt::Formatter<W>) -> fmt::Result {
        Pointer::fmt(self.as_gc_ref(), f)
    }
}

impl Pointer for VMExternRef {
    fn fmt<W: fmt::Write>(&self, f: &mut fmt::Formatter<W>) -> fmt::Result {
        Pointer::fmt(self.as_gc_ref(), f)
    }
}
