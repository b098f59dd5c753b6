//! Typed handles over a store: structs, arrays and the values that go in and out of them.
//!
//! A handle is marked with what its reference is (`Rooted<StructRef>`), and a value has handles in place of
//! roots (`Val`). Each call looks at all handles that it is given, whether they are this store's; then, in an
//! order of its own, whether they are live and whether values fit; and then asks the store. So a call is
//! refused for one cause alone, which its clause tells, and a refused call leaves objects and roots as they
//! were. Of the object table a call says, for every table that the store held, what it holds afterwards.
//!
//! A handle of `StructRef`, `ArrayRef` or `ExnRef` that a call is given has to name such an object, where it is live
//! (`NamesKind`). Each call that gives a handle promises that it does; `cast` says only that the root is the
//! same.
//!
//! A function among values, or none, and a continuation are stored by ids of the store's own, which it keeps
//! for good; a continuation that is none has no id.
//!
//! All values of an object are read one by one, by an iterator to which the store is lent (`Values`).
#![tactic(auto)]

mod access;
mod allocators;
mod any;
mod arrays;
mod checks;
mod each_value;
mod exceptions;
mod externs;
mod faults;
mod fits;
mod making;
mod marks;
mod places;
mod raw_words;
mod structs;
mod throwing;
mod upcast;
mod val;
mod values;

pub use allocators::{ArrayRefPre, ExnRefPre, StructRefPre};
pub use faults::{AccessFault, AllocFault};
pub use fits::raw_matches_ty;
pub use marks::{AnyRef, ArrayRef, EqRef, ExnRef, ExternRef, StructRef};
pub use throwing::{StoreExn, ThrowFault};
pub use upcast::{CompoundRef, Upcast, narrow_handles_are_wide};
pub use val::Val;
pub use values::{Elems, Fields, Values};
