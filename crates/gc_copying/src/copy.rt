//! The collection of a copying heap: Cheney's algorithm, in increments.
//!
//! The halves change sides, and each object that a root names is copied. The copies are then scanned from
//! the first to the last, which are at the same time the list of what is still to be scanned: each
//! reference is moved to where its object went, and an object that had not been copied is copied behind the
//! others. At the end the host values of the external objects that were not copied are freed.

pub(crate) mod collect;
pub(crate) mod forward;
pub(crate) mod roots;
pub(crate) mod scan;
pub(crate) mod sweep;
