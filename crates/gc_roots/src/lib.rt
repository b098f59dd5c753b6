//! The list of roots that a store hands to a collection.
//!
//! A root is a slot outside of the heap that holds a reference, which is not null: a slot of a frame on
//! a wasm stack, a root of the embedder, a value that a global keeps. The store writes down the word of
//! each beside a number of its own choice; the collection replaces each word by that of the object's
//! new place; the store reads the list again, and stores each word where it came from.
//!
//! Contracts see a `GcRootsList` as `Roots`: the roots in the order of the adds, and the number of
//! spare places. Only `reserve` takes memory. The crate stands on `gc_refs` for words, and knows no heap.
#![tactic(auto)]

mod entry;
mod iter;
mod list;
mod root_place;

pub use entry::GcRoot;
pub use iter::GcRootsIter;
pub use list::GcRootsList;
pub use root_place::RootPlace;
