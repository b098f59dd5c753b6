//! Lists of 64-bit integers that live in the heap of a store.
//!
//! A list never changes: each call that would change one answers a new version, which shares cells with the old one. A
//! version is empty or has an owned root, whose reference is the list in the object table (`IsList`), whatever is called
//! and collected in between, as long as that root is live.
#![tactic(auto)]

pub mod fault;
pub mod kit;
pub mod laws;
pub mod list;
pub mod roots;
mod walk;

pub use fault::ListFault;
pub use kit::Kit;
pub use list::HeapList;
