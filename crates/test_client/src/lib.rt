//! A client of any heap that makes the calls of `GcHeap` which a mutator has no use for.
//!
//! - `allocation`: objects of declared types, objects that are given back unused, a header that is set, and
//!   what finds no room.
//! - `scope`: a scope in which no collection begins, and a memory that is taken away.
//! - `collections`: one that is counted from its beginning, one that is counted for one increment and then
//!   left to `collect`, and one that is counted whole.
#![tactic(auto)]

pub mod allocation;
pub mod collections;
pub mod fault;
pub mod scope;

pub use fault::ClientFault;
