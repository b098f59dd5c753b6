//! The memory of a heap, and what all heaps share: where the words of an object lie, and what is
//! known of bytes that were written, moved or grown.
//!
//! Contracts see a `HeapMemory` as the list of its bytes. A heap states its own invariant on those bytes,
//! place by place: `specs/` has words at a place (`Words`), what a change leaves as it was (`Changes`),
//! places as sets and multisets (`Lists`), and objects that follow each other (`Chains`); `proofs/` has the
//! laws of each.
#![tactic(auto)]

pub mod memory;
pub mod offsets;

pub use memory::HeapMemory;
