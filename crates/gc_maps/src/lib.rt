//! Maps from 64-bit integers to 64-bit integers that live in the heap of a store.
//!
//! A map never changes: each call that would change one answers a new version, which shares nodes with the old one. A
//! version is empty or has an owned root, whose reference is a balanced search tree in the object table (`IsMap`),
//! whatever is called and collected in between, as long as that root is live.
#![tactic(auto)]

mod copying;
mod finding;
mod joining;
pub mod laws;
mod making;
pub mod map;
mod part;
mod reading;
mod removing;
mod ways;

pub use map::HeapMap;
