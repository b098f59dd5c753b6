//! A mutator over any heap: it makes objects, holds them by roots, shows them to frame slots and writes
//! their fields, through the interface of a heap alone.
//!
//! A `Mutator` is a heap with all that a collection looks at: the roots, the types and the host values.
//! It is seen as these (`MutatorView`). Whenever it isn't in the middle of a call its heap is sound and a
//! collection may begin, so it keeps the rules that a heap asks of its users: each word that it copies is
//! cloned, each that it gives up is dropped, and what a frame slot holds is shown. What it can't know of a
//! caller's numbers (a root, a type, an offset) it tests, and answers a `MutatorFault`.
#![tactic(auto)]

mod collection;
pub mod fault;
mod fields;
mod growth;
pub mod mutator;
mod objects;
mod reading;
mod rooting;

pub use fault::MutatorFault;
pub use mutator::Mutator;
