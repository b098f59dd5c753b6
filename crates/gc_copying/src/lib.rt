//! The copying heap: objects lie in one half of the memory, and a collection copies those that the
//! roots reach into the other half.
//!
//! ```text
//! 0        16                              half                                        2 * half
//! | unused | object | object | .. | free   | unused | copies, while a collection runs    |
//! ```
//!
//! Each object has its trace word in the spare bits of its kind word and its size, a multiple of 16,
//! behind its header; external objects are linked through a word of their own. `CopyingHeap` is a
//! `GcHeap` of kind Copying, with all that its contract promises of a collection.
#![tactic(auto)]

mod alloc;
mod blocks;
pub mod collection;
pub(crate) mod copy;
mod growth;
pub mod heap;
pub mod layout;
pub(crate) mod space;
pub(crate) mod ticks;
mod write;

pub use collection::CopyingCollection;
pub use heap::CopyingHeap;
pub use layout::{CopyingCollector, round_down_heap_capacity};
