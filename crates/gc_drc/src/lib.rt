//! The counting heap: each object counts the words that name it, and a collection frees those that no
//! root reaches.
//!
//! `CountedSpace` is the memory with what the heap knows of it: the words in front of each object, and a
//! free list that holds a block for each object. What stands in the memory is told by a view: the places,
//! the list of shown words, the queue of objects to be freed, how often each place is named. Each call
//! says what it makes of the view, and `seen_in` says what content, counts and capacity a heap shows then.
//!
//! - `alloc`, `place`: the front of a free stretch becomes an object that one word names.
//! - `barriers`, `counting`: a word is copied, given up or shown to a frame slot.
//! - `give`, `read`, `write`: an object is given back, read and written.
//! - `growth`: the memory comes, goes, and grows.
//! - `collect`: the increments of a collection over a space.
//! - `collection`: what a collection knows between two increments.
//! - `heap`: `DrcHeap`, a space or none, behind `GcHeap`.
//! - `laws`: what stands between two increments.
//!
//! A collection has three increments and moves nothing. Its proof has two levels: in memory, where a
//! `Context` is what it began with and each increment leads from one phase to the next, and in objects,
//! where it began at a `Start` and what it leaves is `Collected`. `DrcHeap::free_unheld` does the first
//! two, and says what they free: the plain law of counting.
#![tactic(auto)]

mod alloc;
mod barriers;
mod blocks;
pub(crate) mod collect;
pub mod collection;
mod counting;
mod give;
mod growth;
pub mod heap;
pub mod laws;
pub(crate) mod space;
mod write;

pub use collection::{DrcCollection, DrcCollector};
pub use heap::DrcHeap;
