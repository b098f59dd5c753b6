//! A coalescing free list over the places of one heap.
//!
//! ```text
//! 0        16                                                      places' end   capacity
//! | unused | held | free run | held | held | current run | held | free run |  < 16  |
//! ```
//!
//! Places are bytes from the heap's start; blocks begin and end at multiples of 16. The free runs
//! are what the held blocks leave, always maximal. At most one of them is current, and blocks are
//! taken from its front while they fit. Giving a block back takes no memory.
//!
//! A `BatchedFreeList` is a free list to which blocks are given back in runs.
//!
//! A caller gives back only what it holds. Contracts see a free list as a `View`: its capacity, held
//! blocks and current run, which are its `Space`, and its memory. The laws of spaces are in `laws`.
#![tactic(auto)]

mod batched;
mod blocks;
mod free_list;
mod free_runs;
mod held;
mod joining;
mod key;
pub mod laws;
mod layout;
mod merging;
mod placing;
mod run;
mod search;

pub use batched::BatchedFreeList;
pub use blocks::FreeBlocks;
pub use free_list::FreeList;
pub use gc_steps::Steps;
pub use layout::Layout;
pub use run::{ALIGN, Run};
