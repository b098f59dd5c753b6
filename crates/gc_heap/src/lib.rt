//! The interface of a heap, and the null heap.
//!
//! A store asks its heap for memory, objects and bytes by the trait `GcHeap` and knows nothing of
//! how a heap keeps them: contracts speak of the heap's content, a finite map from places to objects
//! (`HeapView` of `gc_view`). What serves every heap is here too: typed reads and writes (`access`),
//! collections run to their end (`collect`), and what a word's object is (`ref_kinds`). The null
//! heap is the simplest heap: its objects follow each other, and it never frees.
#![tactic(auto)]

pub mod access;
pub mod backing;
pub mod client;
pub mod collect;
pub mod collection;
pub mod fault;
pub mod heap;
pub mod hosts;
mod layouts;
pub mod new_object;
pub mod null;
pub mod read;
pub mod ref_kinds;
pub mod sizes;
mod trace;
pub mod words;

pub use backing::{Backing, HeapSpace};
pub use collection::{GcProgress, GcStoreTraceState};
pub use fault::HeapFault;
pub use gc_memory::HeapMemory;
pub use gc_refs::RefFault;
pub use gc_roots::{GcRoot, GcRootsIter, GcRootsList, RootPlace};
pub use heap::{GcHeap, HeapKind};
pub use new_object::FirstWord;
pub use null::{NullCollection, NullCollector, NullHeap};
pub use ref_kinds::RefKinds;
