//! One owner of a heap, of its roots, its types and its host values.
//!
//! A `HeapOwner` keeps its heap so that a collection may begin between any two of its calls: it lists all
//! five kinds of root (scoped, owned, frame slots, globals, the pending exception), has room for each in the
//! list, and tells the heap of each word that is copied or given up. So its calls ask for nothing of the
//! heap but that no collection is under way. It knows no object table: what its words stand for is said by
//! the store above it.
#![tactic(auto)]

mod access;
pub mod allocate;
mod barriers;
mod collect;
mod columns;
mod counted;
mod declare;
pub mod entry;
mod frames;
mod grow;
pub mod host;
mod increments;
pub mod limiter;
mod owned;
pub mod owner;
pub mod pages;
mod roots;
mod scopes;
pub mod scripted;
mod slots;
mod write;

pub use allocate::{AllocateFault, Description};
pub use entry::{GcClass, OwnedEntry, RootEntry, SlotEntry};
pub use grow::should_collect_first;
pub use host::HostFault;
pub use limiter::{PageLimit, ResourceLimiter};
pub use owner::HeapOwner;
pub use pages::PagesFault;
pub use scripted::Scripted;
pub use slots::GLOBAL_COUNT;
