//! A store: one heap, its types and its roots.
//!
//! A store holds an object table, in which objects never move or vanish. Handles name its scoped
//! roots; a handle of a scope that was left is refused for ever. The contracts say of each call: for
//! every table that the store held before, it holds the changed table afterwards, and the answer is
//! the table's. No place and no byte of the heap shows.
#![tactic(auto)]

pub mod bytes;
pub mod collect;
pub mod collecting;
pub mod counts;
pub mod declare;
pub mod fits;
pub mod frames;
pub mod globals;
pub mod grow;
pub mod hosts;
pub mod increments;
pub mod laws;
pub mod owned;
pub mod pending;
pub mod place;
pub mod read;
pub mod root_words;
pub mod scope;
pub mod store;
pub mod subtypes;
pub mod suspended;
pub mod words;
pub mod write;

pub use collecting::{Collecting, Guard};
pub use gc_owner::{GcClass, PageLimit, ResourceLimiter, Scripted, should_collect_first};
pub use gc_values::stored::Found;
pub use gc_values::{
    AskedPairs, Contents, Engine, GcHeapOutOfMemory, GcRootIndex, HeapConfig, Place, PlaceFault,
    RawValue, RootFault, RootSlot, RootedObject, StoreId, TypePair, WriteFault,
};
pub use globals::{GLOBAL_COUNT, SlotFault};
pub use grow::GrowFault;
pub use hosts::{HostDataFault, PlaceHostFault};
pub use root_words::{RootAt, RootName, RootWord};
pub use store::Store;
pub use suspended::{Suspended, Suspends};
