//! Values at the border of a store: what an embedder hands in, how it lies in the slots of a heap's objects, and how it is
//! read back.
//!
//! Nothing here knows a store. Its functions work over the owner of a heap, over what is interned, and over the roots that
//! an owner lists. Above, they promise what the slots of an object hold after each, in the words of the standard's values;
//! below, they ask that no collection is under way, that the owner holds the object, and that its slot is of the value's
//! type.
#![tactic(auto)]

pub mod config;
pub mod contents;
pub mod describe;
pub mod engine;
pub mod faults;
mod fill;
pub mod interned;
pub mod make;
pub mod own_types;
pub mod raw_value;
pub mod request;
pub mod root;
pub mod slot;
pub mod sources;
pub mod stored;
pub mod subtypes;
mod tag;
pub mod word;

pub use config::HeapConfig;
pub use contents::{ContentSource, EachFrom};
pub use engine::{Engine, StoreId};
pub use faults::{GcHeapOutOfMemory, PlaceFault, WriteFault};
pub use request::{Contents, Place};
pub use root::{GcRootIndex, RawValue, RootFault, RootSlot, RootedObject};
pub use sources::ValueSource;
pub use subtypes::{AskedPairs, TypePair};
