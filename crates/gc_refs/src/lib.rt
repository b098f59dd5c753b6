//! Words, headers, views of data and raw values of garbage-collected objects.
//!
//! A reference is a 32-bit word: 0 is null, an odd word a 31-bit number, any other word the place of
//! an object. An object begins with a header of two words, and its numbers lie with their lowest byte
//! first. This crate says what they mean, once, for all heaps: words and headers are numbers, views
//! lend exactly a range and refuse each that isn't inside, and equal references have equal words.
//!
//! It stands on `gc_types` for kinds and type indexes, knows no heap and takes no memory.
#![tactic(auto)]

pub mod data;
pub mod data_mut;
pub mod fault;
pub mod header;
pub mod i31;
pub mod laws;
pub mod object_refs;
mod parts;
pub mod pod;
pub mod pointer;
pub mod raw;
pub mod trace;
pub mod typed;
pub mod v128;
pub mod word;

pub use data::VMGcObjectData;
pub use data_mut::VMGcObjectDataMut;
pub use fault::{DataFault, RefFault};
pub use header::VMGcHeader;
pub use i31::I31;
pub use object_refs::{VMArrayRef, VMExnRef, VMExternRef, VMStructRef};
pub use pod::PodValType;
pub use pointer::Pointer;
pub use raw::ValRaw;
pub use trace::InlineTraceInfo;
pub use typed::{GcHeapObject, TypedGcRef};
pub use v128::V128;
pub use word::VMGcRef;
