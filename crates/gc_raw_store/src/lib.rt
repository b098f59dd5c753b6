//! A heap with a table of host values: what compiled code and the runtime make objects in, read them by and run
//! barriers through.
//!
//! A `GcStore` is seen as its heap's content and the host values by their ids (`GcStoreView`). Its heap is
//! sound and has its memory whenever no call is under way, and each external object has a host value of its
//! own. It knows no roots, types or growth: those stand above (`gc_owner`, `gc_store`).
//!
//! - `allocation`: new objects, and objects that are given back unused.
//! - `hosts`: external objects, and their values.
//! - `reading`: what the object of a word is.
//! - `barriers`: what is told to the heap where a word is copied, given up or shown; `ref_barriers` has the
//!   same of typed references.
#![tactic(auto)]

mod allocation;
mod barriers;
mod hosts;
mod reading;
pub mod ref_barriers;
pub mod store;

pub use ref_barriers::RefBarriers;
pub use store::GcStore;
