//! Side tables of a garbage-collected heap.
//!
//! What an object of the heap names that is no object itself stands in a table beside the heap: the
//! values of host objects, functions and continuations. The object has a number, at most
//! 2^31, and no address, so that whatever is written into the heap's bytes names at worst another entry of the
//! table, or none. Contracts see each table as a finite map from ids to values, with the number of
//! its spare places beside it.
#![tactic(auto)]

mod cont_ref;
mod func_ref;
mod host_data;
mod id;
mod interner;
mod iter;
pub mod laws;
mod slab;

pub use cont_ref::{ContFault, ContRefTable};
pub use func_ref::{FuncFault, FuncRefTable, FuncRefTableId};
pub use host_data::{ExternRefHostDataId, ExternRefHostDataTable, HostFault};
pub use id::Id;
pub use interner::InternFault;
pub use iter::SlabIter;
pub use slab::{Slab, SlabFault};
