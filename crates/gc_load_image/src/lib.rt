//! Heap images are loaded into a new store.
//!
//! `load_image` promises a table of which the bytes are an image, each object made once, or the refusal that has its
//! cause. It asks `gc_image` what the bytes say, and the store for types, objects and globals by the store's own calls.
#![tactic(auto)]

mod declare;
pub mod fault;
mod globals;
mod late;
pub mod load;
mod making;
mod objects;
mod values;

pub use fault::LoadFault;
pub use load::load_image;
