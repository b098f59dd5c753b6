//! Saves what the globals of a store reach as an image.
//!
//! `save_image` promises the text of an image of the table, in the order that the graph alone decides, or the refusal that
//! has its cause. It collects the lines itself (`collect`): breadth first over handles, a line for each object that the
//! globals reach and for no other, by the numbers in which they were found, with the roots given back. `gc_image_write`
//! has their order and text.
#![tactic(auto)]

mod collect;
mod collect_fault;
mod fault;
mod found;
mod globals;
mod kept;
mod laws;
mod objects;
mod reading;
mod renumber;
mod save;
mod taking;

pub use collect::{Collected, collect_objects};
pub use collect_fault::CollectFault;
pub use fault::SaveFault;
pub use laws::{what_was_loaded_is_saved_as_the_same_text, what_was_loaded_may_be_saved};
pub use save::save_image;
