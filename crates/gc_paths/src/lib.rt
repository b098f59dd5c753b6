//! Shortest paths from the roots of a store to its objects, found level by level over handles.
//!
//! `all_paths` promises an entry for each object to which there is a walk and for no other, with its least length. It asks
//! the store for its root words, objects and values, and gives back the roots that it pushed. `path_to` promises the entries
//! that lead to one object, each with the least length of a walk, or none where there is no walk.
#![tactic(auto)]

mod entry;
mod fault;
pub mod laws;
mod report;
mod roots;
mod search;
mod taking;
mod target;
mod values;

pub use entry::{PathEntry, PathParent};
pub use fault::PathFault;
pub use search::{Found, all_paths, find_paths};
pub use target::path_to;
pub use values::count_values;
