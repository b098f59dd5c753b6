//! The reports that the program writes: of lists, of paths, of an image that is loaded, of one that is saved.
//!
//! Each promises its text from what the crate below says of the store: `lists` what became of inserts into a map
//! (`gc_maps`), `paths` a line for each object that a root reaches (`gc_paths`), `load` what the heap holds then
//! (`gc_load_image`), `save` the image (`gc_save_image`). `chance` has the numbers by which the program makes work of its own.
#![tactic(auto)]

mod chance;
mod fill;
mod lists;
mod load;
mod path_lines;
mod paths;
mod save;

pub use chance::next_seed;
pub use fill::MAX_INSERTS;
pub use lists::fill_report;
pub use load::load_report;
pub use paths::path_report;
pub use save::save_report;
