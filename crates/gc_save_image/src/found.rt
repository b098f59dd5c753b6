//! The objects that were found.

ghost use Rattle.std.specs.Prelude.{◌≡◌, IfOk, length};
ghost use Rattle.gc_save_image.specs.Parts.{NumbersObject, empty_found, found_handles};

use gc_store::GcRootIndex;
use std::alloc::{AllocError, Global};
use std::collections::HashMap;

/// Handles of the objects by their numbers, and the numbers by the objects' words.
#[derive(Drop)]
pub(crate) struct Found {
    pub(crate) handles: Vec<GcRootIndex>,
    pub(crate) numbers: HashMap<u32, usize>,
}

impl Found {
    pub(crate) fn new(alloc: Global) -> Found
        ensures { found_handles result ≡ empty_found }
    {
        Found {
            handles: Vec::new(alloc),
            numbers: HashMap::new(alloc),
        }
    }

    /// The number of the object with that word, which a handle names: the next one where it has none yet.
    pub(crate) fn number(&mut self, word: u32, handle: GcRootIndex) -> Result<usize, AllocError>
        ensures { IfOk result (NumbersObject (found_handles self.old) (found_handles self.new) word handle) }
    {
        if let Some(number) = self.numbers.get(&word) {
            return Ok(*number);
        }
        let number = self.handles.len();
        self.numbers.insert(word, number)?;
        self.handles.extend_from_slice(&[handle])?;
        Ok(number)
    }
}
