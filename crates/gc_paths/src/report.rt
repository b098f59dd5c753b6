//! The report as it grows.

ghost use Rattle.std.specs.Prelude.{◌≡◌, OnOk, length};
ghost use Rattle.gc_paths.specs.Parts.{parts, empty_parts, Adds};

use crate::entry::PathEntry;
use gc_store::GcRootIndex;
use std::alloc::{AllocError, Global};
use std::collections::HashSet;

/// Entries, the handles of their objects, and the words of these.
#[derive(Drop)]
pub(crate) struct Report {
    pub(crate) entries: Vec<PathEntry>,
    pub(crate) handles: Vec<GcRootIndex>,
    pub(crate) words: HashSet<u32>,
}

impl Report {
    pub(crate) fn new(alloc: Global) -> Report
        ensures { parts result ≡ empty_parts }
    {
        Report {
            entries: Vec::new(alloc),
            handles: Vec::new(alloc),
            words: HashSet::new(alloc),
        }
    }

    /// Adds the entry of an object, by its handle, where the object has none yet.
    pub(crate) fn add(&mut self, entry: PathEntry, handle: GcRootIndex) -> Result<(), AllocError>
        ensures { OnOk result (Adds (parts self.old) (parts self.new) entry handle) }
    {
        if !self.words.insert(entry.word)? {
            return Ok(());
        }
        self.entries.extend_from_slice(&[entry])?;
        self.handles.extend_from_slice(&[handle])?;
        Ok(())
    }
}
