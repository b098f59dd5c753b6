//! The entries of a report.

use gc_store::RootName;

/// Where the path to an object comes from.
#[derive(Clone, Copy, Debug, PartialEq, Eq)]
pub enum PathParent {
    /// From a root that names the object.
    FromRoot(RootName),
    /// From the object of an earlier entry, by its number from 0, whose value of that index names the object.
    FromEntry { entry: u32, index: u32 },
}

/// An object and the last step of a shortest path to it.
#[derive(Clone, Copy, Debug, PartialEq, Eq)]
pub struct PathEntry {
    /// The object's word, as `Store::word` tells it until the heap collects next.
    pub word: u32,
    pub parent: PathParent,
    /// How many values the path goes through: 0 where a root names the object.
    pub length: u32,
}
