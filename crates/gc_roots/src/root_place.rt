//! Where a root came from.

/// A number of the caller's choice that stays beside a root's word. A list looks at it nowhere: the
/// caller finds by it the slot that the new word belongs to.
#[derive(Clone, Copy, Debug, PartialEq, Eq)]
pub struct RootPlace {
    pub number: u64,
}
