//! Parts of trees that a call has in hand.

use gc_store::GcRootIndex;

/// A part of a tree: a root of its topmost node, none where it has no nodes, and its height.
#[derive(Clone, Copy, Debug)]
pub(crate) struct Part {
    pub(crate) root: Option<GcRootIndex>,
    pub(crate) height: i32,
}

/// What a node has: its key, its value, and roots of its children.
#[derive(Clone, Copy, Debug)]
pub(crate) struct Node {
    pub(crate) key: i64,
    pub(crate) value: i64,
    pub(crate) left: Option<GcRootIndex>,
    pub(crate) right: Option<GcRootIndex>,
}

/// What was found of a node: its key, its value, and the words of its children, which have no roots yet.
#[derive(Clone, Copy, Debug)]
pub(crate) struct FoundNode {
    pub(crate) key: i64,
    pub(crate) value: i64,
    pub(crate) left: u32,
    pub(crate) right: u32,
}

/// A node with its children as parts.
#[derive(Clone, Copy, Debug)]
pub(crate) struct Opened {
    pub(crate) left: Part,
    pub(crate) key: i64,
    pub(crate) value: i64,
    pub(crate) right: Part,
}

/// A step down a tree: what the node has that was gone through, but for the child that was taken.
#[derive(Clone, Copy, Debug)]
pub(crate) struct Frame {
    pub(crate) goes_left: bool,
    pub(crate) key: i64,
    pub(crate) value: i64,
    /// A root of the other child; none where that is null.
    pub(crate) other: Option<GcRootIndex>,
}
