//! What a collection is given and tells.

use gc_tables::ExternRefHostDataTable;
use gc_types::Types;

/// Whether a collection has more increments to do.
#[derive(Clone, Copy, Debug, PartialEq, Eq)]
pub enum GcProgress {
    Continue,
    Complete,
}

/// What of a store a collection looks at beside its heap and roots: the host values, of which it
/// frees those of the external objects that it frees, and the types, by which it finds references.
#[derive(Drop)]
pub struct GcStoreTraceState<'a, D> {
    pub host_data_table: &'a mut ExternRefHostDataTable<D>,
    pub types: &'a Types,
}
