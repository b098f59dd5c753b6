//! The object table, which all contracts above speak of, and what they see of a heap and a store.
//!
//! The table has plain lists and numbers, and objects that never move or vanish; it has no bytes, no
//! places and no headers. `specs/` has it: `Values` (references, values, objects), `Table` (the table
//! and its changes), `Live` (which handles are live), `Sizes`, `Allocation` (when an allocation
//! succeeds), `Stores` (what is seen of a store) and `Holds` (the store holds the table), whose points
//! stand each by itself: those on roots in `RootPoints`.
#![tactic(auto)]

pub mod classes;
