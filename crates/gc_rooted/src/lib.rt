//! Handles of a store's roots that say of which type what they name is, scopes that end by themselves, and laws of stores.
//!
//! Above, a `Rooted` or an `OwnedRooted` is promised to name what its index does, and each call on one to do what the store's
//! call on the index does; a `RootScope` leaves its scope where it is dropped. Below, it asks for nothing but the public
//! calls of a `Store`, whose contracts it hands on.
#![tactic(auto)]

pub mod hashes;
pub mod laws;
pub mod owned_rooted;
pub mod root_scope;
pub mod rooted;

pub use owned_rooted::OwnedRooted;
pub use root_scope::RootScope;
pub use rooted::{GcRef, Rooted, RootedGcRef, ref_eq};
