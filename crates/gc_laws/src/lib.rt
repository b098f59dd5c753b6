//! Laws of scripts: what the steps, the policy of growth and a told limit decide, and a worked session.
//!
//! `list_laws` says of lists and maps of heap objects that no command changes one.
//! Each law is the contract of a function that does nothing. No crate stands on this one.
#![tactic(auto)]

pub mod laws;
pub mod limit_laws;
pub mod list_laws;
pub mod root_laws;

pub use laws::one_struct_session;
