//! What contracts see of a heap, whatever kind it is: its objects by their places (`specs/Heaps`), the
//! bytes of its memory (`specs/Bytes`), and the sizes and pages that it counts in (`specs/Sizes`,
//! `specs/Pages`).
//!
//! Definitions and lemmas alone. No object table is known here: heaps stand on this crate, and the table
//! (`gc_model`) stands beside them.
#![tactic(auto)]
