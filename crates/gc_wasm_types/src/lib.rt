//! References as values of raw words: 31-bit numbers, handles of structs and arrays, and the embedder's, with null or without.
//!
//! Each of these types tells its WebAssembly type, is checked against another, is stored as its raw word, and loaded from it
//! with a new root of its own (`WasmTy`).
#![tactic(auto)]

mod checks;
mod handles;
mod marks;
mod numbers;
mod wasm_ty;
mod words;

pub use handles::WasmHandle;
pub use marks::WasmRef;
pub use wasm_ty::WasmTy;
