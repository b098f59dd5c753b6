//! Types of garbage-collected objects and where their values lie.
//!
//! The crate keeps a table of declared types (`Types`): which may be declared, which are subtypes of
//! which and match which (WebAssembly GC proposal), and for each of the three heaps at which offset
//! each value of a type lies. It stands on nothing; every layer above asks it what a type is. Its
//! definitions are in `specs/`: `Declarations` (the table as a plain list), `Subtyping` (what
//! matches what), `Declarable` (which types may be declared) and `Layouts` (offsets, sizes and trace
//! infos as functions of the declarations).
#![tactic(auto)]

mod ancestry;
mod checks;
mod entry;
pub mod index;
pub mod kind;
pub mod layout;
pub mod layout_laws;
mod matching;
pub mod matching_laws;
mod placement;
mod traces;
mod type_names;
pub mod types;
pub mod value;

pub use entry::TypeShape;
pub use index::VMSharedTypeIndex;
pub use kind::{Layouts, TypeKind, VMGcKind};
pub use layout::{FieldLayout, FieldLayouts, GcArrayLayout, GcStructLayout, Offsets, TraceInfo};
pub use type_names::{ArrayType, ExnType, FuncType, StructType};
pub use types::{TypeFault, Types};
pub use value::{
    FieldType, Func, HeapTopType, HeapType, Mutability, RefType, StorageType, Tag, ValType,
};
