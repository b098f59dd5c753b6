//! The commands that declare types.

ghost use Rattle.std.specs.Prelude.{◌≡◌};
ghost use Rattle.gc_commands.specs.declared.command.Command.TheVariants as Command;
ghost use Rattle.gc_script.specs.State.{State, HoldsState};
ghost use Rattle.gc_script.specs.Run.{GoesOn};
ghost use Rattle.gc_store.specs.Stores.{IsSameStore};

use crate::runner::{RunError, Runner};
use gc_commands::type_words::{field_of, fields_of, index_of};
use gc_commands::{FieldWord, Refusal, Reply};
use gc_heap::GcHeap;
use gc_store::Store;
use gc_types::{TypeFault, TypeKind};

impl Runner {
    /// Declares a struct type.
    pub(crate) fn declare_struct<H: GcHeap>(
        &self,
        store: &mut Store<H, u64>,
        is_final: bool,
        supertype: Option<u32>,
        words: &[FieldWord],
    ) -> Result<Reply, RunError>
        ensures goes { (s : State) → HoldsState H.KIND store.old self.now s
            → GoesOn H.KIND s (Command.Struct is_final supertype words.now) result store.new self.now }
        ensures same { IsSameStore store.old store.new }
    {
        let fields = match fields_of(self.alloc, store.types(), TypeKind::Struct, words) {
            Ok(Some(fields)) => fields,
            Ok(None) => return Ok(Reply::Refused(Refusal::BadType)),
            Err(_) => return Err(RunError::OutOfMemory),
        };
        match store.declare_struct(fields.as_slice(), index_of(supertype), is_final) {
            Ok(ty) => Ok(Reply::Declared(ty.index().as_u32())),
            Err(TypeFault::BadType) => Ok(Reply::Refused(Refusal::BadType)),
            Err(TypeFault::Memory) => Err(RunError::OutOfMemory),
        }
    }

    /// Declares an array type. Takes no memory beside that of the type.
    pub(crate) fn declare_array<H: GcHeap>(
        &self,
        store: &mut Store<H, u64>,
        is_final: bool,
        supertype: Option<u32>,
        word: &FieldWord,
    ) -> Result<Reply, RunError>
        ensures goes { (s : State) → HoldsState H.KIND store.old self.now s
            → GoesOn H.KIND s (Command.Array is_final supertype word.now) result store.new self.now }
        ensures same { IsSameStore store.old store.new }
    {
        let Some(element) = field_of(store.types(), TypeKind::Array, word) else {
            return Ok(Reply::Refused(Refusal::BadType));
        };
        match store.declare_array(element, index_of(supertype), is_final) {
            Ok(ty) => Ok(Reply::Declared(ty.index().as_u32())),
            Err(TypeFault::BadType) => Ok(Reply::Refused(Refusal::BadType)),
            Err(TypeFault::Memory) => Err(RunError::OutOfMemory),
        }
    }
}
