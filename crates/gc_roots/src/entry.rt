//! One root of a list: what stays of it, and its word.

ghost use Rattle.std.specs.Prelude.{◌≡◌};

use crate::root_place::RootPlace;
use gc_refs::VMGcRef;

/// What a list keeps of a root beside its word, and never changes.
#[derive(Clone, Copy, Debug)]
pub(crate) struct Origin {
    pub(crate) place: RootPlace,
    pub(crate) is_on_wasm_stack: bool,
}

/// A root of a list, lent to read and to replace its word.
#[derive(Debug, Drop)]
pub struct GcRoot<'a> {
    origin: Origin,
    word: &'a mut VMGcRef,
}

impl<'a> GcRoot<'a> {
    ghost use Rattle.gc_roots.specs.Columns.{root_of};
    ghost use Rattle.gc_roots.specs.Roots.{with_word};
    ghost use Rattle.gc_roots.specs.Lends.{lent_root, IsSameLoan};

    pub(crate) fn new(origin: Origin, word: &'a mut VMGcRef) -> GcRoot<'a>
        ensures lent_root { lent_root result ≡ root_of origin word.old }
        ensures lent { result.word.ghost_name ≡ word.entry.ghost_name }
    {
        GcRoot { origin, word }
    }

    /// The number that the root was added with.
    pub fn place(&self) -> RootPlace
        ensures { result.number ≡ (lent_root self.now).place }
    {
        self.origin.place
    }

    /// Whether the root is a slot of a frame on a wasm stack.
    pub fn is_on_wasm_stack(&self) -> bool
        ensures { result ≡ (lent_root self.now).on_stack }
    {
        self.origin.is_on_wasm_stack
    }

    /// The word.
    pub fn get(&self) -> VMGcRef
        ensures { result ≡ (lent_root self.now).word }
    {
        self.word.unchecked_copy()
    }

    /// Replaces the word, in the list too.
    pub fn set(&mut self, new_ref: VMGcRef)
        ensures word { lent_root self.new ≡ with_word (lent_root self.old) new_ref }
        ensures same_loan { IsSameLoan self.old self.new }
    {
        *self.word = new_ref;
    }
}
