//! Which types are subtypes of which, as a store keeps what it was asked.

ghost use Rattle.std.specs.Prelude.{◌≡◌, ◌↔◌, IsTrue};
ghost use Rattle.gc_types.specs.Subtyping.{supertypes_of, Meets};
ghost use Rattle.gc_values.specs.Subtypes.{keeps_pair, KeepsPairs, TellsKept};
ghost use Rattle.gc_values.specs.declared.subtypes.TypePair.{TypePair};

use crate::store::Store;
use gc_heap::GcHeap;
use gc_types::VMSharedTypeIndex;
use gc_values::subtypes::TypePair;

impl<H: GcHeap, D: Drop> Store<H, D> {
    /// Whether the first type is the second, or one of its subtypes, as `Types::is_subtype` tells; the pair is kept as asked
    /// of, where both are declared, fewer than 65,536 are kept and memory is found for it.
    pub fn is_subtype_cached(&mut self, sub: VMSharedTypeIndex, sup: VMSharedTypeIndex) -> bool
        ensures value { IsTrue result ↔ Meets (supertypes_of self.old.types) sub sup }
        ensures kept { KeepsPairs self.old.types (record { sub = sub; sup = sup }) self.old.kept_pairs self.new.kept_pairs }
        ensures rest { self.new ≡ record self.old { kept_pairs = self.new.kept_pairs } }
    {
        let types = self.owner.types();
        self.asked.add(types, TypePair { sub, sup });
        types.is_subtype(sub, sup)
    }

    /// What `is_subtype_cached` answers of a pair that is kept; None exactly of any other. It takes no memory.
    pub fn cached_subtype(&self, sub: VMSharedTypeIndex, sup: VMSharedTypeIndex) -> Option<bool>
        ensures { let pair : TypePair = record { sub = sub; sup = sup } in TellsKept self.now.types (keeps_pair self.now.kept_pairs pair) pair result }
    {
        self.asked.answer(self.owner.types(), TypePair { sub, sup })
    }
}
