//! The words of an object's references, visited one by one.

ghost use Rattle.std.specs.Prelude.{ℕ, ◌≡◌, ◌+◌, ◌≤◌, List, ◌∷◌, [], length, Option, None, if◌then◌else◌};
ghost use Rattle.gc_types.specs.declared.layout.TraceInfo.{TraceInfo};
ghost use Rattle.std.specs.Option.{option_copied};
ghost use Rattle.gc_refs.specs.Header.{IsOfKind};
ghost use Rattle.gc_drc.specs.Layout.{counting_kind_at};
ghost use Rattle.gc_memory.specs.Words.{word};
ghost use Rattle.gc_memory.specs.Lists.{In};
ghost use Rattle.gc_heap.specs.References.{word_offsets};
ghost use Rattle.gc_drc.specs.CollectMemory.{Context, IsContext, Intact, info_of, info_at};
ghost use Rattle.gc_drc.specs.CollectVisits.{CanVisit, CanVisitAt, CanVisitArray, CanVisitObject, Visits, VisitsArray, VisitsObject};

use crate::space::CountedSpace;
use gc_types::{Layouts, TraceInfo, Types, VMGcKind, VMSharedTypeIndex};

/// Where the elements of an array of references begin.
const FIRST_ELEMENT: u32 = 32;

/// Where an array keeps its length.
const ARRAY_LENGTH: u32 = 28;

/// What a collection does at a word of a root or an object.
pub(crate) trait Visitor {
    ghost use Rattle.std.specs.Prelude.{ℕ, ◌≡◌, List, ◌∷◌};
    ghost use Rattle.gc_drc.specs.declared.space.CountedSpace.{CountedSpace};
    ghost use Rattle.gc_drc.specs.CollectMemory.{Context, IsContext, Intact};

    /// What stands where these places are held and these words are still to be visited, in a collection
    /// that began there.
    ghost state: { Context → List ℕ → CountedSpace → Self → List ℕ → Type 0 };

    /// Visits the next word.
    fn visit(&mut self, space: &mut CountedSpace, word: u32)
        requires { (c : Context) × ((places : List ℕ) × ((rest : List ℕ) × state c places space.old self.old (word ∷ rest))) }
        ensures { (c : Context) (places rest : List ℕ) → state c places space.old self.old (word ∷ rest) → state c places space.new self.new rest };

    /// A visit leaves the data of all objects as it was.
    ghost intact: { (c : Context) (places rest : List ℕ) (space : CountedSpace) (visitor : Self) → state c places space visitor rest
        → IsContext c × Intact c space.memory };
}

impl CountedSpace {
    /// Visits the word at an offset of an object.
    #[inline(always)]
    fn visit_at<V: Visitor>(&mut self, place: u32, offset: u32, visitor: &mut V)
        requires { CanVisitAt (λ c places words. V.state c places self.old visitor.old words) place offset }
        ensures { (rest : List ℕ) → Visits (λ c places words. V.state c places self.old visitor.old words)
            (λ c places words. V.state c places self.new visitor.new words) place (offset ∷ rest) rest }
    {
        let word = self.memory.read_u32((place + offset) as usize);
        visitor.visit(self, word);
    }

    /// Visits the words at these offsets of an object.
    #[inline(always)]
    fn visit_offsets<V: Visitor>(&mut self, place: u32, offsets: &[u32], visitor: &mut V)
        requires { CanVisit (λ c places words. V.state c places self.old visitor.old words) place offsets.now }
        ensures { Visits (λ c places words. V.state c places self.old visitor.old words)
            (λ c places words. V.state c places self.new visitor.new words) place offsets.now [] }
    {
        for offset in offsets {
            self.visit_at(place, *offset, visitor);
        }
    }

    /// Visits the elements of an array of so many references.
    fn visit_elements<V: Visitor>(&mut self, place: u32, count: u32, visitor: &mut V)
        requires { CanVisit (λ c places words. V.state c places self.old visitor.old words) place (word_offsets 32 count) }
        ensures { Visits (λ c places words. V.state c places self.old visitor.old words) (λ c places words. V.state c places self.new visitor.new words) place
            (word_offsets 32 count) [] }
    {
        for index in 0..count {
            self.visit_at(place, FIRST_ELEMENT + 4 * index, visitor);
        }
    }

    /// The kind of an object.
    #[inline(always)]
    pub(crate) fn kind(&self, place: u32) -> VMGcKind
        requires room { place + 28 ≤ length self.now.memory }
        requires kind { IsOfKind (counting_kind_at self.now.memory place) (word self.now.memory place) }
        ensures { result ≡ counting_kind_at self.now.memory place }
    {
        match self.memory.read_header(place as usize).kind() {
            Some(kind) => kind,
            None => unreachable!(),
        }
    }

    /// The trace info of an object; None where it has no references by its kind.
    #[inline(always)]
    fn trace_info_of<'t>(&self, types: &'t Types, place: u32) -> Option<&'t TraceInfo>
        requires room { place + 28 ≤ length self.now.memory }
        requires kind { IsOfKind (counting_kind_at self.now.memory place) (word self.now.memory place) }
        ensures { option_copied result ≡ info_at types.now.declarations self.now.memory place }
    {
        if has_references(self.kind(place)) {
            let header = self.memory.read_header(place as usize);
            types.trace_info(Layouts::Counting, header.type_index())
        } else {
            None
        }
    }

    /// Visits the elements of an array, where they are references.
    fn visit_array<V: Visitor>(&mut self, place: u32, elements: bool, visitor: &mut V)
        requires { CanVisitArray (λ c places words. V.state c places self.old visitor.old words) place elements }
        ensures { VisitsArray (λ c places words. V.state c places self.old visitor.old words)
            (λ c places words. V.state c places self.new visitor.new words) place elements }
    {
        if elements {
            let count = self.memory.read_u32((place + ARRAY_LENGTH) as usize);
            self.visit_elements(place, count, visitor);
        }
    }

    /// Visits the words of all references of an object, which may be one that was just freed.
    pub(crate) fn visit_references<V: Visitor>(
        &mut self,
        types: &Types,
        place: u32,
        visitor: &mut V,
    )
        requires { CanVisitObject (λ c places words. V.state c places self.old visitor.old words) types.now.declarations place }
        ensures { VisitsObject (λ c places words. V.state c places self.old visitor.old words)
            (λ c places words. V.state c places self.new visitor.new words) types.now.declarations place }
    {
        match self.trace_info_of(types, place) {
            Some(TraceInfo::Struct { gc_ref_offsets }) => {
                self.visit_offsets(place, gc_ref_offsets.as_slice(), visitor)
            }
            Some(TraceInfo::Array { gc_ref_elems }) => {
                self.visit_array(place, *gc_ref_elems, visitor)
            }
            None => (),
        }
    }
}

/// Whether objects of that kind can have references.
fn has_references(kind: VMGcKind) -> bool
    ensures { (info : Option TraceInfo) → info_of kind info ≡ if result then info else None }
{
    match kind {
        VMGcKind::StructRef | VMGcKind::ArrayRef | VMGcKind::ExnRef => true,
        VMGcKind::ExternRef | VMGcKind::AnyRef | VMGcKind::EqRef => false,
    }
}
