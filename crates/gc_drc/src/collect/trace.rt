//! What the roots reach is marked. The marked objects that are still to be scanned are linked through the
//! link word, which nothing else needs then.

ghost use Rattle.std.specs.Prelude.{ℕ, ◌≡◌, ◌+◌, ◌<◌, List, ◌∷◌, [], length, drop};
ghost use Rattle.gc_drc.specs.CollectMemory.{Context};
ghost use Rattle.gc_drc.specs.CollectTrace.{Traces, TracesRoots, CanScanNext, words_in_roots, trace_left};

use crate::collect::cascade::is_place;
use crate::collect::visit::Visitor;
use crate::space::CountedSpace;
use gc_roots::GcRootsList;
use gc_types::Types;

/// Marks the objects that words name. Those that were not marked are still to be scanned.
#[derive(Drop)]
pub(crate) struct MarkReached {
    /// The first object that is still to be scanned; 0 is none.
    pub(crate) head: u32,
    /// How many objects aren't marked.
    pub(crate) fresh: u64,
}

impl Visitor for MarkReached {
    ghost use Rattle.gc_drc.specs.CollectTrace.{Traces};

    ghost state = { λ c unscanned space visitor words. Traces c unscanned space visitor.head visitor.fresh words };

    ghost intact = { λ c unscanned rest space visitor state. (state.at.start, state.at.intact) };

    #[inline(always)]
    fn visit(&mut self, space: &mut CountedSpace, word: u32) {
        if is_place(word) {
            if space.is_marked(word) {
                return;
            }
            space.mark(word);
            space.set_link(word, self.head);
            self.head = word;
            self.fresh -= 1;
        }
    }
}

impl CountedSpace {
    /// Marks the objects that the words of all roots name.
    pub(crate) fn mark_roots(&mut self, roots: &GcRootsList, reached: &mut MarkReached)
        requires { (c : Context) × ((unscanned : List ℕ) × Traces c unscanned self.old reached.old.head reached.old.fresh (words_in_roots roots.now.roots)) }
        ensures { TracesRoots self.old reached.old.head reached.old.fresh roots.now.roots self.new reached.new.head reached.new.fresh [] }
    {
        for index in 0..roots.len() {
            let word = roots.word_at(index).as_raw_u32();
            reached.visit(self, word);
        }
    }

    /// Scans the first object that is still to be scanned.
    fn scan_next(&mut self, types: &Types, reached: &mut MarkReached)
        requires can { CanScanNext types.now.declarations self.old reached.old.head reached.old.fresh }
        requires some { 0 < reached.old.head }
        ensures scanned { (c : Context) (unscanned : List ℕ) → c.types ≡ types.now.declarations
            → Traces c unscanned self.old reached.old.head reached.old.fresh []
            → (left : List ℕ) × (Traces c left self.new reached.new.head reached.new.fresh [] × (length left < length unscanned)) }
        ensures less { trace_left self.new reached.new.head < trace_left self.old reached.old.head }
    {
        let place = reached.head;
        reached.head = self.link(place);
        self.visit_references(types, place, reached);
    }

    /// Scans marked objects until none is left to be scanned.
    pub(crate) fn scan_all(&mut self, types: &Types, reached: &mut MarkReached)
        requires { CanScanNext types.now.declarations self.old reached.old.head reached.old.fresh }
        ensures scanned { (c : Context) (unscanned : List ℕ) → c.types ≡ types.now.declarations
            → Traces c unscanned self.old reached.old.head reached.old.fresh []
            → (left : List ℕ) × Traces c left self.new reached.new.head reached.new.fresh [] }
        ensures none { reached.new.head ≡ 0 }
    {
        while reached.head != 0 {
            self.scan_next(types, reached);
        }
    }
}
