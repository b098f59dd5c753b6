//! Moving the roots.

ghost use Rattle.std.specs.Prelude.{ℕ, ◌≡◌, ◌+◌, ◌<◌, ◌≤◌, length};
ghost use Rattle.gc_heap.specs.Collection.{present_words};
ghost use Rattle.gc_copying.specs.CopyStart.{From};
ghost use Rattle.gc_copying.specs.CopySteps.{CanForward, Forwards, Midway, Known, SameSides, CanForwardRoots, ForwardsRoots, words_of_roots};

use crate::space::Space;
use gc_refs::VMGcRef;
use gc_roots::GcRootsList;
use gc_steps::Steps;
use std::sync::ledger::Ledger;

impl Space {
    /// Where the object is now that a root names. Counts a step, and one more where it is copied.
    #[inline(always)]
    fn forward_root<G: Ledger>(&mut self, reference: VMGcRef, steps: &mut Steps<G>) -> VMGcRef
        requires { CanForward self.old reference }
        ensures moved { (s : From) (t : ℕ) → Midway s t self.old → Known s reference → Forwards s t self.old self.new reference result }
        ensures not_null { 0 < reference }
        ensures sides { SameSides self.old self.new }
        ensures ticks { steps.new + self.old.objects ≡ steps.old + self.new.objects + 1 }
        ensures rises { steps.old ≤ steps.new }
    {
        steps.tick();
        let moved = self.forward(reference.as_raw_u32(), steps);
        match VMGcRef::from_raw_u32(moved) {
            Some(moved) => moved,
            None => reference,
        }
    }

    /// Moves the words of all roots.
    pub(crate) fn forward_roots<G: Ledger>(&mut self, roots: &mut GcRootsList, steps: &mut Steps<G>)
        requires { CanForwardRoots self.old roots.old.roots }
        ensures moved { (s : From) (t : ℕ) → s.roots ≡ words_of_roots roots.old.roots → Midway s t self.old
            → ForwardsRoots s t self.old self.new roots.old.roots roots.new.roots }
        ensures sides { SameSides self.old self.new }
        ensures ticks { steps.new + self.old.objects ≡ steps.old + self.new.objects + length (present_words roots.old.roots) }
        ensures rises { steps.old ≤ steps.new }
        ensures spare { roots.new.spare ≡ roots.old.spare }
    {
        for index in 0..roots.len() {
            let moved = self.forward_root(roots.word_at(index), steps);
            roots.set_word_at(index, moved);
        }
    }
}
