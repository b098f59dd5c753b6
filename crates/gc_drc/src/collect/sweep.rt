//! The objects that frame slots hold are marked, and the list of shown words is swept.

ghost use Rattle.std.specs.Prelude.{ℕ, ◌≡◌, ◌+◌, ◌<◌, List, ◌∷◌, [], length, drop};
ghost use Rattle.gc_heap.specs.Collection.{stack_words};
ghost use Rattle.gc_drc.specs.CollectLists.{front};
ghost use Rattle.gc_drc.specs.CollectMemory.{Context};
ghost use Rattle.gc_drc.specs.CollectSweep.{FrameMarks, CanMarkFrame, Sweep, CanSweepShown, SweptOne, sweep_left};

use crate::collect::cascade::is_place;
use crate::space::CountedSpace;
use gc_roots::GcRootsList;

impl CountedSpace {
    /// Marks the object that the word of a frame slot names, if it isn't marked.
    fn mark_frame(&mut self, word: u32)
        requires { CanMarkFrame self.old word }
        ensures { (c : Context) (left : List ℕ) → FrameMarks c self.old (word ∷ left) → FrameMarks c self.new left }
    {
        if is_place(word) {
            if self.is_marked(word) {
                return;
            }
            self.mark(word);
        }
    }

    /// Marks the object that a root names, if the root is a frame slot.
    fn mark_root(&mut self, roots: &GcRootsList, index: usize)
        requires index { index < length roots.now.roots }
        requires marks { (c : Context) × FrameMarks c self.old (stack_words (drop index roots.now.roots)) }
        ensures { (c : Context) → FrameMarks c self.old (stack_words (drop index roots.now.roots))
            → FrameMarks c self.new (stack_words (drop (index + 1) roots.now.roots)) }
    {
        if roots.is_on_wasm_stack_at(index) {
            let word = roots.word_at(index).as_raw_u32();
            self.mark_frame(word);
        }
    }

    /// Marks the objects that frame slots hold.
    pub(crate) fn mark_frames(&mut self, roots: &GcRootsList)
        requires { (c : Context) × FrameMarks c self.old (stack_words roots.now.roots) }
        ensures { (c : Context) → FrameMarks c self.old (stack_words roots.now.roots) → FrameMarks c self.new [] }
    {
        for index in 0..roots.len() {
            self.mark_root(roots, index);
        }
    }

    /// Clears the mark of an object on the list of shown words; one that isn't marked is taken off the list
    /// and lowered. Says which object is the last that was kept.
    fn sweep_one(&mut self, before: u32, place: u32) -> u32
        requires { CanSweepShown self.old before place }
        ensures swept { (c : Context) (kept left : List ℕ) → Sweep c self.old kept (place ∷ left) → front kept ≡ before → SweptOne c self.new left result }
        ensures less { sweep_left self.new < sweep_left self.old }
    {
        if self.is_marked(place) {
            self.clear_mark(place);
            return place;
        }
        self.hide(before, place);
        self.take_name(place);
        before
    }

    /// Takes the objects that aren't marked off the list of shown words and lowers them. Clears all marks.
    pub(crate) fn sweep_shown(&mut self)
        requires { (c : Context) × FrameMarks c self.old [] }
        ensures { (c : Context) → FrameMarks c self.old [] → (kept : List ℕ) × Sweep c self.new kept [] }
    {
        let mut before = 0;
        let mut place = self.shown;
        while place != 0 {
            let next = self.next_shown(place);
            before = self.sweep_one(before, place);
            place = next;
        }
    }
}
