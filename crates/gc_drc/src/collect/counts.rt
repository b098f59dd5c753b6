//! The count of an object, lowered.

ghost use Rattle.std.specs.Prelude.{ℕ, ◌≡◌, ◌<◌, List};
ghost use Rattle.gc_memory.specs.Words.{word};
ghost use Rattle.gc_memory.specs.Lists.{In, occ};
ghost use Rattle.gc_drc.specs.View.{View};
ghost use Rattle.gc_drc.specs.CollectOps.{count_of, uncounted_or_queued, uncounted};
ghost use Rattle.gc_drc.specs.CollectMemory.{Context, At, CanLowerAt, CanUncountAt};

use crate::space::{CountedSpace, QUEUED};

impl CountedSpace {
    /// Takes a name off an object whose count word stays above 0.
    pub(crate) fn uncount(&mut self, place: u32)
        requires { CanUncountAt self.old place }
        ensures counted { (c : Context) (v : View) → At c v self.old → In place v.places → 0 < v.counted place → 1 < count_of v place
            → At c (uncounted v place) self.new }
        ensures kinds { (c : Context) (v : View) → At c v self.old → In place v.places → (p : ℕ) → In p c.graph.places
            → word self.new.memory p ≡ word self.old.memory p }
    {
        let count = self.count(place);
        self.set_count(place, count - 1);
    }

    /// Takes a name off an object. Where the count word would come to 0, it stays, and the object is
    /// queued.
    pub(crate) fn take_name(&mut self, place: u32)
        requires { CanLowerAt self.old place }
        ensures { (c : Context) (v : View) → At c v self.old → In place v.places → 0 < v.counted place → At c (uncounted_or_queued v place) self.new }
    {
        let count = self.count(place);
        if count == 1 {
            let kind_word = self.kind_word(place);
            self.set_kind_word(place, kind_word + QUEUED);
            self.set_link(place, self.queued);
            self.queued = place;
        } else {
            self.set_count(place, count - 1);
        }
    }
}
