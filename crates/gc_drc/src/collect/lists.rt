//! An object leaves the list of shown words, or the queue.

ghost use Rattle.std.specs.Prelude.{ℕ, ◌≡◌, ◌<◌, List, ◌∷◌};
ghost use Rattle.gc_memory.specs.Lists.{In, occ};
ghost use Rattle.gc_drc.specs.View.{View};
ghost use Rattle.gc_drc.specs.CollectOps.{count_of, unqueued, unshown};
ghost use Rattle.gc_drc.specs.CollectLists.{onto, front};
ghost use Rattle.gc_drc.specs.CollectMemory.{Context, At, CanLeave, CanHide, CanRelink, Relinks};

use crate::space::{CountedSpace, QUEUED, SHOWN};

impl CountedSpace {
    /// Takes the first object off the queue. It has another name, or is shown.
    pub(crate) fn leave_queue(&mut self, place: u32)
        requires { CanLeave self.old place }
        ensures { (c : Context) (v : View) (rest : List ℕ) → At c v self.old → v.queue ≡ place ∷ rest → 1 < count_of v place
            → At c (unqueued v place) self.new }
    {
        let count = self.count(place);
        self.set_count(place, count - 1);
        let kind_word = self.kind_word(place);
        self.set_kind_word(place, kind_word - QUEUED);
        self.queued = self.link(place);
    }

    /// Makes an object the one behind another on the list of shown words, or the first where the other is
    /// null.
    fn relink(&mut self, before: u32, next: u32)
        requires { CanRelink self.old before }
        ensures { Relinks self.old self.new before next }
    {
        if before == 0 {
            self.shown = next;
        } else {
            self.set_next_shown(before, next);
        }
    }

    /// Takes an object off the list of shown words that stands behind another there, or first where the
    /// other is null. Its count word stays.
    pub(crate) fn hide(&mut self, before: u32, place: u32)
        requires { CanHide self.old before place }
        ensures { (c : Context) (v : View) (kept left : List ℕ) → At c v self.old → v.shown ≡ onto kept (place ∷ left) → front kept ≡ before
            → At c (unshown v place) self.new }
    {
        let next = self.next_shown(place);
        self.relink(before, next);
        let kind_word = self.kind_word(place);
        self.set_kind_word(place, kind_word - SHOWN);
    }
}
