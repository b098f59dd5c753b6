//! The mark of an object, which only a collection sets.

ghost use Rattle.std.specs.Prelude.{ℕ, ◌≡◌, ◌<◌, List};
ghost use Rattle.gc_memory.specs.Lists.{In, occ};
ghost use Rattle.gc_drc.specs.View.{View, Linked};
ghost use Rattle.gc_drc.specs.CollectOps.{marked_also, unmarked};
ghost use Rattle.gc_drc.specs.CollectMemory.{Context, At, CanMark, CanUnmark};

use crate::space::{CountedSpace, MARKED};

impl CountedSpace {
    /// Marks an object that isn't marked.
    #[inline(always)]
    pub(crate) fn mark(&mut self, place: u32)
        requires { CanMark self.old place }
        ensures marked { (c : Context) (v : View) → At c v self.old → In place v.places → occ place v.marked ≡ 0 → At c (marked_also v place) self.new }
        ensures links { (c : Context) (v : View) (head : ℕ) (list : List ℕ) → At c v self.old → In place v.places
            → ((p : ℕ) → In p list → In p v.places) → Linked self.old.memory 24 head list → Linked self.new.memory 24 head list }
    {
        let kind_word = self.kind_word(place);
        self.set_kind_word(place, kind_word + MARKED);
    }

    /// Clears the mark of an object that is marked.
    #[inline(always)]
    pub(crate) fn clear_mark(&mut self, place: u32)
        requires { CanUnmark self.old place }
        ensures { (c : Context) (v : View) → At c v self.old → 0 < occ place v.marked → At c (unmarked v place) self.new }
    {
        let kind_word = self.kind_word(place);
        self.set_kind_word(place, kind_word - MARKED);
    }
}
