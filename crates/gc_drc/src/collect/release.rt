//! An object is freed: its block goes back to the free list.

ghost use Rattle.std.specs.Prelude.{ℕ, ◌≡◌, ◌<◌, List, ◌∷◌};
ghost use Rattle.gc_memory.specs.Lists.{In, occ};
ghost use Rattle.gc_drc.specs.View.{View};
ghost use Rattle.gc_drc.specs.CollectOps.{count_of, unqueued, freed};
ghost use Rattle.gc_drc.specs.CollectMemory.{Context, At, CanRelease, CanFreeQueued, ReleasesBlock};

use crate::space::CountedSpace;
use std::num::NonZeroU32;

impl CountedSpace {
    /// Gives the block of an object back. Its bytes stay as they are.
    fn release(&mut self, place: u32)
        requires { CanRelease self.old place }
        ensures { ReleasesBlock self.old self.new place }
    {
        let size = self.size(place);
        let block = (size + 15) / 16 * 16;
        match NonZeroU32::new(place) {
            Some(index) => self.free.dealloc_fast(index, block),
            None => unreachable!(),
        }
        self.objects -= 1;
        self.allocated -= block as usize;
    }

    /// Frees the first object of the queue, which nothing names and which isn't shown.
    pub(crate) fn free_queued(&mut self, place: u32)
        requires { CanFreeQueued self.old place }
        ensures { (c : Context) (v : View) (rest : List ℕ) → At c v self.old → v.queue ≡ place ∷ rest → count_of v place ≡ 1 → occ place v.marked ≡ 0
            → At c (freed (unqueued v place) place) self.new }
    {
        self.release(place);
        self.queued = self.link(place);
    }

    /// Frees an object that is on no list.
    pub(crate) fn free_unlisted(&mut self, place: u32)
        requires { CanRelease self.old place }
        ensures memory { self.new.memory ≡ self.old.memory }
        ensures freed { (c : Context) (v : View) → At c v self.old → In place v.places → occ place v.shown ≡ 0 → occ place v.queue ≡ 0 → occ place v.marked ≡ 0
            → At c (freed v place) self.new }
    {
        self.release(place);
    }
}
