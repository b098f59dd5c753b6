//! One name more of an object, one less, and a word that is shown to a frame slot.

ghost use Rattle.std.specs.Prelude.{◌≡◌, ◌+◌, ◌%◌, ◌<◌, ◌≤◌, length};
ghost use Rattle.gc_memory.specs.Words.{word};
ghost use Rattle.gc_memory.specs.Lists.{In};
ghost use Rattle.gc_drc.specs.Layout.{count_at};
ghost use Rattle.gc_drc.specs.View.{View, HoldsBlocks};
ghost use Rattle.gc_drc.specs.Operations.{CanRaise, CanLower, Tends, SetsWords, counting_raised, counting_lowered, counting_exposed};

use crate::space::{CountedSpace, QUEUED, SHOWN};

impl CountedSpace {
    /// Counts one name more of an object.
    pub(crate) fn raise(&mut self, place: u32)
        requires { CanRaise self.old place }
        ensures holds { (v : View) → HoldsBlocks v self.old → In place v.places → HoldsBlocks (counting_raised v place) self.new }
        ensures tends { Tends self.old.memory self.new.memory place }
        ensures free { self.new.free ≡ self.old.free }
    {
        let count = self.count(place);
        self.set_count(place, count + 1);
    }

    /// Takes a name of an object off. Where its count word would come to 0 it is queued instead, and
    /// keeps its memory until the next collection.
    pub(crate) fn lower(&mut self, place: u32)
        requires { CanLower self.old place }
        ensures holds { (v : View) → HoldsBlocks v self.old → In place v.places → 0 < v.counted place → HoldsBlocks (counting_lowered v place) self.new }
        ensures tends { Tends self.old.memory self.new.memory place }
        ensures free { self.new.free ≡ self.old.free }
    {
        let count = self.count(place);
        if count == 1 {
            self.enqueue(place);
        } else {
            self.set_count(place, count - 1);
        }
    }

    /// Puts an object on the list of shown words in the place of one of its names. Where it is on the
    /// list, the name is taken off.
    pub(crate) fn expose(&mut self, place: u32)
        requires { CanLower self.old place }
        ensures holds { (v : View) → HoldsBlocks v self.old → In place v.places → 0 < v.counted place → HoldsBlocks (counting_exposed v place) self.new }
        ensures tends { Tends self.old.memory self.new.memory place }
        ensures free { self.new.free ≡ self.old.free }
    {
        if self.is_shown(place) {
            let count = self.count(place);
            self.set_count(place, count - 1);
        } else {
            self.push_shown(place);
        }
    }

    /// Puts an object at the head of the queue.
    fn enqueue(&mut self, place: u32)
        requires room { place + 28 ≤ length self.old.memory }
        requires apart { word self.old.memory place % 8 < 4 }
        ensures sets { SetsWords self.old.memory self.new.memory place (word self.old.memory place + 4) (count_at self.old.memory place)
            (word self.old.memory (place + 16)) self.old.queued }
        ensures rest { self.new ≡ record self.old { memory = self.new.memory; queued = place } }
    {
        self.set_link(place, self.queued);
        let kind = self.kind_word(place);
        self.set_kind_word(place, kind + QUEUED);
        self.queued = place;
    }

    /// Puts an object at the head of the list of shown words.
    fn push_shown(&mut self, place: u32)
        requires room { place + 28 ≤ length self.old.memory }
        requires apart { word self.old.memory place % 4 < 2 }
        ensures sets { SetsWords self.old.memory self.new.memory place (word self.old.memory place + 2) (count_at self.old.memory place) self.old.shown
            (word self.old.memory (place + 24)) }
        ensures rest { self.new ≡ record self.old { memory = self.new.memory; shown = place } }
    {
        self.set_next_shown(place, self.shown);
        let kind = self.kind_word(place);
        self.set_kind_word(place, kind + SHOWN);
        self.shown = place;
    }
}
