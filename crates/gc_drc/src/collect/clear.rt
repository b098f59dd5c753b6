//! The second walk over held blocks, which clears the marks.

ghost use Rattle.std.specs.Prelude.{ℕ, List};
ghost use Rattle.gc_drc.specs.CollectMemory.{Context};
ghost use Rattle.gc_drc.specs.CollectClear.{AllMarked, Unmarked};

use crate::space::CountedSpace;

impl CountedSpace {
    /// Clears the marks of all objects, each of which is marked, from the lowest place on. The walk that
    /// frees reads the marks of places that it has passed, so it can't clear them itself.
    pub(crate) fn clear_marks(&mut self)
        requires { (c : Context) × ((places : List ℕ) × AllMarked c places self.old) }
        ensures { (c : Context) (places : List ℕ) → AllMarked c places self.old → Unmarked c places self.new }
    {
        let end = self.memory.capacity() / 16 * 16;
        if end < 16 {
            return;
        }
        let mut place = self.next_place(16);
        while place < end {
            let behind = self.block_end(place);
            let next = self.next_place(behind);
            self.clear_mark(place);
            place = next;
        }
    }
}
