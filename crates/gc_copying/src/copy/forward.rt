//! Copying one object, and moving one reference.

ghost use Rattle.std.specs.Prelude.{ℕ, ◌≡◌, ◌+◌, ◌<◌, ◌≤◌};
ghost use Rattle.gc_memory.specs.Words.{word};
ghost use Rattle.gc_copying.specs.Layout.{copying_size_at};
ghost use Rattle.gc_copying.specs.CopyStart.{From};
ghost use Rattle.gc_copying.specs.CopySteps.{CanCopyTo, CopiesObject, CanForward, Forwards, Midway, Known, SameSides};

use crate::space::{COPIED, Space};
use gc_memory::offsets::{COPYING_FORWARDING, COPYING_SIZE};
use gc_steps::Steps;
use std::sync::ledger::Ledger;

impl Space {
    /// Copies the object at a place, which had not been copied, behind the last object, and says where it
    /// is now. Its time is linear in the bytes of the object.
    #[inline(always)]
    fn copy(&mut self, place: u32, kind_word: u32) -> u32
        requires copy { CanCopyTo self.old.memory place self.old.bump }
        requires kind { kind_word ≡ word self.old.memory place }
        requires count { self.old.objects < u32.MAX }
        ensures to { result ≡ self.old.bump }
        ensures bytes { CopiesObject self.old.memory self.new.memory place self.old.bump (copying_size_at self.old.memory place) }
        ensures bump { self.new.bump ≡ self.old.bump + copying_size_at self.old.memory place }
        ensures count { self.new.objects ≡ self.old.objects + 1 }
        ensures sides { SameSides self.old self.new }
    {
        let from = place as usize;
        let to = self.bump;
        let size = self.memory.read_u32(from + COPYING_SIZE as usize);
        self.memory.copy_blocks(from, to as usize, size as usize);
        self.memory.write_u32(from, kind_word + COPIED);
        self.memory
            .write_u32(from + COPYING_FORWARDING as usize, to);
        self.bump = to + size;
        self.objects += 1;
        to
    }

    /// Where the object is now whose place a word is. It is copied where it had not been, which counts a
    /// step. Null and 31-bit numbers stay.
    #[inline(always)]
    pub(crate) fn forward<G: Ledger>(&mut self, reference: u32, steps: &mut Steps<G>) -> u32
        requires { CanForward self.old reference }
        ensures moved { (s : From) (t : ℕ) → Midway s t self.old → Known s reference → Forwards s t self.old self.new reference result }
        ensures sides { SameSides self.old self.new }
        ensures ticks { steps.new + self.old.objects ≡ steps.old + self.new.objects }
        ensures rises { steps.old ≤ steps.new }
    {
        if reference == 0 || reference % 2 == 1 {
            return reference;
        }
        let place = reference as usize;
        let kind_word = self.memory.read_u32(place);
        if kind_word / COPIED % 2 == 1 {
            return self.memory.read_u32(place + COPYING_FORWARDING as usize);
        }
        steps.tick();
        self.copy(reference, kind_word)
    }
}
