//! Objects that are given back.

ghost use Rattle.gc_drc.specs.Giving.{IsUnlisted, GivesBack};

use crate::blocks::block_of;
use crate::space::CountedSpace;
use std::num::NonZeroU32;

impl CountedSpace {
    /// Frees an object that is on no list. What its fields name is not told.
    pub(crate) fn give_back(&mut self, place: u32)
        requires { IsUnlisted self.old place }
        ensures { GivesBack self.old self.new place }
    {
        let block = block_of(self.size(place));
        match NonZeroU32::new(place) {
            Some(index) => self.free.dealloc_fast(index, block as u32),
            None => unreachable!(),
        }
        self.objects -= 1;
        self.allocated -= block as usize;
    }
}
