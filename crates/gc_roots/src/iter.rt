//! The roots of a list, one by one.

ghost use Rattle.std.specs.Prelude.{◌≡◌, length};
ghost use Rattle.std.specs.Slice.Iter.{iter_mut_name};
ghost use Rattle.gc_roots.specs.Columns.{paired_roots};
ghost use Rattle.gc_roots.specs.Lends.{lent_root, rest_of};

use crate::entry::{GcRoot, Origin};
use gc_refs::VMGcRef;
use std::slice;

/// The roots that are left, in the order of the list.
#[derive(Drop)]
pub struct GcRootsIter<'a> {
    origins: slice::Iter<'a, Origin>,
    words: slice::IterMut<'a, VMGcRef>,
}

impl<'a> GcRootsIter<'a> {
    pub(crate) fn new(origins: &'a [Origin], words: &'a mut [VMGcRef]) -> GcRootsIter<'a>
        ensures rest { rest_of result ≡ paired_roots origins.now words.old }
        ensures lent { iter_mut_name result.words ≡ words.entry.ghost_name }
    {
        GcRootsIter {
            origins: origins.iter(),
            words: words.iter_mut(),
        }
    }
}

impl<'a> Iterator for GcRootsIter<'a> {
    type Item = GcRoot<'a>;

    ghost use Rattle.std.specs.Iterator.{YieldsFirstBy, item_count};

    ghost next_gives = { YieldsFirstBy lent_root rest_of };

    ghost remaining = { item_count rest_of };

    fn next(&mut self) -> Option<GcRoot<'a>> {
        match self.origins.next() {
            Some(origin) => match self.words.next() {
                Some(word) => Some(GcRoot::new(*origin, word)),
                None => None,
            },
            None => None,
        }
    }
}
