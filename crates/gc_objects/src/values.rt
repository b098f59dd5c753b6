//! The values of an object, one by one.

ghost use Rattle.std.specs.Prelude.{◌≡◌, ◌-◌, List, length};
ghost use Rattle.std.specs.Iterator.{at_most, IsFinite};
ghost use Rattle.gc_model.specs.Table.{Table};
ghost use Rattle.gc_model.specs.Values.{Value};
ghost use Rattle.gc_model.specs.Accounts.{Account};
ghost use Rattle.gc_objects.specs.ValueRuns.{HasLeft, CanGive, GivesNext, run_of};

use crate::access::read;
use crate::val::Val;
use gc_heap::GcHeap;
use gc_store::{GcRootIndex, Store};

/// The values of an object that a store was lent for, in their order. A reference that isn't null, a 31-bit number too,
/// gets a scoped root when it is given: room for these was made before, so nothing fails on the way.
#[derive(Drop)]
pub struct Values<'a, H: GcHeap, D: Drop> {
    store: &'a mut Store<H, D>,
    root: GcRootIndex,
    /// The index of the next value.
    next: u32,
    len: u32,
}

/// The fields of a struct or an exception, one by one.
pub type Fields<'a, H, D> = Values<'a, H, D>;

/// The elements of an array, one by one.
pub type Elems<'a, H, D> = Values<'a, H, D>;

impl<'a, H: GcHeap, D: Drop> Values<'a, H, D> {
    /// All values of the object that a root names, of which there are so many.
    pub(crate) fn new(store: &'a mut Store<H, D>, root: GcRootIndex, len: u32) -> Values<'a, H, D>
        ensures same_reference { result.store.ghost_name ≡ store.entry.ghost_name }
        ensures unchanged { result.store.now ≡ store.old }
        ensures root { result.root ≡ root }
        ensures next { result.next ≡ 0 }
        ensures len { result.len ≡ len }
    {
        Values {
            store,
            root,
            next: 0,
            len,
        }
    }
}

impl<'a, H: GcHeap, D: Drop> Iterator for Values<'a, H, D> {
    type Item = Val;

    ghost can_next = { λ s. CanGive D H.KIND (run_of s.store.now s.root s.next s.len) };

    ghost next_gives = { λ s given t. GivesNext D H.KIND (run_of s.store.now s.root s.next s.len) given (run_of t.store.now t.root t.next t.len)
        × (t.store.ghost_name ≡ s.store.ghost_name) };

    ghost remaining = { λ s. at_most (s.len - s.next) };

    fn next(&mut self) -> Option<Val> {
        if self.next >= self.len {
            return None;
        }
        match read(self.store, self.root, self.next) {
            Ok(value) => {
                self.next += 1;
                Some(value)
            }
            // As many roots as there are references may be made, and there is room for them.
            Err(_) => unreachable!(),
        }
    }

    fn size_hint(&self) -> (usize, Option<usize>) {
        let left = self.len();
        (left, Some(left))
    }
}

impl<'a, H: GcHeap, D: Drop> ExactSizeIterator for Values<'a, H, D> {
    /// How many values are left.
    fn len(&self) -> usize
        ensures finite { IsFinite (at_most (self.now.len - self.now.next)) }
        ensures value { result ≡ self.now.len - self.now.next }
        ensures left { (t : Table D) (a : Account) (left : List Value)
            → HasLeft H.KIND (run_of self.now.store.now self.now.root self.now.next self.now.len) t a left
            → result ≡ length left }
    {
        self.len.saturating_sub(self.next) as usize
    }
}
