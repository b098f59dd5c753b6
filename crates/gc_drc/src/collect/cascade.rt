//! Freeing what is queued, and what that frees in turn.

ghost use Rattle.std.specs.Prelude.{ℕ, ◌≡◌, ◌<◌, ◌≤◌, ◌↔◌, ◌≢◌, List, IsTrue};
ghost use Rattle.std.specs.FinMap as finite;
ghost use Rattle.std.specs.Ordering.{nat_cmp};
ghost use Rattle.gc_drc.specs.CollectMemory.{Context};
ghost use Rattle.gc_drc.specs.CollectDrain.{IsCountingPlace, Lowering, CanDrain, Drain, drain_left};

use crate::collect::visit::Visitor;
use crate::space::CountedSpace;
use gc_tables::ExternRefHostDataTable;
use gc_types::Types;

/// Whether a word is the place of an object: it is not null, and no 31-bit number.
pub(crate) fn is_place(word: u32) -> bool
    ensures { IsTrue result ↔ IsCountingPlace word }
{
    word != 0 && word % 2 == 0
}

/// Takes a name off the object that a word names.
#[derive(Drop)]
pub(crate) struct Lower;

impl Visitor for Lower {
    ghost use Rattle.gc_drc.specs.CollectDrain.{Lowering};

    ghost state = { λ c places space visitor words. Lowering c places space words };

    ghost intact = { λ c places rest space visitor state. (state.at.start, state.at.intact) };

    fn visit(&mut self, space: &mut CountedSpace, word: u32) {
        if is_place(word) {
            space.take_name(word);
        }
    }
}

impl CountedSpace {
    /// Frees the first object of the queue, with its host value, and lowers what it names; or takes it off
    /// the queue where it has a name or is shown.
    fn free_next<D: Drop>(&mut self, types: &Types, hosts: &mut ExternRefHostDataTable<D>)
        requires can { CanDrain D types.now.declarations self.old hosts.old.entries }
        requires queued { 0 < self.old.queued }
        ensures drained { (c : Context) (before : finite.FinMap nat_cmp D) → c.types ≡ types.now.declarations → Drain D c before self.old hosts.old.entries
            → Drain D c before self.new hosts.new.entries }
        ensures less { drain_left self.new < drain_left self.old }
        ensures spare { hosts.old.spare ≤ hosts.new.spare }
    {
        let place = self.queued;
        if self.count(place) == 1 {
            self.free_host_of(place, hosts);
            self.free_queued(place);
            self.visit_references(types, place, &mut Lower);
        } else {
            self.leave_queue(place);
        }
    }

    /// Frees what is queued and what that frees in turn, until nothing is queued.
    pub(crate) fn drain<D: Drop>(&mut self, types: &Types, hosts: &mut ExternRefHostDataTable<D>)
        requires { CanDrain D types.now.declarations self.old hosts.old.entries }
        ensures drained { (c : Context) (before : finite.FinMap nat_cmp D) → c.types ≡ types.now.declarations → Drain D c before self.old hosts.old.entries
            → Drain D c before self.new hosts.new.entries }
        ensures empty { self.new.queued ≡ 0 }
        ensures spare { hosts.old.spare ≤ hosts.new.spare }
    {
        while self.queued != 0 {
            self.free_next(types, hosts);
        }
    }
}
