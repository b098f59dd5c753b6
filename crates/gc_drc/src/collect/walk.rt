//! The walk over held blocks, which frees what isn't marked.

ghost use Rattle.std.specs.Prelude.{ℕ, ◌≡◌, ◌+◌, ◌%◌, ◌<◌, ◌≤◌, List, ◌∷◌};
ghost use Rattle.std.specs.FinMap as finite;
ghost use Rattle.std.specs.Ordering.{nat_cmp};
ghost use Rattle.gc_memory.specs.Lists.{In};
ghost use Rattle.gc_drc.specs.Layout.{counting_size_at, block_of};
ghost use Rattle.gc_drc.specs.View.{View};
ghost use Rattle.gc_drc.specs.CollectOps.{without_one};
ghost use Rattle.gc_drc.specs.CollectMemory.{Context, At, CanRelease};
ghost use Rattle.gc_drc.specs.CollectWalk.{Garbage, CanFreeGarbage, IsBorder, IsNext, CanWalk, CanSweepGarbage, SweepsGarbage, CanFreeUnmarked, FreedUnmarked};
ghost use Rattle.gc_drc.specs.CollectWalk.{walk_end};
ghost use Rattle.gc_drc.specs.CollectTrace.{fresh_in};

use crate::collect::cascade::is_place;
use crate::collect::visit::Visitor;
use crate::space::CountedSpace;
use gc_tables::ExternRefHostDataTable;
use gc_types::Types;

/// Takes a name off the object that a word names, if it is marked.
#[derive(Drop)]
pub(crate) struct Uncount;

impl Visitor for Uncount {
    ghost use Rattle.gc_drc.specs.CollectWalk.{Uncounts};

    ghost state = { λ c places space visitor words. Uncounts c places space words };

    ghost intact = { λ c places rest space visitor state. (state.at.start, state.at.intact) };

    #[inline(always)]
    fn visit(&mut self, space: &mut CountedSpace, word: u32) {
        if is_place(word) {
            if space.is_marked(word) {
                space.uncount(word);
            }
        }
    }
}

impl CountedSpace {
    /// Frees an object that isn't marked, with its host value, and takes its names off the counts of marked
    /// objects.
    fn free_garbage<D: Drop>(
        &mut self,
        types: &Types,
        place: u32,
        hosts: &mut ExternRefHostDataTable<D>,
    )
        requires { CanFreeGarbage D types.now.declarations self.old hosts.old.entries place }
        ensures freed { (c : Context) (before : finite.FinMap nat_cmp D) (places : List ℕ) → c.types ≡ types.now.declarations → In place places
            → Garbage D c before places self.old hosts.old.entries → Garbage D c before (without_one place places) self.new hosts.new.entries }
        ensures spare { hosts.old.spare ≤ hosts.new.spare }
    {
        self.free_host_of(place, hosts);
        self.free_unlisted(place);
        self.visit_references(types, place, &mut Uncount);
    }

    /// The first held block from a place on, or the end of the managed places where there is none. Blocks
    /// may begin at that place. The free list may take what waits in it, which no clause shows.
    #[inline(always)]
    pub(crate) fn next_place(&mut self, from: u32) -> u32
        requires { CanWalk self.old from }
        ensures next { (c : Context) (v : View) → At c v self.old → IsBorder v from → IsNext v.places (walk_end self.old) from result }
        ensures same { self.new ≡ self.old }
    {
        match self.free.run_at(from) {
            Some(length) => from + length,
            None => from,
        }
    }

    /// Frees an object if it isn't marked.
    fn free_if_unmarked<D: Drop>(
        &mut self,
        types: &Types,
        place: u32,
        hosts: &mut ExternRefHostDataTable<D>,
    )
        requires { CanSweepGarbage D types.now.declarations self.old hosts.old.entries place }
        ensures swept { (c : Context) (before : finite.FinMap nat_cmp D) (places : List ℕ) → c.types ≡ types.now.declarations → In place places
            → Garbage D c before places self.old hosts.old.entries → SweepsGarbage D c before places place self.new hosts.new.entries }
        ensures spare { hosts.old.spare ≤ hosts.new.spare }
    {
        if self.is_marked(place) {
            return;
        }
        self.free_garbage(types, place, hosts);
    }

    /// Where the block of an object ends.
    pub(crate) fn block_end(&self, place: u32) -> u32
        requires { CanRelease self.now place }
        ensures { result ≡ place + block_of (counting_size_at self.now.memory place) }
    {
        place + (self.size(place) + 15) / 16 * 16
    }

    /// Frees each object that isn't marked, from the lowest place on.
    pub(crate) fn free_unmarked<D: Drop>(
        &mut self,
        types: &Types,
        hosts: &mut ExternRefHostDataTable<D>,
    )
        requires { CanFreeUnmarked D types.now.declarations self.old hosts.old.entries }
        ensures freed { (c : Context) (before : finite.FinMap nat_cmp D) (places : List ℕ) → c.types ≡ types.now.declarations
            → Garbage D c before places self.old hosts.old.entries → FreedUnmarked D c before self.new hosts.new.entries }
        ensures spare { hosts.old.spare ≤ hosts.new.spare }
    {
        let end = self.memory.capacity() / 16 * 16;
        if end < 16 {
            return;
        }
        let mut place = self.next_place(16);
        while place < end {
            let behind = self.block_end(place);
            let next = self.next_place(behind);
            self.free_if_unmarked(types, place, hosts);
            place = next;
        }
    }

    /// Frees what isn't marked, where that is so many objects: without any, the walk is spared.
    pub(crate) fn free_rest<D: Drop>(
        &mut self,
        fresh: u64,
        types: &Types,
        hosts: &mut ExternRefHostDataTable<D>,
    )
        requires can { CanFreeUnmarked D types.now.declarations self.old hosts.old.entries }
        requires fresh { fresh ≡ fresh_in self.old }
        ensures freed { (c : Context) (before : finite.FinMap nat_cmp D) (places : List ℕ) → c.types ≡ types.now.declarations
            → Garbage D c before places self.old hosts.old.entries → FreedUnmarked D c before self.new hosts.new.entries }
        ensures spare { hosts.old.spare ≤ hosts.new.spare }
    {
        if fresh == 0 {
            return;
        }
        self.free_unmarked(types, hosts);
    }
}
