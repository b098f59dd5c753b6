//! Freeing the host values of external objects that were not copied.

ghost use Rattle.std.specs.Prelude.{ℕ, ◌≡◌, ◌+◌, ◌<◌, ◌≤◌, length};
ghost use Rattle.gc_heap.specs.FreedHosts.{FreesHost};
ghost use Rattle.gc_copying.specs.CopyWords.{flag, copying_host_word};
ghost use Rattle.gc_copying.specs.CopySweep.{CanSweepExternal, ListsCopy, SameCounts, CanSweep, Sweeps};
ghost use Rattle.gc_copying.specs.CopyStart.{From};
ghost use Rattle.gc_copying.specs.CopySteps.{Midway};

use crate::space::{COPIED, Space};
use gc_heap::hosts::free_host;
use gc_memory::offsets::{COPYING_FORWARDING, COPYING_HOST, COPYING_NEXT_EXTERNAL};
use gc_tables::ExternRefHostDataTable;

impl Space {
    /// Puts the copy of an external object in front of the list, or frees its host value where it was not
    /// copied.
    fn sweep_one<D: Drop>(&mut self, place: u32, hosts: &mut ExternRefHostDataTable<D>)
        requires { CanSweepExternal self.old.memory place }
        ensures listed { flag self.old.memory place ≡ 1 → ListsCopy self.old self.new place × (hosts.new.entries ≡ hosts.old.entries) }
        ensures freed { flag self.old.memory place ≡ 0 → FreesHost D hosts.old.entries hosts.new.entries (copying_host_word self.old.memory place)
            × ((self.new.memory ≡ self.old.memory) × (self.new.externals ≡ self.old.externals)) }
        ensures counts { SameCounts self.old self.new }
        ensures spare { hosts.old.spare ≤ hosts.new.spare }
    {
        let at = place as usize;
        if self.memory.read_u32(at) / COPIED % 2 == 1 {
            let copy = self.memory.read_u32(at + COPYING_FORWARDING as usize);
            self.memory.write_u32(
                copy as usize + COPYING_NEXT_EXTERNAL as usize,
                self.externals,
            );
            self.externals = copy;
        } else {
            free_host(hosts, self.memory.read_u32(at + COPYING_HOST as usize));
        }
    }

    /// Sweeps the list of external objects that begins at a place: those that were copied are listed anew,
    /// and the host values of the others are freed.
    pub(crate) fn sweep<D: Drop>(&mut self, first: u32, hosts: &mut ExternRefHostDataTable<D>)
        requires { CanSweep self.old first }
        ensures swept { (s : From) → Midway s self.old.bump self.old → first ≡ s.externals → Sweeps s D self.old self.new hosts.old.entries hosts.new.entries }
        ensures counts { SameCounts self.old self.new }
        ensures spare { hosts.old.spare ≤ hosts.new.spare }
    {
        let mut place = first;
        while place != 0 {
            let next = self
                .memory
                .read_u32(place as usize + COPYING_NEXT_EXTERNAL as usize);
            self.sweep_one(place, hosts);
            place = next;
        }
    }
}
