//! One increment of a collection after the other.

ghost use Rattle.std.specs.Prelude.{ℕ, ◌≡◌, ◌<◌, ◌≤◌, Bool};
ghost use Rattle.gc_heap.specs.Collection.{has_host, IsPartOf};
ghost use Rattle.gc_drc.specs.CollectMemory.{Context};
ghost use Rattle.gc_drc.specs.CollectSpan.{IsContextOf};
ghost use Rattle.gc_drc.specs.CollectPhases.{CountingStandsAt, StepsOn, increments_left};

use crate::space::CountedSpace;
use gc_heap::GcProgress;
use gc_roots::GcRootsList;
use gc_tables::ExternRefHostDataTable;
use gc_types::Types;

/// What the next increment of a collection does.
#[derive(Clone, Copy, Debug)]
pub(crate) enum Phase {
    /// Mark what frame slots hold.
    MarkFrames,
    /// Free what nothing holds any more.
    FreeUnheld,
    /// Free what the roots don't reach.
    FreeUnreached,
    /// Nothing.
    Done,
}

impl CountedSpace {
    /// Does one increment of a collection, and says whether it was the last one.
    pub(crate) fn collect_some<D: Drop>(
        &mut self,
        phase: &mut Phase,
        roots: &GcRootsList,
        hosts: &mut ExternRefHostDataTable<D>,
        types: &Types,
    ) -> GcProgress
        requires { (c : Context) × ((before : ℕ → Bool) × (IsContextOf c roots.now.roots types.now.declarations
            × CountingStandsAt c before phase.old self.old (has_host hosts.old.entries))) }
        ensures steps { (c : Context) (before : ℕ → Bool) → IsContextOf c roots.now.roots types.now.declarations
            → CountingStandsAt c before phase.old self.old (has_host hosts.old.entries)
            → StepsOn c before result phase.old phase.new self.new (has_host hosts.new.entries) }
        ensures less { result ≡ GcProgress.Continue → increments_left phase.new < increments_left phase.old }
        ensures spare { hosts.old.spare ≤ hosts.new.spare }
        ensures values { IsPartOf hosts.new.entries hosts.old.entries }
    {
        match *phase {
            Phase::MarkFrames => {
                self.mark_frames(roots);
                *phase = Phase::FreeUnheld;
                GcProgress::Continue
            }
            Phase::FreeUnheld => {
                self.free_unheld(types, hosts);
                *phase = Phase::FreeUnreached;
                GcProgress::Continue
            }
            Phase::FreeUnreached => {
                self.free_unreached(roots, types, hosts);
                *phase = Phase::Done;
                GcProgress::Complete
            }
            Phase::Done => GcProgress::Complete,
        }
    }
}
