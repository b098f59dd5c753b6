//! The increments of a collection.

ghost use Rattle.std.specs.Prelude.{ℕ, ◌≡◌, ◌+◌, ◌<◌, ◌≤◌, not, List, length};
ghost use Rattle.gc_heap.specs.Collection.{IsPartOf};
ghost use Rattle.gc_copying.specs.Spaces.{half_first};
ghost use Rattle.gc_copying.specs.CopyStart.{From};
ghost use Rattle.gc_copying.specs.CopySteps.{words_of_roots, CanWork};
ghost use Rattle.gc_copying.specs.CopyEnd.{CanBeginCopy, IsBegun, AtWork};
ghost use Rattle.gc_copying.specs.CopyPhases.{CopyProgress, UnderWay, one_more, CopyingStepped, Scanned, copying_left, side_after};
ghost use Rattle.gc_roots.specs.Roots.{Root};

use crate::space::Space;
use gc_heap::GcProgress;
use gc_roots::GcRootsList;
use gc_steps::Steps;
use gc_tables::ExternRefHostDataTable;
use gc_types::Types;
use std::sync::ledger::Ledger;

/// What a collection does next.
#[derive(Clone, Copy, Debug)]
pub(crate) enum Phase {
    /// Move the roots.
    Roots,
    /// Scan the copies from `scan` on. The old external objects are listed from `externals` on.
    Worklist { scan: u32, externals: u32 },
    /// Sweep the old external objects.
    Sweep { externals: u32 },
    /// Nothing.
    Done,
}

impl Space {
    /// The other half becomes the active one, with no objects.
    fn flip(&mut self)
        ensures memory { self.new.memory ≡ self.old.memory }
        ensures upper { self.new.upper ≡ not self.old.upper }
        ensures bump { self.new.bump ≡ half_first (length self.old.memory) (not self.old.upper) }
        ensures externals { self.new.externals ≡ 0 }
        ensures objects { self.new.objects ≡ 0 }
    {
        self.upper = !self.upper;
        self.bump = self.first();
        self.externals = 0;
        self.objects = 0;
    }

    /// The first increment: the halves change sides, and the roots are moved. Says where the first copy is.
    fn begin_copying<G: Ledger>(&mut self, roots: &mut GcRootsList, steps: &mut Steps<G>) -> u32
        requires { CanBeginCopy self.old roots.old.roots }
        ensures begun { (s : From) (counted : ℕ) → IsBegun s self.old → s.roots ≡ words_of_roots roots.old.roots → steps.new ≡ steps.old + counted
            → AtWork s roots.old.roots roots.new.roots self.new result 0 counted }
        ensures side { self.new.upper ≡ not self.old.upper }
        ensures rises { steps.old ≤ steps.new }
        ensures spare { roots.new.spare ≡ roots.old.spare }
    {
        self.flip();
        let first = self.bump;
        self.forward_roots(roots, steps);
        first
    }

    /// Scans the copies from a place on, as many as one increment may, and says what comes next.
    fn scan_phase<G: Ledger>(
        &mut self,
        scan: u32,
        externals: u32,
        types: &Types,
        steps: &mut Steps<G>,
    ) -> Phase
        requires { CanWork types.now.declarations self.old scan }
        ensures scanned { (s : From) (rs roots : List Root) (k counted more : ℕ) → s.types ≡ types.now.declarations → AtWork s rs roots self.old scan k counted
            → steps.new ≡ steps.old + more
            → Scanned s rs roots self.new k (counted + more) externals result }
        ensures less { copying_left result < copying_left (Phase.Worklist scan externals) }
        ensures side { self.new.upper ≡ self.old.upper }
        ensures rises { steps.old ≤ steps.new }
    {
        match self.scan_some(scan, types, steps) {
            Some(scan) => Phase::Worklist { scan, externals },
            None => Phase::Sweep { externals },
        }
    }

    /// Does one increment of a collection, and says whether it was the last one.
    pub(crate) fn collect_some<D: Drop, G: Ledger>(
        &mut self,
        phase: &mut Phase,
        roots: &mut GcRootsList,
        hosts: &mut ExternRefHostDataTable<D>,
        types: &Types,
        steps: &mut Steps<G>,
    ) -> GcProgress
        requires { (c : CopyProgress D) × UnderWay D c self.old phase.old roots.old.roots types.now.declarations hosts.old.entries }
        ensures stepped { (c : CopyProgress D) (counted : ℕ) → UnderWay D c self.old phase.old roots.old.roots types.now.declarations hosts.old.entries
            → steps.new ≡ steps.old + counted
            → CopyingStepped D (one_more c counted) result self.new phase.new roots.new.roots types.now.declarations hosts.new.entries }
        ensures less { result ≡ GcProgress.Continue → copying_left phase.new < copying_left phase.old }
        ensures side { self.new.upper ≡ side_after phase.old self.old.upper }
        ensures rises { steps.old ≤ steps.new }
        ensures spare { roots.new.spare ≡ roots.old.spare }
        ensures host_spare { hosts.old.spare ≤ hosts.new.spare }
        ensures values { IsPartOf hosts.new.entries hosts.old.entries }
    {
        match *phase {
            Phase::Roots => {
                let externals = self.externals;
                let scan = self.begin_copying(roots, steps);
                *phase = Phase::Worklist { scan, externals };
                GcProgress::Continue
            }
            Phase::Worklist { scan, externals } => {
                *phase = self.scan_phase(scan, externals, types, steps);
                GcProgress::Continue
            }
            Phase::Sweep { externals } => {
                self.sweep(externals, hosts);
                *phase = Phase::Done;
                GcProgress::Complete
            }
            Phase::Done => GcProgress::Complete,
        }
    }
}
