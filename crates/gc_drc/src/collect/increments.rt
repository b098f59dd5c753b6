//! The increments of a collection.

ghost use Rattle.std.specs.Prelude.{ℕ, ◌≡◌, ◌≤◌, List, []};
ghost use Rattle.gc_drc.specs.CollectMemory.{Context};
ghost use Rattle.gc_drc.specs.CollectSweep.{FrameMarks};
ghost use Rattle.gc_drc.specs.CollectSwept.{FreesUnheld};
ghost use Rattle.gc_drc.specs.CollectSpan.{IsContextOf};
ghost use Rattle.gc_drc.specs.CollectUnreached.{Swept, FreesUnreached};

use crate::collect::trace::MarkReached;
use crate::space::CountedSpace;
use gc_roots::GcRootsList;
use gc_tables::ExternRefHostDataTable;
use gc_types::Types;

impl CountedSpace {
    /// The second increment, where the objects that frame slots hold are marked: frees exactly the objects
    /// that no root names and that only such objects name, with their host values.
    pub(crate) fn free_unheld<D: Drop>(
        &mut self,
        types: &Types,
        hosts: &mut ExternRefHostDataTable<D>,
    )
        requires { (c : Context) × ((c.types ≡ types.now.declarations) × FrameMarks c self.old []) }
        ensures frees { (c : Context) → c.types ≡ types.now.declarations → FrameMarks c self.old []
            → FreesUnheld D c self.new hosts.old.entries hosts.new.entries }
        ensures spare { hosts.old.spare ≤ hosts.new.spare }
    {
        self.sweep_shown();
        self.drain(types, hosts);
    }

    /// The third increment, where what nothing held any more was freed: frees exactly the objects that the
    /// roots don't reach, with their host values, and leaves no object marked.
    pub(crate) fn free_unreached<D: Drop>(
        &mut self,
        roots: &GcRootsList,
        types: &Types,
        hosts: &mut ExternRefHostDataTable<D>,
    )
        requires { (c : Context) × ((places : List ℕ) × (IsContextOf c roots.now.roots types.now.declarations × Swept c places self.old)) }
        ensures frees { (c : Context) (places : List ℕ) → IsContextOf c roots.now.roots types.now.declarations → Swept c places self.old
            → FreesUnreached D c places self.new hosts.old.entries hosts.new.entries }
        ensures spare { hosts.old.spare ≤ hosts.new.spare }
    {
        let mut reached = MarkReached {
            head: 0,
            fresh: self.objects,
        };
        self.mark_roots(roots, &mut reached);
        self.scan_all(types, &mut reached);
        self.free_rest(reached.fresh, types, hosts);
        self.clear_marks();
    }
}
