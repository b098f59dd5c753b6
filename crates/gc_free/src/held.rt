//! The blocks that are held. Only clauses read them.
ghost use Rattle.std.specs.Prelude.{◌≡◌, List, []};
ghost use Rattle.std.specs.Borrow.{ftrue};
ghost use Rattle.gc_free.specs.declared.run.Run.{Run as Block};
ghost use Rattle.gc_free.specs.Coding.{runs_code};

use crate::run::Run;
use std::marker::Model;

/// Every block that is held, by rising place.
#[derive(Drop)]
pub(crate) struct HeldBlocks {
    ghost blocks: { List Block } by { runs_code },
}

impl Model for HeldBlocks {
    ghost also_owns = { λ _. ftrue };
}

/// What happens to a block.
#[derive(Drop)]
pub(crate) enum Change {
    Taken(Run),
    Given(Run),
    /// Two that touch are one, the lower first.
    Joined(Run, Run),
}

impl HeldBlocks {
    ghost use Rattle.gc_free.specs.Held.{held_after};

    pub(crate) fn none() -> HeldBlocks
        ensures { result.blocks ≡ [] }
    {
        HeldBlocks {}
    }

    #[inline(always)]
    pub(crate) fn after(&self, _change: &Change) -> HeldBlocks
        ensures { result.blocks ≡ held_after _change.now self.now.blocks }
    {
        HeldBlocks {}
    }
}
