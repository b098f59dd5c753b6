//! Who decides whether a heap may grow.

ghost use Rattle.std.specs.Prelude.{◌≡◌, ◌↔◌, ◌≤◌, IsTrue, Some};
ghost use Rattle.gc_owner.specs.Limiters.{fresh_limits};

use std::marker::Model;

/// What a store asks before a heap gets more pages.
pub trait ResourceLimiter {
    ghost use Rattle.std.specs.Prelude.{◌≡◌, ◌↔◌, ◌≤◌, IsTrue, IfSome};
    ghost use Rattle.std.specs.Bool.{OnTrue, OnFalse};
    ghost use Rattle.gc_owner.specs.Limiters.{Limits};
    ghost use Rattle.gc_owner.specs.Limiters.{Refuses};

    /// The greatest number of pages that it grants, where it tells it, and what it refused.
    ghost limits: { Self → Limits };

    /// Whether a heap may go from so many pages to so many. A refusal is counted.
    fn growing(&mut self, from: u32, to: u32) -> bool
        ensures granted { OnTrue result (limits self.new ≡ limits self.old) }
        ensures refused { OnFalse result (Refuses (limits self.old) (limits self.new) from to) }
        ensures by_limit { IfSome (limits self.old).limit (λ most. IsTrue result ↔ (to ≤ most)) };
}

/// A limiter that grants up to so many pages.
#[derive(Debug, Drop)]
pub struct PageLimit {
    most: u32,
    refusals: u64,
    last_refused: Option<(u32, u32)>,
}

impl Model for PageLimit {
    ghost use Rattle.std.specs.Prelude.{Some, ◌<◌, ◌^◌};
    ghost use Rattle.gc_owner.specs.Limiters.{Limits};

    ghost Value = { Limits };

    ghost view = { λ l. record { limit = Some l.most; refusals = l.refusals; last_refused = l.last_refused } };

    ghost invariant = { λ l. l.refusals < 2 ^ 64 };
}

impl PageLimit {
    /// A limiter that answers true exactly where at most `most` pages are asked for.
    pub fn new(most: u32) -> PageLimit
        ensures { result ≡ fresh_limits (Some most) }
    {
        PageLimit {
            most,
            refusals: 0,
            last_refused: None,
        }
    }

    /// How many asks were refused, counted up to the greatest u64.
    pub fn refusals(&self) -> u64
        ensures { result ≡ self.now.refusals }
    {
        self.refusals
    }

    /// The last ask that was refused, as pages before and after.
    pub fn last_refused(&self) -> Option<(u32, u32)>
        ensures { result ≡ self.now.last_refused }
    {
        self.last_refused
    }
}

impl ResourceLimiter for PageLimit {
    ghost limits = { λ l. l };

    fn growing(&mut self, from: u32, to: u32) -> bool {
        if to <= self.most {
            return true;
        }
        self.refusals = self.refusals.saturating_add(1);
        self.last_refused = Some((from, to));
        false
    }
}
