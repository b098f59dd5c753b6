//! Ids of stores.

ghost use Rattle.std.specs.Prelude.{◌≡◌, ◌+◌, ◌<◌, ◌^◌, ◌-◌, IfSome, IfNone, IsNone, ◌↔◌};
ghost use Rattle.std.specs.Option.{IfSome, IfNone};

/// The id of a store: its engine's number and its number in that engine. Ids are apart as long as
/// engines have numbers of their own.
#[derive(Clone, Copy, Debug, PartialEq, Eq, Hash)]
pub struct StoreId {
    pub engine: u64,
    pub number: u64,
}

/// What gives out the ids of stores.
#[derive(Debug, Drop)]
pub struct Engine {
    number: u64,
    given: u64,
}

impl Model for Engine {
    ghost use Rattle.gc_values.specs.Ids.{GivenIds};

    ghost Value = { GivenIds };

    ghost view = { λ e. record { engine = e.number; given = e.given } };
}

use std::marker::Model;

impl Engine {
    /// An engine of that number, which the caller keeps apart from those of other engines.
    pub fn new(number: u64) -> Engine
        ensures { result ≡ record { engine = number; given = 0 } }
    {
        Engine { number, given: 0 }
    }

    /// An id that this engine did not give before; None exactly after 2^64 - 1 ids.
    pub fn next_store_id(&mut self) -> Option<StoreId>
        ensures fresh { IfSome result (λ id. (id ≡ record { engine = self.old.engine; number = self.old.given })
            × (self.new ≡ record self.old { given = self.old.given + 1 })) }
        ensures none { IsNone result ↔ (self.old.given ≡ 2 ^ 64 - 1) }
        ensures stays { IfNone result (self.new ≡ self.old) }
    {
        if self.given == u64::MAX {
            return None;
        }
        let number = self.given;
        self.given += 1;
        Some(StoreId {
            engine: self.number,
            number,
        })
    }
}
