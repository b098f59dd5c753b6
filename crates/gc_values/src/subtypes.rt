//! Which types are subtypes of which, and of which pairs a store was asked.

ghost use Rattle.std.specs.Prelude.{◌≡◌, false};
ghost use Rattle.gc_values.specs.Subtypes.{keeps, kept_count, Remembers, TellsKept};
ghost use Rattle.gc_values.specs.declared.subtypes.TypePair.{TypePair};

use gc_types::{Types, VMSharedTypeIndex};
use std::alloc::Global;
use std::collections::HashSet;

/// How many pairs are kept at most.
pub const MOST_PAIRS: usize = 65_536;

/// A question: whether the first type is the second, or one of its subtypes.
#[derive(Clone, Copy, Debug, PartialEq, Eq, Hash)]
pub struct TypePair {
    pub sub: VMSharedTypeIndex,
    pub sup: VMSharedTypeIndex,
}

/// The pairs of declared types that were asked of, as far as they are kept: none is ever dropped. The answers are those
/// of the type table, which for a declared type never change.
#[derive(Drop)]
pub struct AskedPairs {
    pairs: HashSet<TypePair>,
}

impl AskedPairs {
    /// No pair.
    pub fn new(alloc: Global) -> AskedPairs
        ensures none { (pair : TypePair) → keeps result pair ≡ false }
        ensures count { kept_count result ≡ 0 }
    {
        AskedPairs {
            pairs: HashSet::new(alloc),
        }
    }

    /// Whether the pair is kept.
    pub fn has(&self, pair: TypePair) -> bool
        ensures { result ≡ keeps self.now pair }
    {
        self.pairs.contains(&pair)
    }

    /// Keeps the pair where both types are declared and fewer than 65,536 are kept. A pair for which no memory is found
    /// isn't kept.
    pub fn add(&mut self, types: &Types, pair: TypePair)
        ensures { Remembers types.now.declarations pair self.old self.new }
    {
        if types.kind_of(pair.sub).is_none() || types.kind_of(pair.sup).is_none() {
            return;
        }
        if self.pairs.len() < MOST_PAIRS {
            match self.pairs.insert(pair) {
                Ok(_) => (),
                Err(_) => (),
            }
        }
    }

    /// Whether the first type of a kept pair is the second or one of its subtypes; None exactly where the pair isn't kept.
    pub fn answer(&self, types: &Types, pair: TypePair) -> Option<bool>
        ensures { TellsKept types.now.declarations (keeps self.now pair) pair result }
    {
        let TypePair { sub, sup } = pair;
        if self.has(TypePair { sub, sup }) {
            Some(types.is_subtype(sub, sup))
        } else {
            None
        }
    }
}
