//! The supertypes of the declared types, and a quick test whether one is an ancestor of another.

ghost use Rattle.std.specs.Prelude.{◌≡◌, ◌<◌, ◌≤◌, ◌+◌, ◌-◌, ◌↔◌, ℕ, ◌++◌, ◌∷◌, [], Option, length, slice_get, take, IsTrue, OnOk, OnErr};
ghost use Rattle.gc_types.specs.Subtyping.{Meets};
ghost use Rattle.gc_types.specs.Ancestors.{ArePlaced, entry_supers, depth_at};

use crate::index::VMSharedTypeIndex;
use std::alloc::{AllocError, Global};
use std::marker::Model;

/// A declared type's place among its ancestors.
#[derive(Clone, Copy, Debug)]
struct Entry {
    supertype: Option<VMSharedTypeIndex>,
    /// How many supertypes are above.
    depth: u32,
    /// One of the ancestors, farther up where it can be; the type itself where it has no supertype.
    jump: VMSharedTypeIndex,
}

/// The supertypes of the declared types, with for each its depth and one farther ancestor.
///
/// The farther ancestors are those of a skew-binary list, so that a test climbs a chain of supertypes
/// in a number of steps that is logarithmic in the chain's length. That number is not proved.
#[derive(Debug, Drop)]
pub(crate) struct Ancestry {
    entries: Vec<Entry>,
}

impl Model for Ancestry {
    ghost use Rattle.std.specs.Prelude.{List, Option, ℕ};

    ghost Value = { List (Option ℕ) };

    ghost use Rattle.gc_types.specs.Ancestors.{ArePlaced, entry_supers};

    ghost view = { λ a. entry_supers a.entries.items };

    ghost invariant = { λ a. ArePlaced a.entries.items };
}

/// The entry of that type.
fn entry_at(entries: &[Entry], ty: VMSharedTypeIndex) -> Entry
    requires { ty < length entries.now }
    ensures { slice_get entries.now ty ≡ Some result }
{
    entries[ty.as_u32() as usize]
}

/// The place of a new type with that supertype.
fn below(entries: &[Entry], supertype: VMSharedTypeIndex) -> Entry
    requires placed { ArePlaced entries.now }
    requires declared { supertype < length entries.now }
    requires room { length entries.now < u32.MAX }
    ensures supertype { result.supertype ≡ Some supertype }
    ensures depth { result.depth ≡ depth_at entries.now supertype + 1 }
    ensures jump { Meets (entry_supers entries.now) supertype result.jump }
{
    let parent = entry_at(entries, supertype);
    let far = entry_at(entries, parent.jump);
    let farther = entry_at(entries, far.jump);
    let jump = if parent.depth - far.depth == far.depth - farther.depth {
        far.jump
    } else {
        supertype
    };
    Entry {
        supertype: Some(supertype),
        depth: parent.depth + 1,
        jump,
    }
}

/// Whether following supertypes from the first type meets the second.
fn meets(entries: &[Entry], sub: VMSharedTypeIndex, sup: VMSharedTypeIndex) -> bool
    requires placed { ArePlaced entries.now }
    requires sub { sub < length entries.now }
    requires sup { sup < length entries.now }
    ensures { IsTrue result ↔ Meets (entry_supers entries.now) sub sup }
{
    let depth = entry_at(entries, sup).depth;
    let mut ancestor = sub;
    let mut entry = entry_at(entries, ancestor);
    while entry.depth > depth {
        ancestor = if entry_at(entries, entry.jump).depth >= depth {
            entry.jump
        } else {
            match entry.supertype {
                Some(supertype) => supertype,
                None => return false,
            }
        };
        entry = entry_at(entries, ancestor);
    }
    ancestor == sup
}

impl Ancestry {
    /// No types.
    pub(crate) fn new(alloc: Global) -> Ancestry
        ensures { result ≡ [] }
    {
        Ancestry {
            entries: Vec::new(alloc),
        }
    }

    /// How many types there are.
    pub(crate) fn len(&self) -> usize
        ensures { result ≡ length self.now }
    {
        self.entries.len()
    }

    /// One more type, the newest.
    pub(crate) fn push(&mut self, supertype: Option<VMSharedTypeIndex>) -> Result<(), AllocError>
        requires declared { (p : ℕ) → supertype ≡ Some p → p < length self.old }
        requires room { length self.old < u32.MAX }
        ensures pushed { OnOk result (self.new ≡ self.old ++ supertype ∷ []) }
        ensures err { OnErr result (self.new ≡ self.old) }
    {
        let entry = match supertype {
            Some(supertype) => below(&self.entries, supertype),
            None => Entry {
                supertype: None,
                depth: 0,
                jump: VMSharedTypeIndex::new(self.entries.len() as u32),
            },
        };
        self.entries.push(entry)?;
        Ok(())
    }

    /// Drops the newest type, where there is one.
    pub(crate) fn pop(&mut self)
        ensures { self.new ≡ take (length self.old - 1) self.old }
    {
        self.entries.pop();
    }

    /// Whether the first type is the second or one of its subtypes. False where one isn't declared.
    pub(crate) fn is_subtype(&self, sub: VMSharedTypeIndex, sup: VMSharedTypeIndex) -> bool
        ensures { IsTrue result ↔ Meets self.now sub sup }
    {
        let len = self.entries.len();
        if sub.as_u32() as usize >= len || sup.as_u32() as usize >= len {
            return false;
        }
        meets(&self.entries, sub, sup)
    }
}
