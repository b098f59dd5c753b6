//! The words that handles name.

ghost use Rattle.std.specs.Prelude.{◌≡◌, ◌<◌, ◌+◌};
ghost use Rattle.gc_values.specs.Words.{owned_word, owned_at, owned_id, slot_word, word_at, FindsOwned, AreOwnedRising};

use crate::root::{RootFault, RootSlot};
use gc_owner::{OwnedEntry, RootEntry};

/// The id that handles of an owned root carry: the low 32 bits of its number.
pub fn owned_id(number: u64) -> u32
    ensures { result ≡ owned_id number }
{
    (number % 0x1_0000_0000) as u32
}

/// Where the owned root of that number stands, among those that stand by rising number.
pub fn find_owned(entries: &[OwnedEntry], number: u64) -> Option<usize>
    requires rising { AreOwnedRising entries.now }
    ensures { FindsOwned entries.now number result }
{
    let mut low = 0;
    let mut high = entries.len();
    'halving: while low < high {
        let middle = low + (high - low) / 2;
        let found = entries[middle].number;
        if found == number {
            return Some(middle);
        }
        if found < number {
            low = middle + 1;
        } else {
            high = middle;
        }
    }
    None
}

/// The word of the owned root of that number, as long as it has handles.
fn owned_word(entries: &[OwnedEntry], number: u64) -> Result<u32, RootFault>
    requires rising { AreOwnedRising entries.now }
    ensures { result ≡ owned_word (owned_at number entries.now) }
{
    match find_owned(entries, number) {
        Some(index) => {
            let entry = entries[index];
            if entry.handles == 0 {
                return Err(RootFault::Unrooted);
            }
            Ok(entry.word)
        }
        None => Err(RootFault::Unrooted),
    }
}

/// The word of the root that the slot and the generation of a handle name, among the scoped roots.
#[inline(always)]
fn slot_word(entries: &[RootEntry], slot: RootSlot, generation: u64) -> Result<u32, RootFault>
    ensures { result ≡ slot_word entries.now slot generation }
{
    let RootSlot::Scoped(index) = slot else {
        return Err(RootFault::Unrooted);
    };
    match entries.get(index as usize) {
        Some(entry) if entry.generation == generation => Ok(entry.word),
        _ => Err(RootFault::Unrooted),
    }
}

/// The word of the root that the slot and the generation of a handle name, among the scoped roots and the owned
/// ones.
#[inline(always)]
pub fn word_at(
    entries: &[RootEntry],
    owned: &[OwnedEntry],
    slot: RootSlot,
    generation: u64,
) -> Result<u32, RootFault>
    requires rising { AreOwnedRising owned.now }
    ensures { result ≡ word_at entries.now owned.now slot generation }
{
    match slot {
        RootSlot::Scoped(_) => slot_word(entries, slot, generation),
        RootSlot::Owned(id) => {
            if owned_id(generation) != id {
                return Err(RootFault::Unrooted);
            }
            owned_word(owned, generation)
        }
    }
}
