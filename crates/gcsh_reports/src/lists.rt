//! The report of a map that was filled.

ghost use Rattle.std.specs.Prelude.{◌≡◌, ◌≤◌, ◌++◌, [], ◌∷◌, ℕ, ℤ, IfOk, OnErr, codes, string_bytes, sum_by, unsigned_abs};
ghost use Rattle.gc_store.specs.Stores.{HoldsStart, IsSameStore};
ghost use Rattle.gcsh_reports.specs.Filling.{HoldsWithin, max_inserts};
ghost use Rattle.gcsh_reports.specs.FillReports.{TellsFill, fill_text};

use crate::fill::{Filled, fill};
use gc_heap::GcHeap;
use gc_lists::{Kit, ListFault};
use gc_store::laws::stores_hold_tables;
use gc_store::{ResourceLimiter, Store};
use std::alloc::{AllocError, Global};

/// Makes so many inserts into a map in a new store, collects, and says how many entries the map has, how many inserts were
/// refused for want of roots or of room, how many objects the heap holds, and what the sum of the values is. An error is want
/// of memory. Its time is that of the inserts, each of which takes a time that is logarithmic in the map.
pub fn fill_report<H: GcHeap, L: ResourceLimiter>(
    alloc: Global,
    store: &mut Store<H, u64>,
    limiter: &mut L,
    inserts: u32,
) -> Result<String, AllocError>
    requires start { HoldsStart ℕ H.KIND store.old }
    requires few { inserts ≤ max_inserts }
    ensures tells { IfOk result (λ text. TellsFill H.KIND (L.limits limiter.old) inserts store.old (string_bytes text) store.new) }
    ensures wants { OnErr result (HoldsWithin H.KIND (L.limits limiter.old).limit store.new) }
    ensures same { IsSameStore store.old store.new }
{
    let Ok(kit) = Kit::new(store) else {
        return Err(AllocError);
    };
    let filled = fill(store, limiter, &kit, inserts)?;
    match filled.map.copy_out(alloc, store) {
        Ok(entries) => {
            store.gc();
            counts_text(
                alloc,
                entries.len(),
                filled.refused,
                store.held_objects(),
                sum_of(&entries),
            )
        }
        Err(ListFault::RootsFull) => full_text(alloc),
        Err(_) => Err(AllocError),
    }
}

/// The sum of the values.
fn sum_of(entries: &[(i64, i64)]) -> u128
    ensures { result ≡ sum_by (λ (entry : ℤ × ℤ). unsigned_abs entry.1) entries.now }
{
    let mut sum = 0;
    for entry in entries {
        sum += u128::from(entry.1.unsigned_abs());
    }
    sum
}

/// The report of these numbers.
fn counts_text(
    alloc: Global,
    entries: usize,
    refused: u32,
    held: u64,
    sum: u128,
) -> Result<String, AllocError>
    ensures { IfOk result (λ text. string_bytes text ≡ fill_text entries refused held sum) }
{
    let mut text = String::new(alloc);
    write!(text, "entries {entries}\nrefused {refused}\n")?;
    write!(text, "held {held}\nsum {sum}\n")?;
    Ok(text)
}

/// The name of the refusal of roots, as a line.
fn full_text(alloc: Global) -> Result<String, AllocError>
    ensures { IfOk result (λ text. string_bytes text ≡ codes "RootsFull" ++ 10 ∷ []) }
{
    let mut text = String::new(alloc);
    text.push_str("RootsFull\n")?;
    Ok(text)
}
