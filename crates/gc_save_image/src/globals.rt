//! The globals and their lines.

ghost use Rattle.std.specs.Prelude.{◌≡◌, ℕ, List, [], Some, length};
ghost use Rattle.gc_model.specs.Globals.{global_at};
ghost use Rattle.gc_model.specs.Table.{Slot, Table};
ghost use Rattle.gc_model.specs.Accounts.{Account, HoldsAccount};
ghost use Rattle.gc_values.specs.declared.root.RawValue.TheVariants as raw;
ghost use Rattle.gc_store.specs.Slots.{slot_value};
ghost use Rattle.gc_store.specs.Stores.{IsSameStore};
ghost use Rattle.gc_store.specs.Values.{NamesLive};
ghost use Rattle.gc_paths.specs.Progress.{Basis};
ghost use Rattle.gc_save_image.specs.Parts.{found_handles};
ghost use Rattle.gc_save_image.specs.Progress.{AnswersImagePart, ImageGoesOn, ImageProgress};
ghost use Rattle.gc_save_image.specs.Steps.{LeadsOn};
ghost use Rattle.gc_save_image.specs.GlobalSteps.{AddsLine, AllRead, AnswersGlobals, CanSay, GlobalsRead, GlobalsSaid};
ghost use Rattle.gc_save_image.specs.GlobalSteps.{IsRead, IsUnset, ReadsGlobal, slot_refused};

use crate::collect_fault::CollectFault;
use crate::found::Found;
use crate::taking::take_reference;
use gc_heap::GcHeap;
use gc_image::GlobalLine;
use gc_owner::GcClass;
use gc_store::{GLOBAL_COUNT, GcRootIndex, SlotFault, Store};
use std::alloc::Global;

/// A global that was read: its class, and the handle of what it names.
#[derive(Clone, Copy, Debug)]
pub(crate) struct GlobalRead {
    pub(crate) class: GcClass,
    pub(crate) handle: Option<GcRootIndex>,
}

/// A store's refusal as one of these calls.
fn slot_refused(fault: SlotFault) -> CollectFault
    ensures { result ≡ slot_refused fault }
{
    match fault {
        SlotFault::NoSlot => CollectFault::Memory,
        SlotFault::WrongStore => CollectFault::Memory,
        SlotFault::Unrooted => CollectFault::Memory,
        SlotFault::RootsFull => CollectFault::RootsFull,
        SlotFault::Memory => CollectFault::Memory,
    }
}

/// Reads one global.
fn read_global<H: GcHeap>(
    store: &mut Store<H, u64>,
    global: u32,
) -> Result<GlobalRead, CollectFault>
    ensures reads { (t : Table ℕ) (a : Account) (slot : Slot) → HoldsAccount H.KIND store.old t a → global_at t global ≡ Some slot
        → ReadsGlobal H.KIND t a slot result store.new }
    ensures same { IsSameStore store.old store.new }
{
    match store.global_get(global) {
        Ok((class, handle)) => Ok(GlobalRead { class, handle }),
        Err(fault) => Err(slot_refused(fault)),
    }
}

/// Reads all globals. No word is looked at before the last of them is read.
pub(crate) fn read_globals<H: GcHeap>(
    alloc: Global,
    store: &mut Store<H, u64>,
) -> Result<Vec<GlobalRead>, CollectFault>
    ensures reads { (t : Table ℕ) (a : Account) → HoldsAccount H.KIND store.old t a
        → AnswersGlobals H.KIND t a (λ reads. GlobalsRead H.KIND t a (length t.globals) store.new reads.items) result store.new }
    ensures same { IsSameStore store.old store.new }
{
    let mut reads = Vec::new(alloc);
    for global in 0..GLOBAL_COUNT {
        let read = read_global(store, global)?;
        if reads.extend_from_slice(&[read]).is_err() {
            return Err(CollectFault::Memory);
        }
    }
    Ok(reads)
}

/// Whether a global is null of class `Any`.
fn is_unset(read: &GlobalRead) -> bool
    ensures { IsUnset read.now result }
{
    match read.handle {
        Some(_) => false,
        None => read.class == GcClass::Any,
    }
}

/// Adds the line of a global, by its index, where it isn't null of class `Any`.
fn add_line<H: GcHeap>(
    store: &Store<H, u64>,
    found: &mut Found,
    lines: &mut Vec<GlobalLine>,
    index: u16,
    read: GlobalRead,
) -> Result<(), CollectFault>
    requires { NamesLive ℕ H.KIND store.now (raw.Ref read.class read.handle) }
    ensures { (b : Basis ℕ) (told : List ℕ) (count : ℕ) (slot : Slot) (progress : ImageProgress H.KIND b told count store.now (found_handles found.old))
        → IsRead store.now progress.holds.now slot read → LeadsOn b (slot_value slot)
        → AnswersImagePart H.KIND b (λ done. ImageGoesOn H.KIND b told count store.now (found_handles found.new)
        (λ then. AddsLine then lines.old.items lines.new.items index slot))
        ⊥ result store.now }
{
    if is_unset(&read) {
        return Ok(());
    }
    let value = take_reference(store, found, read.class, read.handle)?;
    match lines.extend_from_slice(&[GlobalLine { index, value }]) {
        Ok(()) => Ok(()),
        Err(_) => Err(CollectFault::Memory),
    }
}

/// The lines of all globals, of which these were read.
pub(crate) fn global_lines<H: GcHeap>(
    alloc: Global,
    store: &Store<H, u64>,
    found: &mut Found,
    reads: &[GlobalRead],
) -> Result<Vec<GlobalLine>, CollectFault>
    requires { CanSay H.KIND store.now (found_handles found.old) reads.now }
    ensures { (b : Basis ℕ) (count : ℕ) (progress : ImageProgress H.KIND b [] count store.now (found_handles found.old))
        → AllRead store.now progress.holds.now b.table.globals reads.now
        → AnswersImagePart H.KIND b (λ lines. ImageGoesOn H.KIND b [] count store.now (found_handles found.new)
        (λ then. GlobalsSaid then (length b.table.globals) b.table.globals lines.items))
        ⊥ result store.now }
{
    let mut lines = Vec::new(alloc);
    for index in 0..reads.len() {
        let read = reads[index];
        add_line(store, found, &mut lines, index as u16, read)?;
    }
    Ok(lines)
}
