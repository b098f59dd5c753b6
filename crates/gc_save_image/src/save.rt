//! An image is saved.

ghost use Rattle.std.specs.Prelude.{◌≡◌, ◌<◌, ℕ, Some, Ok, Err, IfOk, IfSome, IfNone, MatchResult, length};
ghost use Rattle.std.specs.List.{AllByRecursion};
ghost use Rattle.gc_model.specs.Table.{Table};
ghost use Rattle.gc_model.specs.Accounts.{Account, HoldsAccount};
ghost use Rattle.gc_store.specs.Stores.{IsSameStore};
ghost use Rattle.gc_image.specs.Text.{FitsImageType};
ghost use Rattle.gc_image.specs.Well.{GlobalHolds};
ghost use Rattle.gc_image_write.specs.Order.{AreClosed, AreTangled, early_named};
ghost use Rattle.gc_save_image.specs.Answers.{DropsImageRoots};
ghost use Rattle.gc_save_image.specs.Renumbering.{IsWritten};
ghost use Rattle.gc_save_image.specs.Saves.{RefusesSave, Saved, Unwritten};

use crate::collect::collect_objects;
use crate::collect_fault::CollectFault;
use crate::fault::SaveFault;
use crate::kept::are_kept;
use crate::renumber::{numbers_of, renumbered_globals, renumbered_objects};
use gc_commands::Command;
use gc_heap::GcHeap;
use gc_image::{GlobalLine, Image, ObjectLine};
use gc_image_write::{commands_of, order_of, write_image};
use gc_store::Store;
use gc_store::laws::stores_hold_tables;
use gc_types::Types;
use std::alloc::{AllocError, Global};

/// The bytes of an image of a store's types and of all objects that its globals reach.
///
/// `NotPlain` where a type holds functions or continuations; `RootsFull` where no roots can be pushed for all references that
/// aren't null, of the globals and of these objects; `Tangled` where objects must each be made before the other. They are tested in
/// this order. The roots that it pushed are gone at the end, refused or not, and the heap holds what it held, garbage too. Its time and memory
/// are linear in the types, the objects and their values, and the text.
pub fn save_image<H: GcHeap>(alloc: Global, store: &mut Store<H, u64>) -> Result<Vec<u8>, SaveFault>
    ensures saves { (t : Table ℕ) (a : Account) → HoldsAccount H.KIND store.old t a
        → MatchResult result (λ bytes. Saved t bytes.items) (RefusesSave t) }
    ensures leaves { (t : Table ℕ) (a : Account) → HoldsAccount H.KIND store.old t a → DropsImageRoots H.KIND t a store.new }
    ensures untouched { result ≡ Err SaveFault.NotPlain → store.new ≡ store.old }
    ensures same { IsSameStore store.old store.new }
{
    stores_hold_tables(store);
    let commands = match commands_of(alloc, store.types()) {
        Ok(Some(commands)) => commands,
        Ok(None) => return Err(SaveFault::NotPlain),
        Err(_) => return Err(SaveFault::Memory),
    };
    let collected = match collect_objects(alloc, store) {
        Ok(collected) => collected,
        Err(CollectFault::RootsFull) => return Err(SaveFault::RootsFull),
        Err(CollectFault::Memory) => return Err(SaveFault::Memory),
    };
    answered(write_ordered(
        alloc,
        store.types(),
        commands,
        collected.objects.as_slice(),
        collected.globals.as_slice(),
    ))
}

/// What was written, or why nothing was.
fn answered(written: Result<Option<Vec<u8>>, AllocError>) -> Result<Vec<u8>, SaveFault>
    ensures { MatchResult result (λ bytes. written ≡ Ok (Some bytes)) (Unwritten written) }
{
    match written {
        Ok(Some(bytes)) => Ok(bytes),
        Ok(None) => Err(SaveFault::Tangled),
        Err(_) => Err(SaveFault::Memory),
    }
}

/// The text of these types, objects and globals, where objects are in an order in which they can be made; None where there is none.
fn write_ordered(
    alloc: Global,
    types: &Types,
    commands: Vec<Command>,
    objects: &[ObjectLine],
    globals: &[GlobalLine],
) -> Result<Option<Vec<u8>>, AllocError>
    requires commands { AllByRecursion FitsImageType commands.items }
    requires closed { AreClosed objects.now }
    requires held { (number : ℕ) → GlobalHolds globals.now number → number < length objects.now }
    ensures some { IfOk result (λ found. IfSome found (λ bytes. IsWritten types.now.declarations commands.items objects.now globals.now bytes.items)) }
    ensures none { IfOk result (λ found. IfNone found (AreTangled (early_named types.now.declarations objects.now))) }
{
    if !are_kept(types, objects) {
        // No store has such values, though no clause of one says so.
        return Err(AllocError);
    }
    let Some(order) = order_of(alloc, types, objects, globals)? else {
        return Ok(None);
    };
    let numbers = numbers_of(alloc, order.as_slice(), objects.len())?;
    let lines = renumbered_objects(alloc, objects, order.as_slice(), numbers.as_slice())?;
    let held = renumbered_globals(alloc, globals, numbers.as_slice())?;
    let image = Image::new(commands, lines, held);
    Ok(Some(write_image(alloc, &image)?))
}
