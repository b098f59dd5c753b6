//! The report of an image that is saved.

ghost use Rattle.std.specs.Prelude.{ℕ, IfOk};
ghost use Rattle.gc_model.specs.Table.{Table};
ghost use Rattle.gc_model.specs.Accounts.{Account, HoldsAccount};
ghost use Rattle.gc_store.specs.Stores.{IsSameStore};
ghost use Rattle.gc_save_image.specs.Answers.{DropsImageRoots};
ghost use Rattle.gcsh_reports.specs.Saving.{TellsSave};

use gc_heap::GcHeap;
use gc_save_image::{SaveFault, save_image};
use gc_store::Store;
use std::alloc::{AllocError, Global};

/// The image of what the globals of a store reach, or the name of the refusal on a line where there is none. An error is want of
/// memory. Its time is that of `save_image`.
pub fn save_report<H: GcHeap>(
    alloc: Global,
    store: &mut Store<H, u64>,
) -> Result<Vec<u8>, AllocError>
    ensures tells { IfOk result (λ text. (t : Table ℕ) (a : Account) → HoldsAccount H.KIND store.old t a → TellsSave t text.items) }
    ensures leaves { (t : Table ℕ) (a : Account) → HoldsAccount H.KIND store.old t a → DropsImageRoots H.KIND t a store.new }
    ensures same { IsSameStore store.old store.new }
{
    match save_image(alloc, store) {
        Ok(image) => Ok(image),
        Err(SaveFault::NotPlain) => Vec::from_slice(alloc, b"NotPlain\n"),
        Err(SaveFault::RootsFull) => Vec::from_slice(alloc, b"RootsFull\n"),
        Err(SaveFault::Tangled) => Vec::from_slice(alloc, b"Tangled\n"),
        Err(SaveFault::Memory) => Err(AllocError),
    }
}
