//! The kit of a store, and the names of answers.

ghost use Rattle.std.specs.Prelude.{None, IfOk};
ghost use Rattle.test_lists.specs.Standing.{ListIn, MapIn};

use gc_heap::GcHeap;
use gc_lists::{Kit, ListFault};
use gc_store::Store;
use gc_store::laws::stores_hold_tables;

/// A new kit, with which the empty list and the empty map stand.
pub(crate) fn new_kit<H: GcHeap>(store: &mut Store<H, u64>) -> Result<Kit, ListFault>
    ensures lists { IfOk result (λ kit. ListIn H.KIND store.new kit None) }
    ensures maps { IfOk result (λ kit. MapIn H.KIND store.new kit None) }
{
    stores_hold_tables(store);
    match Kit::new(store) {
        Ok(kit) => Ok(kit),
        // There are few types here, so that only memory can be wanting.
        Err(_) => Err(ListFault::Memory),
    }
}

/// The name of an answer.
pub(crate) fn answer_name<T>(answer: &Result<T, ListFault>) -> &'static str {
    match answer {
        Ok(_) => "made",
        Err(ListFault::WrongStore) => "WrongStore",
        Err(ListFault::RootsFull) => "RootsFull",
        Err(ListFault::HeapOutOfMemory(_)) => "HeapOutOfMemory",
        Err(ListFault::Memory) => "Memory",
    }
}
