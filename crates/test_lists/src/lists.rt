//! What is done with lists.

ghost use Rattle.std.specs.Prelude.{None, IfOk};
ghost use Rattle.gc_lists.specs.declared.kit.Kit.{Kit};
ghost use Rattle.test_lists.specs.Standing.{ListIn};

use crate::kits::{answer_name, new_kit};
use crate::page::Page;
use gc_heap::GcHeap;
use gc_lists::{HeapList, Kit, ListFault};
use gc_store::{PageLimit, Store};
use std::alloc::Global;

/// A list with one more number in front.
fn add<H: GcHeap>(
    store: &mut Store<H, u64>,
    limiter: &mut PageLimit,
    kit: &Kit,
    list: &HeapList,
    head: i64,
) -> Result<HeapList, ListFault>
    requires { ListIn H.KIND store.old kit.now list.now.root }
    ensures { IfOk result (λ made. ListIn H.KIND store.new kit.now made.root) }
{
    list.cons(kit, store, limiter, head)
}

/// The list of these numbers, the last one in front.
fn list_of<H: GcHeap>(
    store: &mut Store<H, u64>,
    limiter: &mut PageLimit,
    kit: &Kit,
    numbers: &[i64],
) -> Result<HeapList, ListFault>
    requires { ListIn H.KIND store.old kit.now None }
    ensures { IfOk result (λ list. ListIn H.KIND store.new kit.now list.root) }
{
    let mut list = HeapList::empty();
    for number in numbers.iter() {
        list = add(store, limiter, kit, &list, *number)?;
    }
    Ok(list)
}

/// The list without its first number.
fn rest<H: GcHeap>(
    store: &mut Store<H, u64>,
    kit: &Kit,
    list: &HeapList,
) -> Result<HeapList, ListFault>
    requires { ListIn H.KIND store.old kit.now list.now.root }
    ensures { IfOk result (λ made. ListIn H.KIND store.new kit.now made.root) }
{
    list.tail(store)
}

/// All numbers of a list.
fn all<H: GcHeap>(
    alloc: Global,
    store: &mut Store<H, u64>,
    list: &HeapList,
) -> Result<Vec<i64>, ListFault>
    requires { (kit : Kit) × ListIn H.KIND store.old kit list.now.root }
{
    list.copy_out(alloc, store)
}

/// The first number of a list.
fn first<H: GcHeap>(store: &mut Store<H, u64>, list: &HeapList) -> Result<Option<i64>, ListFault>
    requires { (kit : Kit) × ListIn H.KIND store.old kit list.now.root }
{
    list.head(store)
}

/// The first number of the list of these.
fn first_of<H: GcHeap>(
    store: &mut Store<H, u64>,
    limiter: &mut PageLimit,
    numbers: &[i64],
) -> Result<Option<i64>, ListFault> {
    let kit = new_kit(store)?;
    let list = list_of(store, limiter, &kit, numbers)?;
    first(store, &list)
}

/// The numbers behind the first one of the list of these.
fn rest_of<H: GcHeap>(
    alloc: Global,
    store: &mut Store<H, u64>,
    limiter: &mut PageLimit,
    numbers: &[i64],
) -> Result<Vec<i64>, ListFault> {
    let kit = new_kit(store)?;
    let list = list_of(store, limiter, &kit, numbers)?;
    let rest = rest(store, &kit, &list)?;
    all(alloc, store, &rest)
}

/// All numbers of the list of these, which is given up.
fn all_of<H: GcHeap>(
    alloc: Global,
    store: &mut Store<H, u64>,
    limiter: &mut PageLimit,
    numbers: &[i64],
) -> Result<Vec<i64>, ListFault> {
    let kit = new_kit(store)?;
    let list = list_of(store, limiter, &kit, numbers)?;
    let numbers = all(alloc, store, &list);
    match list.release(store) {
        Ok(()) => numbers,
        Err(_) => Err(ListFault::WrongStore),
    }
}

/// Shows the first number of a list, the others, and all.
pub(crate) fn run_lists<H: GcHeap>(
    page: &mut Page,
    alloc: Global,
    store: &mut Store<H, u64>,
    limiter: &mut PageLimit,
) -> Result<(), ListFault> {
    let numbers = [1, 2, 3];
    let first = first_of(store, limiter, &numbers)?;
    writeln!(page, "first: {first:?}");
    let rest = rest_of(alloc, store, limiter, &numbers)?;
    writeln!(page, "rest: {rest:?}");
    let all = all_of(alloc, store, limiter, &numbers)?;
    writeln!(page, "all: {all:?}");
    Ok(())
}

/// Shows what a number in front of the empty list is answered.
pub(crate) fn run_first_cell<H: GcHeap>(
    page: &mut Page,
    store: &mut Store<H, u64>,
    limiter: &mut PageLimit,
) -> Result<(), ListFault> {
    let kit = new_kit(store)?;
    let made = list_of(store, limiter, &kit, &[1]);
    writeln!(page, "a list: {}", answer_name(&made));
    Ok(())
}
