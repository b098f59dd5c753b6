//! Running a whole script.

ghost use Rattle.std.specs.Prelude.{◌≡◌, ℕ, List, IfOk, OnOk, OnErr};
ghost use Rattle.gc_model.specs.Table.{Table};
ghost use Rattle.gc_model.specs.Accounts.{Account, HoldsAccount};
ghost use Rattle.gc_store.specs.Stores.{IsSameStore};
ghost use Rattle.gc_script.specs.State.{State, HoldsState, begin};
ghost use Rattle.gc_script.specs.Run.{WantsMemory};
ghost use Rattle.gc_script.specs.Script.{RanNext, EndedScript, StoppedScript};

use crate::runner::{RunError, Runner};
use gc_commands::{Command, Reply};
use gc_heap::GcHeap;
use gc_store::{ResourceLimiter, Store};
use std::alloc::Global;

/// Runs one command, and puts its reply behind the others.
fn run_next<H: GcHeap, L: ResourceLimiter>(
    runner: &mut Runner,
    store: &mut Store<H, u64>,
    limiter: &mut L,
    command: &Command,
    replies: &mut Vec<Reply>,
) -> Result<(), RunError>
    ensures ran { OnOk result ((s : State) → HoldsState H.KIND store.old runner.old s
        → RanNext H.KIND store.old.alloc_counter (L.limits limiter.old)
        (L.limits limiter.new) s command.now replies.old.items replies.new.items store.new runner.new) }
    ensures wants { OnErr result ((s : State) → HoldsState H.KIND store.old runner.old s
        → WantsMemory H.KIND store.old.alloc_counter (L.limits limiter.old) (L.limits limiter.new) s command.now store.new runner.new) }
    ensures same { IsSameStore store.old store.new }
{
    if replies.reserve(1).is_err() {
        return Err(RunError::OutOfMemory);
    }
    let reply = runner.run_one(store, limiter, command)?;
    match replies.push(reply) {
        Ok(()) => Ok(()),
        Err(_) => unreachable!(),
    }
}

/// Runs the commands one after the other, with empty registers, and answers their replies. After
/// `OutOfMemory` the store stands as after the commands before, but that the one which wanted memory may
/// have collected and got the heap pages.
/// The time is that of its commands.
pub fn run_script<H: GcHeap, L: ResourceLimiter>(
    alloc: Global,
    store: &mut Store<H, u64>,
    limiter: &mut L,
    commands: &[Command],
) -> Result<Vec<Reply>, RunError>
    ensures ended { IfOk result (λ replies. (t : Table ℕ) (a : Account) → HoldsAccount H.KIND store.old t a
        → EndedScript H.KIND store.old.alloc_counter (L.limits limiter.old) (L.limits limiter.new) (begin t a) commands.now replies.items store.new) }
    ensures stopped { OnErr result ((t : Table ℕ) (a : Account) → HoldsAccount H.KIND store.old t a
        → StoppedScript H.KIND store.old.alloc_counter (L.limits limiter.old) (L.limits limiter.new) (begin t a) commands.now store.new) }
    ensures same { IsSameStore store.old store.new }
{
    let mut runner = Runner::new(alloc);
    let mut replies = Vec::new(alloc);
    for command in commands {
        run_next(&mut runner, store, limiter, command, &mut replies)?;
    }
    Ok(replies)
}
