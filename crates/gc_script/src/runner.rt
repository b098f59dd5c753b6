//! Running commands.

ghost use Rattle.std.specs.Prelude.{◌≡◌, false, true, Ok, OnOk, OnErr};
ghost use Rattle.gc_model.specs.Holds.{HoldsKept};
ghost use Rattle.gc_model.specs.Allocation.{Limits};
ghost use Rattle.gc_commands.specs.LoneCommands.{lone_command};
ghost use Rattle.gc_script.specs.Built.{is_built};
ghost use Rattle.gc_script.specs.Endings.{answer_of, ended, is_quiet};
ghost use Rattle.gc_script.specs.Slots.{new_runner};
ghost use Rattle.gc_script.specs.State.{State, HoldsState};
ghost use Rattle.gc_script.specs.Shapes.{is_collection};
ghost use Rattle.gc_script.specs.Run.{RunsOne, GoesOn, asks_nothing, takes_memory, TakesMemory};
ghost use Rattle.gc_script.specs.Wants.{MayWant};
ghost use Rattle.gc_store.specs.Stores.{IsSameStore};

use crate::built::is_built;
use crate::ending::{Ending, is_quiet};
use crate::objects::Wanted;
use crate::registers::Registers;
use gc_commands::{Command, Lone, Refusal, Reply};
use gc_heap::GcHeap;
use gc_store::{ResourceLimiter, Store};
use std::alloc::Global;
use std::marker::Model;
use thiserror::Error;

/// Why a command was not run.
#[derive(Debug, Drop, Error)]
pub enum RunError {
    #[error("out of memory")]
    OutOfMemory,
}

/// Runs commands one after another, and has their registers and the scopes that they entered. A runner is
/// for one store: its registers hold handles of the store on which its commands ran, and its clauses say
/// nothing of another one.
#[derive(Drop)]
pub struct Runner {
    pub(crate) alloc: Global,
    pub(crate) registers: Registers,
    /// What owned registers hold: a class with a handle of an owned root, or without one where that was given up.
    pub(crate) owned: Registers,
    /// The numbers of roots with which the open scopes were entered, the oldest first.
    pub(crate) marks: Vec<usize>,
}

impl Model for Runner {
    ghost use Rattle.gc_script.specs.Slots.{RunnerView};

    ghost Value = { RunnerView };

    ghost view = { λ r. record { registers = r.registers; rest = record { owned = r.owned; marks = r.marks.items } } };
}

impl Runner {
    /// A runner whose registers are unset.
    pub fn new(alloc: Global) -> Runner
        ensures { result ≡ new_runner }
    {
        Runner {
            alloc,
            registers: Registers::new(alloc),
            owned: Registers::new(alloc),
            marks: Vec::new(alloc),
        }
    }

    /// Runs one command. What it refuses is a reply, and so is a line that is no command (`BadLine`); an
    /// error is want of memory, which leaves the table as it was, but that a command which makes an object
    /// and `grow` may have collected and got the heap pages. It comes of no command that takes no memory:
    /// `len`, `data`, `setf`, `sete`, `eq`, `leave`, `pop`, `store`, `gset`, `unroot`, `throw`, `gc`, `gcinc`,
    /// `gcdrop`, `cap`, and those that are none; nor of one that a test refuses, but for `TooLarge` and `RootsFull`,
    /// which the store tells once the register has its room. A declaration may want some before it is found to be `BadType`,
    /// as its layouts are made first. `field`, `elem`, `load` and `gget` take some where
    /// they make a root or their register was never set, and `take` where an exception is pending or it never was.
    /// The time is linear in the command's length and in the number of the register that it sets, beside
    /// that of a collection and of new memory, and for `leave` in the roots that it drops.
    // In place: where a caller knows the command, what is left of this is the command's own arm.
    #[inline(always)]
    pub fn run_one<H: GcHeap, L: ResourceLimiter>(
        &mut self,
        store: &mut Store<H, u64>,
        limiter: &mut L,
        command: &Command,
    ) -> Result<Reply, RunError>
        ensures runs { (s : State) → HoldsState H.KIND store.old self.old s
            → RunsOne H.KIND store.old.alloc_counter (L.limits limiter.old) (L.limits limiter.new) s command.now result store.new self.new }
        ensures memory { OnErr result (TakesMemory command.now) }
        ensures cause { OnErr result ((s : State) → HoldsState H.KIND store.old self.old s → MayWant H.KIND s command.now) }
        ensures kept { is_collection command.now ≡ true → OnOk result ((s : State) → HoldsState H.KIND store.old self.old s
            → HoldsKept H.KIND store.new s.table) }
        ensures same { IsSameStore store.old store.new }
    {
        if !is_built(command) {
            return Ok(Reply::Refused(Refusal::BadLine));
        }
        if is_quiet(command) {
            return self.run_quiet(store, limiter, command).answer();
        }
        self.run_telling(store, command)
    }

    /// Runs a command that tells nothing, as `run_one` does, and answers how it ended, with no room for a reply.
    #[inline(always)]
    pub fn run_quiet<H: GcHeap, L: ResourceLimiter>(
        &mut self,
        store: &mut Store<H, u64>,
        limiter: &mut L,
        command: &Command,
    ) -> Ending
        requires { is_quiet command.now ≡ true }
        ensures runs { (s : State) → HoldsState H.KIND store.old self.old s
            → RunsOne H.KIND store.old.alloc_counter (L.limits limiter.old) (L.limits limiter.new) s command.now (answer_of result) store.new self.new }
        ensures memory { OnErr (answer_of result) (TakesMemory command.now) }
        ensures cause { OnErr (answer_of result) ((s : State) → HoldsState H.KIND store.old self.old s → MayWant H.KIND s command.now) }
        ensures same { IsSameStore store.old store.new }
    {
        match command {
            Command::New { d, t, values } => {
                self.make_struct(store, limiter, *d, *t, values.as_slice())
            }
            Command::NewExn { d, t, tag, values } => {
                self.make_exn(store, limiter, *d, *t, *tag, values.as_slice())
            }
            Command::NewArr { d, t, len, value } => {
                self.make_filled(store, limiter, *d, *t, *len, value)
            }
            Command::Fixed { d, t, values } => {
                self.make_fixed(store, limiter, *d, *t, values.as_slice())
            }
            Command::NewBytes { d, t, bytes } => {
                self.make_bytes(store, limiter, *d, *t, bytes.as_slice())
            }
            Command::Host { d, n } => self.make_host(store, limiter, *d, *n),
            Command::Grow { n } => self.grow(store, limiter, *n),
            _ => self.end_unasking(store, command),
        }
    }

    /// Runs a command that tells nothing, asks no limiter and collects nothing.
    #[inline(always)]
    fn end_unasking<H: GcHeap>(&mut self, store: &mut Store<H, u64>, command: &Command) -> Ending
        requires asks { asks_nothing command.now ≡ true }
        requires quiet { is_quiet command.now ≡ true }
        ensures goes { (s : State) → HoldsState H.KIND store.old self.old s → GoesOn H.KIND s command.now (answer_of result) store.new self.new }
        ensures memory { OnErr (answer_of result) (TakesMemory command.now) }
        ensures cause { OnErr (answer_of result) ((s : State) → HoldsState H.KIND store.old self.old s → MayWant H.KIND s command.now) }
        ensures same { IsSameStore store.old store.new }
    {
        match command {
            Command::I31 { d, n } => self.make_i31(store, *d, *n),
            Command::Enter => self.enter(store),
            Command::Push { slots } => self.push_frame(store, *slots),
            Command::Own { o, r } => self.own(store, *o, *r),
            Command::Root { d, o } => self.root(store, *d, *o),
            _ => Ending::of(self.end_unfailing(store, command)),
        }
    }

    /// Runs a command that tells nothing, asks no limiter, collects nothing and takes no memory.
    #[inline(always)]
    fn end_unfailing<H: GcHeap>(
        &mut self,
        store: &mut Store<H, u64>,
        command: &Command,
    ) -> Result<(), Refusal>
        requires quiet { is_quiet command.now ≡ true }
        requires asks { asks_nothing command.now ≡ true }
        requires unfailing { takes_memory command.now ≡ false }
        ensures goes { (s : State) → HoldsState H.KIND store.old self.old s → GoesOn H.KIND s command.now (Ok (ended result)) store.new self.new }
        ensures same { IsSameStore store.old store.new }
    {
        match command {
            Command::SetField { r, i, value } => self.write_field(store, *r, *i, value),
            Command::SetElem { r, i, value } => self.write_element(store, *r, *i, value),
            Command::Leave => self.leave(store),
            Command::Pop => self.pop_frame(store),
            Command::Store { k, r } => self.store_slot(store, *k, *r),
            Command::SetGlobal { g, r } => self.set_global(store, *g, *r),
            Command::Unroot { o } => self.unroot(store, *o),
            Command::Throw { r } => self.throw(store, *r),
            _ => unreachable!(),
        }
    }

    /// Runs a command of one word that tells nothing, as `run_one` does, and answers how it ended. No limiter is asked, and
    /// `enter` alone takes memory.
    #[inline(always)]
    pub fn run_lone<H: GcHeap>(&mut self, store: &mut Store<H, u64>, lone: Lone) -> Ending
        ensures runs { (limits : Limits) (s : State) → HoldsState H.KIND store.old self.old s
            → RunsOne H.KIND store.old.alloc_counter limits limits s (lone_command lone) (answer_of result) store.new self.new }
        ensures memory { OnErr (answer_of result) (TakesMemory (lone_command lone)) }
        ensures cause { OnErr (answer_of result) ((s : State) → HoldsState H.KIND store.old self.old s → MayWant H.KIND s (lone_command lone)) }
        ensures same { IsSameStore store.old store.new }
    {
        match lone {
            Lone::Enter => self.enter(store),
            Lone::Leave => Ending::of(self.leave(store)),
            Lone::Pop => Ending::of(self.pop_frame(store)),
        }
    }

    /// Runs a command that tells something, as `run_one` does. No limiter is asked.
    #[inline(always)]
    pub fn run_telling<H: GcHeap>(
        &mut self,
        store: &mut Store<H, u64>,
        command: &Command,
    ) -> Result<Reply, RunError>
        requires built { is_built command.now ≡ true }
        requires telling { is_quiet command.now ≡ false }
        ensures runs { (limits : Limits) (s : State) → HoldsState H.KIND store.old self.old s
            → RunsOne H.KIND store.old.alloc_counter limits limits s command.now result store.new self.new }
        ensures memory { OnErr result (TakesMemory command.now) }
        ensures cause { OnErr result ((s : State) → HoldsState H.KIND store.old self.old s → MayWant H.KIND s command.now) }
        ensures kept { is_collection command.now ≡ true → OnOk result ((s : State) → HoldsState H.KIND store.old self.old s
            → HoldsKept H.KIND store.new s.table) }
        ensures same { IsSameStore store.old store.new }
    {
        match command {
            Command::Gc => Ok(self.collect(store)),
            Command::GcInc => Ok(self.collect_by_increments(store)),
            Command::GcDrop => Ok(self.collect_dropped(store)),
            _ => self.tell_unasking(store, command),
        }
    }

    /// Runs a command that tells something and collects nothing.
    #[inline(always)]
    fn tell_unasking<H: GcHeap>(
        &mut self,
        store: &mut Store<H, u64>,
        command: &Command,
    ) -> Result<Reply, RunError>
        requires asks { asks_nothing command.now ≡ true }
        requires telling { is_quiet command.now ≡ false }
        ensures goes { (s : State) → HoldsState H.KIND store.old self.old s → GoesOn H.KIND s command.now result store.new self.new }
        ensures memory { OnErr result (TakesMemory command.now) }
        ensures cause { OnErr result ((s : State) → HoldsState H.KIND store.old self.old s → MayWant H.KIND s command.now) }
        ensures same { IsSameStore store.old store.new }
    {
        match command {
            Command::Struct {
                is_final,
                supertype,
                fields,
            } => self.declare_struct(store, *is_final, *supertype, fields.as_slice()),
            Command::Array {
                is_final,
                supertype,
                elem,
            } => self.declare_array(store, *is_final, *supertype, elem),
            Command::Exn { params } => self.declare_exn(store, params.as_slice()),
            Command::ReadBytes { r, len } => self.read_bytes(store, *r, *len),
            Command::Field { r, i, into } => {
                self.read_value(store, Wanted::WithFields, *r, *i, *into)
            }
            Command::Elem { r, i, into } => self.read_value(store, Wanted::Array, *r, *i, *into),
            Command::Load { k, d } => self.load_slot(store, *k, *d),
            Command::GetGlobal { g, d } => self.get_global(store, *g, *d),
            Command::Take { d } => self.take(store, *d),
            _ => Ok(self.tell_unfailing(store, command)),
        }
    }

    /// Runs a command that tells something, collects nothing and takes no memory.
    // Each arm is the answer as it is: an `Ok` around it would be one more room for a reply in each arm, and all of them
    // are cleared whatever the command is.
    #[inline(always)]
    fn tell_unfailing<H: GcHeap>(&self, store: &Store<H, u64>, command: &Command) -> Reply
        requires asks { asks_nothing command.now ≡ true }
        requires telling { is_quiet command.now ≡ false }
        requires unfailing { takes_memory command.now ≡ false }
        ensures { (s : State) → HoldsState H.KIND store.now self.now s → GoesOn H.KIND s command.now (Ok result) store.now self.now }
    {
        match command {
            Command::Len { r } => self.length(store, *r),
            Command::HostNumber { r } => self.host_number(store, *r),
            Command::Eq { r, s } => self.compare(store, *r, *s),
            Command::Cap => self.capacity(store),
            _ => unreachable!(),
        }
    }
}
