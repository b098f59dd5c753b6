//! The commands on exceptions.

ghost use Rattle.std.specs.Prelude.{◌≡◌, Ok, OnErr};
ghost use Rattle.gc_commands.specs.declared.command.Command.TheVariants as Command;
ghost use Rattle.gc_script.specs.Endings.{answer_of, ended};
ghost use Rattle.gc_script.specs.State.{State, HoldsState};
ghost use Rattle.gc_script.specs.Run.{RunsOne, GoesOn};
ghost use Rattle.gc_script.specs.Wants.{MayWant};
ghost use Rattle.gc_store.specs.Stores.{IsSameStore};

use crate::ending::Ending;
use crate::objects::{Wanted, find_object};
use crate::reads::{make_room, put_read};
use crate::runner::{RunError, Runner};
use gc_commands::type_words::values_of;
use gc_commands::{Operand, Refusal, Reply, ValueWord};
use gc_heap::GcHeap;
use gc_store::{GcClass, Place, RawValue, ResourceLimiter, RootFault, Store};
use gc_types::{Tag, TypeFault, TypeKind, VMSharedTypeIndex};

impl Runner {
    /// Declares an exception type.
    pub(crate) fn declare_exn<H: GcHeap>(
        &self,
        store: &mut Store<H, u64>,
        words: &[ValueWord],
    ) -> Result<Reply, RunError>
        ensures goes { (s : State) → HoldsState H.KIND store.old self.now s → GoesOn H.KIND s (Command.Exn words.now) result store.new self.now }
        ensures same { IsSameStore store.old store.new }
    {
        let params = match values_of(self.alloc, store.types(), TypeKind::Exn, words) {
            Ok(Some(params)) => params,
            Ok(None) => return Ok(Reply::Refused(Refusal::BadType)),
            Err(_) => return Err(RunError::OutOfMemory),
        };
        match store.declare_exn(params.as_slice()) {
            Ok(ty) => Ok(Reply::Declared(ty.index().as_u32())),
            Err(TypeFault::BadType) => Ok(Reply::Refused(Refusal::BadType)),
            Err(TypeFault::Memory) => Err(RunError::OutOfMemory),
        }
    }

    /// Makes an exception of type `t` with the tag (0, `tag`), and puts it into register `d`.
    pub(crate) fn make_exn<H: GcHeap, L: ResourceLimiter>(
        &mut self,
        store: &mut Store<H, u64>,
        limiter: &mut L,
        d: u16,
        t: u32,
        tag: u32,
        operands: &[Operand],
    ) -> Ending
        ensures runs { (s : State) → HoldsState H.KIND store.old self.old s
            → RunsOne H.KIND store.old.alloc_counter (L.limits limiter.old) (L.limits limiter.new) s
            (Command.NewExn d t tag operands.now) (answer_of result) store.new self.new }
        ensures cause { OnErr (answer_of result) ((s : State) → HoldsState H.KIND store.old self.old s
            → MayWant H.KIND s (Command.NewExn d t tag operands.now)) }
        ensures same { IsSameStore store.old store.new }
    {
        let ty = VMSharedTypeIndex::new(t);
        let tag = Tag {
            instance: 0,
            index: tag,
        };
        self.make_fields(store, limiter, d, Place::Exn(ty, tag), operands)
    }

    /// Throws the exception in register `r`: it is pending afterwards, in place of one that was, which `ThrownException` tells.
    /// Never Ok. Takes no memory.
    pub(crate) fn throw<H: GcHeap>(&self, store: &mut Store<H, u64>, r: u16) -> Result<(), Refusal>
        ensures goes { (s : State) → HoldsState H.KIND store.old self.now s → GoesOn H.KIND s (Command.Throw r) (Ok (ended result)) store.new self.now }
        ensures same { IsSameStore store.old store.new }
    {
        let value = match self.registers.get(r) {
            Some(value) => value,
            None => return Err(Refusal::NoSuchName),
        };
        let object = match find_object(store, &value, Wanted::Exception) {
            Ok(object) => object,
            Err(why) => return Err(why),
        };
        match store.set_pending(object.root) {
            Ok(()) => Err(Refusal::ThrownException),
            // The root is live, so the store never answers this.
            Err(_) => Err(Refusal::Unrooted),
        }
    }

    /// Takes the pending exception into register `d`; null where none is pending.
    pub(crate) fn take<H: GcHeap>(
        &mut self,
        store: &mut Store<H, u64>,
        d: u16,
    ) -> Result<Reply, RunError>
        ensures goes { (s : State) → HoldsState H.KIND store.old self.old s → GoesOn H.KIND s (Command.Take d) result store.new self.new }
        ensures cause { OnErr result ((s : State) → HoldsState H.KIND store.old self.old s → MayWant H.KIND s (Command.Take d)) }
        ensures same { IsSameStore store.old store.new }
    {
        let into = Some(d);
        if make_room(&mut self.registers, into).is_err() {
            return Err(RunError::OutOfMemory);
        }
        match store.take_pending() {
            Ok(handle) => {
                let value = RawValue::Ref(GcClass::Exn, handle);
                Ok(put_read(&mut self.registers, store, into, value))
            }
            Err(RootFault::RootsFull) => Ok(Reply::Refused(Refusal::RootsFull)),
            // No handle is given, so only memory is wanting.
            Err(_) => Err(RunError::OutOfMemory),
        }
    }
}
