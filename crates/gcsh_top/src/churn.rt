//! The commands of the script that `churn` makes.

ghost use Rattle.std.specs.Prelude.{◌≡◌, ◌≤◌, false, pos, [], ◌∷◌, IfOk, None};
ghost use Rattle.gcsh_top.specs.Churn.{link_fields, max_rounds, mutable_field, named_by, slot_read, slot_set};

use gc_commands::{FieldWord, FieldWords, HeapWord, Operands, StorageWord, ValueWord};
use gc_script::{Command, Operand};
use std::alloc::{AllocError, Global};

/// A script may have this many rounds.
pub const MAX_ROUNDS: u32 = 100_000;

/// The slots of the frame in which rounds keep objects.
pub(crate) const SLOTS: u16 = 8;

/// The register of what a round reads, and that of what it makes.
pub(crate) const READ: u16 = 1;

pub(crate) const MADE: u16 = 2;

/// One round of a script: its number, counted from 1, and what its slots are drawn from.
#[derive(Clone, Copy, Debug)]
pub(crate) struct Round {
    pub(crate) number: u32,
    pub(crate) seed: u32,
}

/// `struct m:any m:i32`: declares the type of the objects that the rounds make.
pub(crate) fn declare_link(alloc: Global) -> Result<Command, AllocError>
    ensures { IfOk result (λ command. command ≡ Command.Struct false None link_fields) }
{
    let reference = ValueWord::Ref {
        heap: HeapWord::Any,
        nullable: true,
    };
    let mut fields = Vec::with_capacity(alloc, 2)?;
    fields.extend_from_slice(&[mutable(reference), mutable(ValueWord::I32)])?;
    Ok(Command::Struct {
        is_final: false,
        supertype: None,
        fields: FieldWords::from_vec(fields),
    })
}

/// A mutable field of that type.
fn mutable(value: ValueWord) -> FieldWord
    ensures { result ≡ mutable_field value }
{
    FieldWord {
        mutable: true,
        storage: StorageWord::Value(value),
    }
}

impl Round {
    /// The slot that it reads.
    pub(crate) fn slot_read(&self) -> u16
        ensures { result ≡ slot_read self.now.seed }
    {
        (self.seed / 65_536 % 8) as u16
    }

    /// The slot that it sets.
    pub(crate) fn slot_set(&self) -> u16
        ensures { result ≡ slot_set self.now.seed }
    {
        (self.seed / 524_288 % 8) as u16
    }

    /// What its object names: what was read, and null where the slot that was read is set.
    fn named(&self) -> Operand
        ensures { result ≡ named_by self.now.seed }
    {
        if self.slot_read() == self.slot_set() {
            Operand::AnyNull
        } else {
            Operand::Register(READ)
        }
    }

    /// `new`: makes its object. Its operands use the room of the list that is handed in.
    // In place, so that it is known which command is run.
    #[inline(always)]
    pub(crate) fn make(&self, alloc: Global, room: &mut Operands) -> Result<Command, AllocError>
        requires { self.now.number ≤ max_rounds }
        ensures { IfOk result (λ command. command ≡ Command.New 2 0 (named_by self.now.seed ∷ Operand.I32 (pos self.now.number) ∷ [])) }
    {
        room.clear();
        room.push(self.named())?;
        room.push(Operand::I32(self.number as i32))?;
        Ok(Command::New {
            d: MADE,
            t: 0,
            values: room.take(alloc),
        })
    }
}
