//! The commands of a script.

ghost use Rattle.std.specs.Prelude.{◌≡◌, [], ◌∷◌, ◌++◌, OnErr, OnOk};

use crate::reply::ByteText;
use gc_refs::V128;
use std::alloc::{AllocError, Global};
use std::marker::Model;
use std::mem;

/// One command of a script. Registers, owned registers, slots and globals are named by 16-bit
/// numbers, types by their indexes.
#[derive(Debug, Drop)]
pub enum Command {
    /// A line that is no command.
    Bad,
    /// `struct [final] [sub:T] F*`: declares a struct type.
    Struct {
        is_final: bool,
        supertype: Option<u32>,
        fields: FieldWords,
    },
    /// `array [final] [sub:T] F`: declares an array type.
    Array {
        is_final: bool,
        supertype: Option<u32>,
        elem: FieldWord,
    },
    /// `exn W*`: declares an exception type.
    Exn {
        params: ValueWords,
    },
    /// `new D T V*`: makes a struct of type `t` and puts it into register `d`.
    New {
        d: u16,
        t: u32,
        values: Operands,
    },
    /// `newexn D T TAG V*`: makes an exception of type `t` with the tag of index `tag`.
    NewExn {
        d: u16,
        t: u32,
        tag: u32,
        values: Operands,
    },
    /// `newarr D T LEN V`: makes an array of `len` elements that all hold `value`.
    NewArr {
        d: u16,
        t: u32,
        len: u32,
        value: Operand,
    },
    /// `fixed D T V*`: makes an array of these elements.
    Fixed {
        d: u16,
        t: u32,
        values: Operands,
    },
    /// `bytes D T HEX`: makes an array of 8-bit elements.
    NewBytes {
        d: u16,
        t: u32,
        bytes: ByteText,
    },
    /// `bytes R LEN`: reads the `len` elements of an array of 8-bit elements.
    ReadBytes {
        r: u16,
        len: u32,
    },
    /// `host D N`: makes a host object with the number `n`.
    Host {
        d: u16,
        n: u64,
    },
    /// `i31 D N`: puts the low 31 bits of `n`, as a reference to a small integer, into register `d`.
    I31 {
        d: u16,
        n: u32,
    },
    /// `field R I [D]`: reads field `i` of the struct or exception in register `r`, and where `into`
    /// is present puts the value into that register.
    Field {
        r: u16,
        i: u32,
        into: Option<u16>,
    },
    /// `elem R I [D]`: reads element `i` of the array in register `r`, as `field` does.
    Elem {
        r: u16,
        i: u32,
        into: Option<u16>,
    },
    /// `len R`: asks for the length of an array.
    Len {
        r: u16,
    },
    /// `data R`: asks for the number of a host object.
    HostNumber {
        r: u16,
    },
    /// `setf R I V`: writes field `i` of the struct in register `r`.
    SetField {
        r: u16,
        i: u32,
        value: Operand,
    },
    /// `sete R I V`: writes element `i` of the array in register `r`.
    SetElem {
        r: u16,
        i: u32,
        value: Operand,
    },
    /// `eq R S`: whether registers `r` and `s` hold the same reference.
    Eq {
        r: u16,
        s: u16,
    },
    /// `enter`: opens a scope of roots.
    Enter,
    /// `leave`: closes the scope that was opened last.
    Leave,
    /// `push K`: pushes a frame of so many slots.
    Push {
        slots: u16,
    },
    /// `pop`: pops the frame that was pushed last.
    Pop,
    /// `store K R`: puts what register `r` holds into slot `k`.
    Store {
        k: u16,
        r: u16,
    },
    /// `load K D`: puts what slot `k` holds into register `d`.
    Load {
        k: u16,
        d: u16,
    },
    /// `gset G R`: puts what register `r` holds into global `g`.
    SetGlobal {
        g: u16,
        r: u16,
    },
    /// `gget G D`: puts what global `g` holds into register `d`.
    GetGlobal {
        g: u16,
        d: u16,
    },
    /// `own O R`: makes an owned root of what register `r` holds, in owned register `o`.
    Own {
        o: u16,
        r: u16,
    },
    /// `root D O`: puts what owned register `o` holds into register `d`.
    Root {
        d: u16,
        o: u16,
    },
    /// `unroot O`: gives up the owned root in owned register `o`.
    Unroot {
        o: u16,
    },
    /// `throw R`: throws the exception in register `r`.
    Throw {
        r: u16,
    },
    /// `take D`: takes the pending exception into register `d`.
    Take {
        d: u16,
    },
    /// `gc`: collects.
    Gc,
    /// `gcdrop`: starts a collection, does one increment and drops it.
    GcDrop,
    /// `gcinc`: collects increment by increment.
    GcInc,
    /// `grow N`: grows the heap, at least by `n` bytes; by nothing where `n` is 0.
    Grow {
        n: u64,
    },
    /// `cap`: asks for the heap's capacity.
    Cap,
}

/// A value type as a script spells it.
#[derive(Clone, Copy, Debug, PartialEq, Eq)]
pub enum ValueWord {
    I32,
    I64,
    F32,
    F64,
    V128,
    Ref { heap: HeapWord, nullable: bool },
}

/// The heap type of a reference as a script spells it. `Named(N)` is spelled `tN`.
#[derive(Clone, Copy, Debug, PartialEq, Eq)]
pub enum HeapWord {
    Any,
    Eq,
    I31,
    Struct,
    Array,
    None,
    Extern,
    NoExtern,
    Exn,
    NoExn,
    Named(u32),
}

/// What a field or an element holds, as a script spells it.
#[derive(Clone, Copy, Debug, PartialEq, Eq)]
pub enum StorageWord {
    I8,
    I16,
    Value(ValueWord),
}

/// A field or an element as a script spells it.
#[derive(Clone, Copy, Debug, PartialEq, Eq)]
pub struct FieldWord {
    pub mutable: bool,
    pub storage: StorageWord,
}

/// The value that a command writes: a number, a null of one of three classes, or what a register
/// holds.
#[derive(Clone, Copy, Debug, PartialEq, Eq)]
pub enum Operand {
    I32(i32),
    I64(i64),
    F32(u32),
    F64(u64),
    V128(V128),
    AnyNull,
    ExternNull,
    ExnNull,
    Register(u16),
}

/// The fields of a declaration, in order.
#[derive(Debug, Drop)]
pub struct FieldWords {
    fields: Vec<FieldWord>,
}

impl Model for FieldWords {
    ghost use Rattle.std.specs.Prelude.{List};
    ghost use Rattle.gc_commands.specs.declared.command.FieldWord.{FieldWord};

    ghost Value = { List FieldWord };

    ghost view = { λ f. f.fields.items };
}

impl FieldWords {
    /// These fields. Takes no memory.
    pub fn from_vec(fields: Vec<FieldWord>) -> FieldWords
        ensures { result ≡ fields.items }
    {
        FieldWords { fields }
    }

    /// The fields.
    pub fn as_slice(&self) -> &[FieldWord]
        ensures { result.now ≡ self.now }
    {
        self.fields.as_slice()
    }

    /// The vector that it was made from. Takes no memory.
    pub fn into_vec(self) -> Vec<FieldWord>
        ensures { result.items ≡ self }
    {
        self.fields
    }
}

/// The parameters of an exception type, in order.
#[derive(Debug, Drop)]
pub struct ValueWords {
    params: Vec<ValueWord>,
}

impl Model for ValueWords {
    ghost use Rattle.std.specs.Prelude.{List};
    ghost use Rattle.gc_commands.specs.declared.command.ValueWord.{ValueWord};

    ghost Value = { List ValueWord };

    ghost view = { λ v. v.params.items };
}

impl ValueWords {
    /// These parameters. Takes no memory.
    pub fn from_vec(params: Vec<ValueWord>) -> ValueWords
        ensures { result ≡ params.items }
    {
        ValueWords { params }
    }

    /// The parameters.
    pub fn as_slice(&self) -> &[ValueWord]
        ensures { result.now ≡ self.now }
    {
        self.params.as_slice()
    }

    /// The vector that it was made from. Takes no memory.
    pub fn into_vec(self) -> Vec<ValueWord>
        ensures { result.items ≡ self }
    {
        self.params
    }
}

/// The operands of a command, in order.
#[derive(Debug, Drop)]
pub struct Operands {
    values: Vec<Operand>,
}

impl Model for Operands {
    ghost use Rattle.std.specs.Prelude.{List};
    ghost use Rattle.gc_commands.specs.declared.command.Operand.{Operand};

    ghost Value = { List Operand };

    ghost view = { λ o. o.values.items };
}

impl Operands {
    /// No operands. Takes no memory.
    pub fn new(alloc: Global) -> Operands
        ensures { result ≡ [] }
    {
        Operands {
            values: Vec::new(alloc),
        }
    }

    /// The operands.
    pub fn as_slice(&self) -> &[Operand]
        ensures { result.now ≡ self.now }
    {
        self.values.as_slice()
    }

    /// Takes all operands off. Takes no memory, and keeps the room that they had.
    #[inline(always)]
    pub fn clear(&mut self)
        ensures { self.new ≡ [] }
    {
        self.values.clear();
    }

    /// Puts an operand behind the others. Takes memory only where there is no room for it.
    #[inline(always)]
    pub fn push(&mut self, value: Operand) -> Result<(), AllocError>
        ensures pushed { OnOk result (self.new ≡ self.old ++ value ∷ []) }
        ensures same { OnErr result (self.new ≡ self.old) }
    {
        self.values.push(value)?;
        Ok(())
    }

    /// The operands, with the room that they have; none are left. Takes no memory.
    #[inline(always)]
    pub fn take(&mut self, alloc: Global) -> Operands
        ensures taken { result ≡ self.old }
        ensures left { self.new ≡ [] }
    {
        mem::replace(self, Operands::new(alloc))
    }
}
