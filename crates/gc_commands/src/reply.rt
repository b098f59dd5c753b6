//! The replies to commands.

ghost use Rattle.std.specs.Prelude.{◌≡◌};

use gc_refs::V128;
use std::marker::Model;

/// Why a command is refused. A refused command changes no register.
#[derive(Clone, Copy, Debug, PartialEq, Eq)]
pub enum Refusal {
    /// The line is no command.
    BadLine,
    /// A register is unset, an owned register was never set, a type isn't declared or isn't of the
    /// command's kind, or a slot, global, scope or frame isn't there.
    NoSuchName,
    /// A handle's scope was left, or its owned root was given up.
    Unrooted,
    /// The reference is not of the kind that the command is for.
    WrongKind,
    /// The declaration may not be made.
    BadType,
    /// There are not as many values as fields.
    FieldCount,
    /// A value does not fit its type.
    TypeMismatch,
    /// There is no such field or element.
    OutOfBounds,
    /// The field or element is constant.
    Immutable,
    /// The array's elements are not 8 bits wide.
    NotI8Array,
    /// The lengths differ.
    LengthMismatch,
    /// No heap of this kind can hold an object of that size.
    TooLarge,
    /// No further root may be made.
    RootsFull,
    /// The heap has no room, and the limiter refused it more.
    GcHeapOutOfMemory,
    /// The limiter refused the growth.
    GcHeapGrowthFailed,
    /// The exception was thrown.
    ThrownException,
}

/// A value as a reply shows it.
#[derive(Clone, Copy, Debug, PartialEq, Eq)]
pub enum ReplyValue {
    I32(i32),
    I64(i64),
    F32(u32),
    F64(u64),
    V128(V128),
    Null,
    I31(u32),
    Struct(u32),
    Array(u32),
    Host,
    /// An exception's type and its tag's index.
    Exn(u32, u32),
    /// A function or a continuation, present or none.
    Opaque,
}

/// The reply to a command.
#[derive(Debug, Drop)]
pub enum Reply {
    Done,
    /// The index of the type that was declared.
    Declared(u32),
    Value(ReplyValue),
    /// Elements of an array.
    Length(u32),
    HostNumber(u64),
    /// Whether two references are the same.
    Same(bool),
    /// How many objects the heap holds, and how many of them are host objects.
    Held { objects: u64, hosts: u64 },
    /// Bytes.
    Capacity(u64),
    Increments(u64),
    Bytes(ByteText),
    Refused(Refusal),
}

/// Bytes as a command or a reply shows them.
#[derive(Debug, Drop)]
pub struct ByteText {
    bytes: Vec<u8>,
}

impl Model for ByteText {
    ghost use Rattle.std.specs.Prelude.{List, ℕ};

    ghost Value = { List ℕ };

    ghost view = { λ t. t.bytes.items };
}

impl ByteText {
    /// These bytes. Takes no memory.
    pub fn from_vec(bytes: Vec<u8>) -> ByteText
        ensures { result ≡ bytes.items }
    {
        ByteText { bytes }
    }

    /// The bytes.
    pub fn as_slice(&self) -> &[u8]
        ensures { result.now ≡ self.now }
    {
        self.bytes.as_slice()
    }

    /// The vector that it was made from. Takes no memory.
    pub fn into_vec(self) -> Vec<u8>
        ensures { result.items ≡ self }
    {
        self.bytes
    }
}
