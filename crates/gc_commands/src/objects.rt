//! Reads the commands that make objects from a type: `new`, `newexn`, `newarr`, `fixed` and `bytes`.

ghost use Rattle.std.specs.Prelude.{IfOk};
ghost use Rattle.std.specs.Option.{option_map};
ghost use Rattle.gc_commands.specs.declared.command.Command.TheVariants.{New};
ghost use Rattle.gc_commands.specs.declared.form.Form.TheVariants as form;
ghost use Rattle.gc_commands.specs.Reading.{Reads};
ghost use Rattle.gc_commands.specs.Forms.{unless_bad};
ghost use Rattle.gc_commands.specs.Spelling.{IsOfForm, operands_of};

use crate::command::{Command, Operands};
use crate::hex::bytes_of;
use crate::parts::{
    fill_operands, read_end, read_operand, read_operands, read_register_and_number, read_target,
    read_u32,
};
use crate::reply::ByteText;
use crate::words::Words;
use std::alloc::{AllocError, Global};

/// The register and the type of the words behind `new`, whose operands go into a list; None where they spell no such command.
#[inline(always)]
pub(crate) fn read_new_into(
    list: &mut Operands,
    words: &mut Words,
) -> Result<Option<(u16, u32)>, AllocError>
    ensures { IfOk result (λ to. Reads (IsOfForm form.New) operands_of words.old (option_map (λ at. New at.0 at.1 list.new) to)) }
{
    let Some(to) = read_target(words) else {
        return Ok(None);
    };
    if fill_operands(list, words)? {
        Ok(Some(to))
    } else {
        Ok(None)
    }
}

/// The words behind `new`: a register, a type and any number of operands.
#[inline(always)]
pub(crate) fn read_new(
    alloc: Global,
    room: &mut Operands,
    words: &mut Words,
) -> Result<Command, AllocError>
    ensures { IfOk result (λ command. Reads (IsOfForm form.New) operands_of words.old (unless_bad command)) }
{
    let Some((d, t)) = read_new_into(room, words)? else {
        return Ok(Command::Bad);
    };
    Ok(Command::New {
        d,
        t,
        values: room.take(alloc),
    })
}

/// The words behind `newexn`: a register, a type, a tag and any number of operands.
pub(crate) fn read_new_exn(
    alloc: Global,
    room: &mut Operands,
    words: &mut Words,
) -> Result<Command, AllocError>
    ensures { IfOk result (λ command. Reads (IsOfForm form.NewExn) operands_of words.old (unless_bad command)) }
{
    let Some((d, t)) = read_target(words) else {
        return Ok(Command::Bad);
    };
    let Some(tag) = read_u32(words) else {
        return Ok(Command::Bad);
    };
    let Some(values) = read_operands(alloc, room, words)? else {
        return Ok(Command::Bad);
    };
    Ok(Command::NewExn { d, t, tag, values })
}

/// The words behind `newarr`: a register, a type, a length and an operand.
#[inline(never)]
pub(crate) fn read_new_arr(words: &mut Words) -> Command
    ensures { Reads (IsOfForm form.NewArr) operands_of words.old (unless_bad result) }
{
    let Some((d, t)) = read_target(words) else {
        return Command::Bad;
    };
    let Some(len) = read_u32(words) else {
        return Command::Bad;
    };
    let Some(value) = read_operand(words) else {
        return Command::Bad;
    };
    if read_end(words).is_none() {
        return Command::Bad;
    }
    Command::NewArr { d, t, len, value }
}

/// The words behind `fixed`: a register, a type and any number of operands.
pub(crate) fn read_fixed(
    alloc: Global,
    room: &mut Operands,
    words: &mut Words,
) -> Result<Command, AllocError>
    ensures { IfOk result (λ command. Reads (IsOfForm form.Fixed) operands_of words.old (unless_bad command)) }
{
    let Some((d, t)) = read_target(words) else {
        return Ok(Command::Bad);
    };
    let Some(values) = read_operands(alloc, room, words)? else {
        return Ok(Command::Bad);
    };
    Ok(Command::Fixed { d, t, values })
}

/// The words behind `bytes`: two numbers, or a register, a type and bytes.
pub(crate) fn read_bytes(alloc: Global, words: &mut Words) -> Result<Command, AllocError>
    ensures { IfOk result (λ command. Reads (IsOfForm form.Bytes) operands_of words.old (unless_bad command)) }
{
    if let Some((r, len)) = read_register_and_number(&mut words.ahead()) {
        return Ok(Command::ReadBytes { r, len });
    }
    let Some((d, t)) = read_target(words) else {
        return Ok(Command::Bad);
    };
    let Some(word) = words.next() else {
        return Ok(Command::Bad);
    };
    let Some(bytes) = bytes_of(alloc, word)? else {
        return Ok(Command::Bad);
    };
    match read_end(words) {
        Some(()) => Ok(Command::NewBytes {
            d,
            t,
            bytes: ByteText::from_vec(bytes),
        }),
        None => Ok(Command::Bad),
    }
}
