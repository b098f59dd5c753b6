//! Reads the commands of numbers, registers and single operands.

ghost use Rattle.std.specs.Prelude.{◌≡◌, [], Some};
ghost use Rattle.gc_commands.specs.declared.form.Form.TheVariants as form;
ghost use Rattle.gc_commands.specs.Reading.{Reads};
ghost use Rattle.gc_commands.specs.Forms.{unless_bad};
ghost use Rattle.gc_commands.specs.Spelling.{IsOfForm, operands_of};

use crate::command::Command;
use crate::parts::{
    read_end, read_last_register, read_last_u64, read_place, read_register_and_number,
    read_register_and_wide, read_registers, read_write,
};
use crate::words::Words;

/// The words behind `host`: a register and a number.
#[inline(always)]
pub(crate) fn read_host(words: &mut Words) -> Command
    ensures { Reads (IsOfForm form.Host) operands_of words.old (unless_bad result) }
{
    let Some((d, n)) = read_register_and_wide(words) else {
        return Command::Bad;
    };
    Command::Host { d, n }
}

/// The words behind `i31`: a register and a number.
#[inline(always)]
pub(crate) fn read_i31(words: &mut Words) -> Command
    ensures { Reads (IsOfForm form.I31) operands_of words.old (unless_bad result) }
{
    let Some((d, n)) = read_register_and_number(words) else {
        return Command::Bad;
    };
    Command::I31 { d, n }
}

/// The words behind `field`: a register, an index, and where the value goes.
#[inline(always)]
pub(crate) fn read_field(words: &mut Words) -> Command
    ensures { Reads (IsOfForm form.Field) operands_of words.old (unless_bad result) }
{
    let Some((r, i, into)) = read_place(words) else {
        return Command::Bad;
    };
    Command::Field { r, i, into }
}

/// The words behind `elem`: a register, an index, and where the value goes.
#[inline(always)]
pub(crate) fn read_elem(words: &mut Words) -> Command
    ensures { Reads (IsOfForm form.Elem) operands_of words.old (unless_bad result) }
{
    let Some((r, i, into)) = read_place(words) else {
        return Command::Bad;
    };
    Command::Elem { r, i, into }
}

/// The words behind `setf`: a register, an index and an operand.
#[inline(always)]
pub(crate) fn read_set_field(words: &mut Words) -> Command
    ensures { Reads (IsOfForm form.SetField) operands_of words.old (unless_bad result) }
{
    let Some((r, i, value)) = read_write(words) else {
        return Command::Bad;
    };
    Command::SetField { r, i, value }
}

/// The words behind `sete`: a register, an index and an operand.
#[inline(always)]
pub(crate) fn read_set_elem(words: &mut Words) -> Command
    ensures { Reads (IsOfForm form.SetElem) operands_of words.old (unless_bad result) }
{
    let Some((r, i, value)) = read_write(words) else {
        return Command::Bad;
    };
    Command::SetElem { r, i, value }
}

/// The words behind `grow`: a number.
#[inline(always)]
pub(crate) fn read_grow(words: &mut Words) -> Command
    ensures { Reads (IsOfForm form.Grow) operands_of words.old (unless_bad result) }
{
    let Some(n) = read_last_u64(words) else {
        return Command::Bad;
    };
    Command::Grow { n }
}

/// The words behind `len`: a register.
#[inline(always)]
pub(crate) fn read_len(words: &mut Words) -> Command
    ensures { Reads (IsOfForm form.Len) operands_of words.old (unless_bad result) }
{
    let Some(r) = read_last_register(words) else {
        return Command::Bad;
    };
    Command::Len { r }
}

/// The words behind `data`: a register.
#[inline(always)]
pub(crate) fn read_host_number(words: &mut Words) -> Command
    ensures { Reads (IsOfForm form.HostNumber) operands_of words.old (unless_bad result) }
{
    let Some(r) = read_last_register(words) else {
        return Command::Bad;
    };
    Command::HostNumber { r }
}

/// The words behind `push`: a number of slots.
#[inline(always)]
pub(crate) fn read_push(words: &mut Words) -> Command
    ensures { Reads (IsOfForm form.Push) operands_of words.old (unless_bad result) }
{
    let Some(slots) = read_last_register(words) else {
        return Command::Bad;
    };
    Command::Push { slots }
}

/// The words behind `unroot`: an owned register.
#[inline(always)]
pub(crate) fn read_unroot(words: &mut Words) -> Command
    ensures { Reads (IsOfForm form.Unroot) operands_of words.old (unless_bad result) }
{
    let Some(o) = read_last_register(words) else {
        return Command::Bad;
    };
    Command::Unroot { o }
}

/// The words behind `throw`: a register.
#[inline(always)]
pub(crate) fn read_throw(words: &mut Words) -> Command
    ensures { Reads (IsOfForm form.Throw) operands_of words.old (unless_bad result) }
{
    let Some(r) = read_last_register(words) else {
        return Command::Bad;
    };
    Command::Throw { r }
}

/// The words behind `take`: a register.
#[inline(always)]
pub(crate) fn read_take(words: &mut Words) -> Command
    ensures { Reads (IsOfForm form.Take) operands_of words.old (unless_bad result) }
{
    let Some(d) = read_last_register(words) else {
        return Command::Bad;
    };
    Command::Take { d }
}

/// The words behind `eq`: two registers.
#[inline(always)]
pub(crate) fn read_eq(words: &mut Words) -> Command
    ensures { Reads (IsOfForm form.Eq) operands_of words.old (unless_bad result) }
{
    let Some((r, s)) = read_registers(words) else {
        return Command::Bad;
    };
    Command::Eq { r, s }
}

/// The words behind `store`: a slot and a register.
#[inline(always)]
pub(crate) fn read_store(words: &mut Words) -> Command
    ensures { Reads (IsOfForm form.Store) operands_of words.old (unless_bad result) }
{
    let Some((k, r)) = read_registers(words) else {
        return Command::Bad;
    };
    Command::Store { k, r }
}

/// The words behind `load`: a slot and a register.
#[inline(always)]
pub(crate) fn read_load(words: &mut Words) -> Command
    ensures { Reads (IsOfForm form.Load) operands_of words.old (unless_bad result) }
{
    let Some((k, d)) = read_registers(words) else {
        return Command::Bad;
    };
    Command::Load { k, d }
}

/// The words behind `gset`: a global and a register.
#[inline(always)]
pub(crate) fn read_set_global(words: &mut Words) -> Command
    ensures { Reads (IsOfForm form.SetGlobal) operands_of words.old (unless_bad result) }
{
    let Some((g, r)) = read_registers(words) else {
        return Command::Bad;
    };
    Command::SetGlobal { g, r }
}

/// The words behind `gget`: a global and a register.
#[inline(always)]
pub(crate) fn read_get_global(words: &mut Words) -> Command
    ensures { Reads (IsOfForm form.GetGlobal) operands_of words.old (unless_bad result) }
{
    let Some((g, d)) = read_registers(words) else {
        return Command::Bad;
    };
    Command::GetGlobal { g, d }
}

/// The words behind `own`: an owned register and a register.
#[inline(always)]
pub(crate) fn read_own(words: &mut Words) -> Command
    ensures { Reads (IsOfForm form.Own) operands_of words.old (unless_bad result) }
{
    let Some((o, r)) = read_registers(words) else {
        return Command::Bad;
    };
    Command::Own { o, r }
}

/// The words behind `root`: a register and an owned register.
#[inline(always)]
pub(crate) fn read_root(words: &mut Words) -> Command
    ensures { Reads (IsOfForm form.Root) operands_of words.old (unless_bad result) }
{
    let Some((d, o)) = read_registers(words) else {
        return Command::Bad;
    };
    Command::Root { d, o }
}

/// A command behind whose name no word stands.
// In place: else each call has room for two commands, which the caller clears whatever form it reads.
#[inline(always)]
pub(crate) fn read_alone(words: &mut Words, command: Command) -> Command
    requires { unless_bad command ≡ Some command }
    ensures { Reads (λ c. c ≡ command) (λ c. []) words.old (unless_bad result) }
{
    match read_end(words) {
        Some(()) => command,
        None => Command::Bad,
    }
}
