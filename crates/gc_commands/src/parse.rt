//! Reads a line of a script.
//!
//! A line is cut into words, its first word says which form of command it is, and each form has a
//! function that reads the words behind it, and answers `Bad` where they spell no command of the form.

ghost use Rattle.std.specs.Prelude.{◌≡◌, false, IfOk};
ghost use Rattle.gc_commands.specs.declared.command.Command.{Command};
ghost use Rattle.gc_commands.specs.Forms.{has_list, unless_bad};
ghost use Rattle.gc_commands.specs.Kept.{operands_kept};
ghost use Rattle.gc_commands.specs.Reading.{Reads};
ghost use Rattle.gc_commands.specs.Spelling.{FitsCommand, IsCommandOf, IsOfForm, operands_of, spelling};

use crate::command::{Command, Operands};
use crate::declarations::{read_array, read_exn, read_struct};
use crate::form::{Form, cut_form};
use crate::objects::{read_bytes, read_fixed, read_new, read_new_arr, read_new_exn};
use crate::plain::{
    read_alone, read_elem, read_eq, read_field, read_get_global, read_grow, read_host,
    read_host_number, read_i31, read_len, read_load, read_own, read_push, read_root, read_set_elem,
    read_set_field, read_set_global, read_store, read_take, read_throw, read_unroot,
};
use crate::words::Words;
use std::alloc::{AllocError, Global};

/// A line may have this many bytes without its line feed.
pub const MAX_LINE: usize = 1_048_576;

/// The command that a line, without its line feed, is: the one that it spells, and `Bad` where it
/// spells none. Numbers are plain decimals without leading zeros, words have one space between
/// them, and a line of more than `MAX_LINE` bytes is `Bad`. Takes time linear in the line, and
/// memory for the fields, values or bytes of its list, where its form has one.
pub fn parse_line(alloc: Global, line: &[u8]) -> Result<Command, AllocError>
    ensures { IfOk result (λ command. IsCommandOf line.now command) }
{
    parse_line_into(alloc, &mut Operands::new(alloc), line)
}

/// The command that a line is, as `parse_line` says. Its operands, where it has a list of them, are in the vector of the list
/// that is handed in, which takes memory only where it has no room for them. `keep_operands` gives that list back.
#[inline(always)]
pub fn parse_line_into(
    alloc: Global,
    room: &mut Operands,
    line: &[u8],
) -> Result<Command, AllocError>
    ensures { IfOk result (λ command. IsCommandOf line.now command) }
{
    if line.len() > MAX_LINE {
        return Ok(Command::Bad);
    }
    let Some((form, behind)) = cut_form(line) else {
        return Ok(Command::Bad);
    };
    read_form(alloc, room, form, &mut Words::behind_name(behind))
}

/// The command of a form that the words behind its name spell, and `Bad` where they spell none. Only a list takes memory.
// The hint is followed while all that it puts in place stays small: so of the forms with a list only `new` is read in place.
#[inline(always)]
fn read_form(
    alloc: Global,
    room: &mut Operands,
    form: Form,
    words: &mut Words,
) -> Result<Command, AllocError>
    ensures { IfOk result (λ command. Reads (IsOfForm form) operands_of words.old (unless_bad command)) }
{
    match form {
        Form::Struct => read_struct(alloc, words),
        Form::Exn => read_exn(alloc, words),
        Form::New => read_new(alloc, room, words),
        Form::NewExn => read_new_exn(alloc, room, words),
        Form::Fixed => read_fixed(alloc, room, words),
        Form::Bytes => read_bytes(alloc, words),
        _ => Ok(read_listless(form, words)),
    }
}

/// The command of a form without a list that the words behind its name spell, and `Bad` where they spell none.
// Each arm is the answer as it is: an `Ok` around it would be one more room for a command in each arm, and all of
// them are cleared whatever the form is.
#[inline(always)]
fn read_listless(form: Form, words: &mut Words) -> Command
    requires { has_list form ≡ false }
    ensures { Reads (IsOfForm form) operands_of words.old (unless_bad result) }
{
    match form {
        Form::Enter => read_alone(words, Command::Enter),
        Form::Leave => read_alone(words, Command::Leave),
        Form::Pop => read_alone(words, Command::Pop),
        Form::Gc => read_alone(words, Command::Gc),
        Form::GcDrop => read_alone(words, Command::GcDrop),
        Form::GcInc => read_alone(words, Command::GcInc),
        Form::Cap => read_alone(words, Command::Cap),
        Form::Array => read_array(words),
        Form::NewArr => read_new_arr(words),
        Form::Host => read_host(words),
        Form::I31 => read_i31(words),
        Form::Field => read_field(words),
        Form::Elem => read_elem(words),
        Form::SetField => read_set_field(words),
        Form::SetElem => read_set_elem(words),
        Form::Grow => read_grow(words),
        Form::Len => read_len(words),
        Form::HostNumber => read_host_number(words),
        Form::Eq => read_eq(words),
        Form::Push => read_push(words),
        Form::Store => read_store(words),
        Form::Load => read_load(words),
        Form::SetGlobal => read_set_global(words),
        Form::GetGlobal => read_get_global(words),
        Form::Own => read_own(words),
        Form::Root => read_root(words),
        Form::Unroot => read_unroot(words),
        Form::Throw => read_throw(words),
        Form::Take => read_take(words),
        _ => unreachable!(),
    }
}

/// Keeps the list of a command's operands, where it has one, so that `parse_line_into` uses its room again. Takes no memory.
#[inline(always)]
pub fn keep_operands(room: &mut Operands, command: Command)
    ensures { room.new ≡ operands_kept command room.old }
{
    match command {
        Command::New { values, .. } => *room = values,
        Command::NewExn { values, .. } => *room = values,
        Command::Fixed { values, .. } => *room = values,
        _ => {}
    }
}

/// No two commands have one spelling.
pub fn spelling_is_unique()
    ensures { (one other : Command) → FitsCommand one → FitsCommand other → spelling one ≡ spelling other → one ≡ other }
{}
