//! A line that is `new`, with no command made of it.

ghost use Rattle.std.specs.Prelude.{ℕ, List, IfNone, IfOk, IfSome};
ghost use Rattle.gc_commands.specs.declared.command.Command.TheVariants as Command;
ghost use Rattle.gc_commands.specs.declared.command.Operand.{Operand};
ghost use Rattle.gc_commands.specs.Spelling.{IsCommandOf};

use crate::command::Operands;
use crate::objects::read_new_into;
use crate::parse::MAX_LINE;
use crate::words::{Words, behind};
use std::alloc::AllocError;

/// The register and the type of a line, without its line feed, that is `new`; None exactly where it is none. Its operands are
/// then in the list that is handed in, which takes memory only where it has no room for them. Behind None, or want of memory,
/// that list may have any.
#[inline(always)]
pub fn new_of(list: &mut Operands, line: &[u8]) -> Result<Option<(u16, u32)>, AllocError>
    ensures is { IfOk result (λ to. IfSome to (λ at. IsCommandOf line.now (Command.New at.0 at.1 list.new))) }
    ensures none { IfOk result (λ to. IfNone to ((d t : ℕ) (values : List Operand) → ¬ IsCommandOf line.now (Command.New d t values))) }
{
    if line.len() > MAX_LINE {
        return Ok(None);
    }
    let Some(rest) = behind(line, b"new ") else {
        return Ok(None);
    };
    read_new_into(list, &mut Words::of(rest))
}
