//! Commands that are one word and tell nothing beside `ok` or a refusal, by their whole line.

ghost use Rattle.std.specs.Prelude.{IfNone, IfSome};
ghost use Rattle.gc_commands.specs.LoneCommands.{lone_command};
ghost use Rattle.gc_commands.specs.Spelling.{IsCommandOf};

/// A command of one word whose reply is `ok` or a refusal: three of the seven whose name stands alone.
#[derive(Clone, Copy, Debug, PartialEq, Eq)]
pub enum Lone {
    Enter,
    Leave,
    Pop,
}

/// The command that a line, without its line feed, is; None exactly where it is none of these. Takes no memory.
#[inline(always)]
pub fn lone_of(line: &[u8]) -> Option<Lone>
    ensures is { IfSome result (λ lone. IsCommandOf line.now (lone_command lone)) }
    ensures none { IfNone result ((lone : Lone) → ¬ IsCommandOf line.now (lone_command lone)) }
{
    match line {
        b"enter" => Some(Lone::Enter),
        b"leave" => Some(Lone::Leave),
        b"pop" => Some(Lone::Pop),
        _ => None,
    }
}
