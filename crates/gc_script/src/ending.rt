//! How commands end whose reply is `ok` or a refusal.

ghost use Rattle.std.specs.Prelude.{◌≡◌};
ghost use Rattle.gc_script.specs.Endings.{answer_of, ending_of, is_quiet};

use crate::runner::RunError;
use gc_commands::{Command, Refusal, Reply};

/// How a command ended that tells nothing beside: it was done, it is refused, or memory is wanting.
#[derive(Clone, Copy, Debug, PartialEq, Eq)]
pub enum Ending {
    Done,
    Refused(Refusal),
    OutOfMemory,
}

impl Ending {
    /// That of a command which takes no memory.
    #[inline(always)]
    pub(crate) fn of(done: Result<(), Refusal>) -> Ending
        ensures { result ≡ ending_of done }
    {
        match done {
            Ok(()) => Ending::Done,
            Err(why) => Ending::Refused(why),
        }
    }

    /// The answer to any command that it stands for.
    #[inline(always)]
    pub fn answer(self) -> Result<Reply, RunError>
        ensures { result ≡ answer_of self }
    {
        match self {
            Ending::Done => Ok(Reply::Done),
            Ending::Refused(why) => Ok(Reply::Refused(why)),
            Ending::OutOfMemory => Err(RunError::OutOfMemory),
        }
    }
}

/// Whether a command tells nothing: its reply is `ok` or a refusal, as the one that `throw` always has.
#[inline(always)]
pub fn is_quiet(command: &Command) -> bool
    ensures { result ≡ is_quiet command.now }
{
    match command {
        Command::New { .. } => true,
        Command::NewExn { .. } => true,
        Command::NewArr { .. } => true,
        Command::Fixed { .. } => true,
        Command::NewBytes { .. } => true,
        Command::Host { .. } => true,
        Command::I31 { .. } => true,
        Command::SetField { .. } => true,
        Command::SetElem { .. } => true,
        Command::Enter => true,
        Command::Leave => true,
        Command::Push { .. } => true,
        Command::Pop => true,
        Command::Store { .. } => true,
        Command::SetGlobal { .. } => true,
        Command::Own { .. } => true,
        Command::Root { .. } => true,
        Command::Unroot { .. } => true,
        Command::Throw { .. } => true,
        Command::Grow { .. } => true,
        Command::Bad => false,
        Command::Struct { .. } => false,
        Command::Array { .. } => false,
        Command::Exn { .. } => false,
        Command::ReadBytes { .. } => false,
        Command::Field { .. } => false,
        Command::Elem { .. } => false,
        Command::Len { .. } => false,
        Command::HostNumber { .. } => false,
        Command::Eq { .. } => false,
        Command::Load { .. } => false,
        Command::GetGlobal { .. } => false,
        Command::Take { .. } => false,
        Command::Gc => false,
        Command::GcDrop => false,
        Command::GcInc => false,
        Command::Cap => false,
    }
}
