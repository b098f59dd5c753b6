//! Reads an input piece by piece.

ghost use Rattle.std.specs.Prelude.{◌<◌, ◌≤◌, MatchResult, length, take};
ghost use Rattle.gcsh_top.specs.Input.{GavePiece, Unread, max_input};

use crate::source::Source;
use thiserror::Error;

/// An input may have this many bytes.
pub const MAX_INPUT: usize = 16_777_216;

/// Why no next bytes of an input were given.
#[derive(Clone, Copy, Debug, PartialEq, Eq, Error)]
pub(crate) enum ReadFault {
    #[error("the source failed")]
    Source,
    #[error("the input is too long")]
    TooLong,
}

/// Reads the next bytes of an input, of which `given` were given already, into the front of `piece`,
/// and answers how many, which is 0 at the end of the input alone. Asks for no more than an input may
/// have left, and for one byte where that is none, to see that it is too long.
pub(crate) fn read_piece<S: Source>(
    source: &mut S,
    piece: &mut [u8],
    given: usize,
) -> Result<usize, ReadFault>
    requires room { 0 < length piece.old }
    requires short { given ≤ max_input }
    ensures read { MatchResult result (λ n. GavePiece (record { before = S.tells source.old; after = S.tells source.new }) given n (take n piece.new))
        (Unread (record { before = S.tells source.old; after = S.tells source.new }) given) }
    ensures faults { (S.tells source.old).faults ≤ (S.tells source.new).faults }
{
    let left = MAX_INPUT - given;
    let wanted = piece.len().min(left.max(1));
    match source.read(&mut piece[..wanted]) {
        Ok(count) if count > left => Err(ReadFault::TooLong),
        Ok(count) => Ok(count),
        Err(_) => Err(ReadFault::Source),
    }
}
