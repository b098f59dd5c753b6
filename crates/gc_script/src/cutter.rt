//! Cuts bytes into lines as they come, in pieces of any length.

ghost use Rattle.std.specs.Prelude.{◌≡◌, ◌≤◌, ◌==◌, ℕ, List, IfOk, IfSome, OnErr, OnOk, length, position};
ghost use Rattle.std.specs.List.{concat};
ghost use Rattle.gc_commands.specs.Spelling.{max_line};
ghost use Rattle.gc_script.specs.Cutting.{BeginsWhole, Feeds, FeedsAll, GivesLines, KeptLine, longer, no_line};

use gc_commands::MAX_LINE;
use std::alloc::{AllocError, Global};
use std::marker::Model;

/// Ends a line.
const LINE_FEED: u8 = b'\n';

/// What is kept of an unfinished line: its first `MAX_LINE` bytes at most, and whether there were more.
#[derive(Debug, Drop)]
pub struct LineCutter {
    kept: Vec<u8>,
    is_long: bool,
}

impl Model for LineCutter {
    ghost use Rattle.std.specs.Prelude.{◌≤◌, vec_len};
    ghost use Rattle.gc_commands.specs.Spelling.{max_line};
    ghost use Rattle.gc_script.specs.Cutting.{KeptLine};

    ghost Value = { KeptLine };

    ghost view = { λ s. record { bytes = s.kept.items; is_long = s.is_long } };

    ghost invariant = { λ s. vec_len s.kept ≤ max_line };
}

impl LineCutter {
    /// A cutter at the start of a line.
    pub fn new(alloc: Global) -> LineCutter
        ensures { result ≡ no_line }
    {
        LineCutter {
            kept: Vec::new(alloc),
            is_long: false,
        }
    }

    /// Takes the bytes of `piece` up to and with its first line feed, or all of them where it has
    /// none. Answers how many bytes it took, and whether a line ended: then call `clear` before the
    /// next `feed`. Keeps what it takes, without the line feed, up to `MAX_LINE` bytes of a line.
    pub fn feed(&mut self, piece: &[u8]) -> Result<(usize, bool), AllocError>
        ensures fed { IfOk result (λ fed. Feeds self.old self.new piece.now fed.0 fed.1) }
        ensures unfed { OnErr result (self.new ≡ self.old) }
    {
        match first_line_feed(piece) {
            Some(at) => {
                self.keep(&piece[..at])?;
                Ok((at + 1, true))
            }
            None => {
                self.keep(piece)?;
                Ok((piece.len(), false))
            }
        }
    }

    /// The first line of `piece`, without its line feed, where the cutter is at the start of a line and that one
    /// ends in the piece: then it needs no `feed`, and is copied nowhere.
    #[inline(always)]
    pub fn whole_line<'a>(&self, piece: &'a [u8]) -> Option<&'a [u8]>
        ensures start { IfSome result (λ line. self.now ≡ no_line) }
        ensures begins { IfSome result (λ line. BeginsWhole line.now piece.now) }
    {
        if self.is_long || self.held() > 0 {
            return None;
        }
        let at = first_line_feed(piece)?;
        Some(&piece[..at])
    }

    /// Puts bytes behind those of the line, as far as it may have them.
    fn keep(&mut self, bytes: &[u8]) -> Result<(), AllocError>
        ensures kept { OnOk result (self.new ≡ longer self.old bytes.now) }
        ensures unkept { OnErr result (self.new ≡ self.old) }
    {
        let room = MAX_LINE - self.kept.len();
        let front = &bytes[..bytes.len().min(room)];
        self.kept.extend_from_slice(front)?;
        if front.len() < bytes.len() {
            self.is_long = true;
        }
        Ok(())
    }

    /// The bytes of the line that are kept.
    pub fn line(&self) -> &[u8]
        ensures kept { result.now ≡ self.now.bytes }
        ensures bound { length result.now ≤ max_line }
    {
        self.kept.as_slice()
    }

    /// Whether the line has more bytes than are kept.
    pub fn is_long(&self) -> bool
        ensures { result ≡ self.now.is_long }
    {
        self.is_long
    }

    /// How many bytes are kept.
    pub fn held(&self) -> usize
        ensures kept { result ≡ length self.now.bytes }
        ensures bound { result ≤ max_line }
    {
        self.kept.len()
    }

    /// Goes to the start of the next line. Takes no memory, and keeps the room that it has.
    pub fn clear(&mut self)
        ensures { self.new ≡ no_line }
    {
        self.kept.clear();
        self.is_long = false;
    }
}

/// Where the first line feed stands.
#[inline(always)]
fn first_line_feed(bytes: &[u8]) -> Option<usize>
    ensures { result ≡ position (λ b. b == 10) bytes.now }
{
    bytes.iter().position(|byte| *byte == LINE_FEED)
}

/// Whatever pieces bytes come in: where a cutter is fed them all and cleared behind each line that ended, the
/// lines that ended are those of the bytes up to the last line feed, and what is kept at the end is of the
/// unfinished line, which is the last of all lines where it isn't empty.
pub fn pieces_give_lines()
    ensures { (pieces : List (List ℕ)) (ended : List KeptLine) (last : KeptLine) → FeedsAll no_line pieces ended last → GivesLines (concat pieces) ended last }
{}
