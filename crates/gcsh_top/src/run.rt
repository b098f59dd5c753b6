//! Runs the lines of an input as they come.

ghost use Rattle.std.specs.Prelude.{◌≡◌, ◌≤◌, ◌⊎◌, ◌++◌, ℕ, true, false, IfOk, IsErrOf, IsTrue, List, OnErr, OnOk};
ghost use Rattle.gc_commands.specs.Spelling.{IsCommandOf};
ghost use Rattle.gc_script.specs.Cutting.{IsUnfinished, has_feed, kept_of};
ghost use Rattle.gcsh_top.specs.Ends.{TookPart};
ghost use Rattle.gcsh_top.specs.Runs.{BrokeOff, RanLine, RanLines, RanPiece, RanSome, RunsLine, StoppedPiece};
ghost use Rattle.gcsh_top.specs.Written.{WroteAnswer};
ghost use Rattle.gcsh_top.specs.Statuses.{status_of};
ghost use Rattle.gc_model.specs.Allocation.{Limits, Rose};
ghost use Rattle.gc_script.specs.Built.{is_built};
ghost use Rattle.gc_script.specs.Endings.{answer_of, is_quiet};
ghost use Rattle.gc_script.specs.State.{State, HoldsState};
ghost use Rattle.gc_script.specs.Session.{reply_line};
ghost use Rattle.gc_store.specs.Stores.{IsSameStore};
ghost use Rattle.std.specs.Io.KnownBytes.{Appends, Keeps};

use crate::sink::Sink;
use crate::status::Status;
use crate::write::write_all;
use gc_heap::GcHeap;
use gc_script::{
    Command, DONE_LINE, Ending, LineCutter, Operands, Refusal, Reply, RunError, Runner, fixed_line,
    is_quiet, keep_operands, lone_of, new_of, parse_line_into, push_reply, refusal_line,
};
use gc_store::{ResourceLimiter, Store};
use std::alloc::{AllocError, Global};
use thiserror::Error;

/// Why lines were not run to their end.
#[derive(Clone, Copy, Debug, PartialEq, Eq, Error)]
pub(crate) enum LineFault {
    #[error("the sink failed")]
    Sink,
    #[error("out of memory")]
    Memory,
}

impl From<AllocError> for LineFault {
    ghost use Rattle.std.specs.Prelude.{◌≡◌};
    ghost use Rattle.gcsh_top.specs.declared.run.LineFault.TheVariants.{Memory};

    ghost from_gives = { λ _ fault. fault ≡ Memory };

    fn from(_: AllocError) -> LineFault {
        LineFault::Memory
    }
}

impl LineFault {
    /// The status of a run that ends so.
    pub(crate) fn status(self) -> Status
        ensures { result ≡ status_of self }
    {
        match self {
            LineFault::Sink => Status::WriteFault,
            LineFault::Memory => Status::NoMemory,
        }
    }
}

/// What is used again from line to line: the list of a command's operands, and the text of a reply.
#[derive(Drop)]
struct LineRoom {
    operands: Operands,
    text: String,
}

impl LineRoom {
    /// One that has no room yet.
    fn new(alloc: Global) -> LineRoom {
        LineRoom {
            operands: Operands::new(alloc),
            text: String::new(alloc),
        }
    }
}

/// Writes a reply with its line feed. The text is a buffer that is used again.
#[inline(always)]
fn write_reply<K: Sink>(text: &mut String, sink: &mut K, reply: &Reply) -> Result<(), LineFault>
    ensures replied { OnOk result (Appends (K.tells sink.old).held (K.tells sink.new).held (reply_line reply.now)) }
    ensures part { OnErr result (TookPart (K.tells sink.old).held (K.tells sink.new).held (reply_line reply.now)) }
    ensures failed { IsErrOf result LineFault.Sink → Rose (K.tells sink.old).faults (K.tells sink.new).faults }
    ensures faults { (K.tells sink.old).faults ≤ (K.tells sink.new).faults }
{
    if let Some(line) = fixed_line(reply) {
        return write_line(sink, line);
    }
    text.clear();
    if push_reply(text, reply).is_err() || text.push_str("\n").is_err() {
        return Err(LineFault::Memory);
    }
    write_line(sink, text.as_str())
}

/// Writes a reply as it goes out, with its line feed.
#[inline(always)]
fn write_line<K: Sink>(sink: &mut K, line: &str) -> Result<(), LineFault>
    ensures replied { OnOk result (Appends (K.tells sink.old).held (K.tells sink.new).held line.now) }
    ensures part { OnErr result (TookPart (K.tells sink.old).held (K.tells sink.new).held line.now) }
    ensures failed { IsErrOf result LineFault.Sink → Rose (K.tells sink.old).faults (K.tells sink.new).faults }
    ensures faults { (K.tells sink.old).faults ≤ (K.tells sink.new).faults }
{
    match write_all(sink, line.as_bytes()) {
        Ok(()) => Ok(()),
        Err(_) => Err(LineFault::Sink),
    }
}

/// Writes how a command ended that tells nothing, as the reply that it is.
// In place: each reply is the write of a constant.
#[inline(always)]
fn write_ending<K: Sink>(sink: &mut K, ending: Ending) -> Result<(), LineFault>
    ensures wrote { WroteAnswer (answer_of ending) result (K.tells sink.old).held (K.tells sink.new).held }
    ensures failed { IsErrOf result LineFault.Sink → Rose (K.tells sink.old).faults (K.tells sink.new).faults }
    ensures faults { (K.tells sink.old).faults ≤ (K.tells sink.new).faults }
{
    match ending {
        Ending::Done => write_line(sink, DONE_LINE),
        Ending::Refused(why) => write_line(sink, refusal_line(why)),
        Ending::OutOfMemory => Err(LineFault::Memory),
    }
}

/// Runs a command that tells something, and writes its reply.
// Not `inline(always)`: else each line would clear the rooms of replies, also where its command tells nothing.
// It takes the command, as nothing of it is wanted behind.
fn tell<H: GcHeap, K: Sink>(
    runner: &mut Runner,
    store: &mut Store<H, u64>,
    command: Command,
    text: &mut String,
    sink: &mut K,
) -> Result<(), LineFault>
    requires built { is_built command ≡ true }
    requires telling { is_quiet command ≡ false }
    ensures ran { (limits : Limits) → OnOk result ((line : List ℕ) (s : State) → IsCommandOf line command → HoldsState H.KIND store.old runner.old s
        → RanLine H.KIND store.old.alloc_counter limits limits s line store.new runner.new (K.tells sink.old).held (K.tells sink.new).held) }
    ensures broke_off { (limits : Limits) → OnErr result ((line : List ℕ) (s : State) → IsCommandOf line command → HoldsState H.KIND store.old runner.old s
        → BrokeOff H.KIND store.old.alloc_counter limits s line store.new runner.new (K.tells sink.old).held (K.tells sink.new).held) }
    ensures failed { IsErrOf result LineFault.Sink → Rose (K.tells sink.old).faults (K.tells sink.new).faults }
    ensures faults { (K.tells sink.old).faults ≤ (K.tells sink.new).faults }
    ensures same { IsSameStore store.old store.new }
{
    match runner.run_telling(store, &command) {
        Ok(reply) => write_reply(text, sink, &reply),
        Err(RunError::OutOfMemory) => Err(LineFault::Memory),
    }
}

/// Runs a line, and writes its reply.
fn run_line<H: GcHeap, L: ResourceLimiter, K: Sink>(
    alloc: Global,
    runner: &mut Runner,
    store: &mut Store<H, u64>,
    limiter: &mut L,
    line: &[u8],
    room: &mut LineRoom,
    sink: &mut K,
) -> Result<(), LineFault>
    ensures ran { OnOk result ((s : State) → HoldsState H.KIND store.old runner.old s
        → RanLine H.KIND store.old.alloc_counter (L.limits limiter.old) (L.limits limiter.new) s line.now store.new runner.new
        (K.tells sink.old).held (K.tells sink.new).held) }
    ensures broke_off { OnErr result ((s : State) → HoldsState H.KIND store.old runner.old s
        → BrokeOff H.KIND store.old.alloc_counter (L.limits limiter.old) s line.now store.new runner.new
        (K.tells sink.old).held (K.tells sink.new).held) }
    ensures failed { IsErrOf result LineFault.Sink → Rose (K.tells sink.old).faults (K.tells sink.new).faults }
    ensures faults { (K.tells sink.old).faults ≤ (K.tells sink.new).faults }
    ensures same { IsSameStore store.old store.new }
{
    // Told by all its bytes: no command is read.
    if let Some(lone) = lone_of(line) {
        return write_ending(sink, runner.run_lone(store, lone));
    }
    // The same for `new`, whose operands are in the list that is kept.
    let Ok(made) = new_of(&mut room.operands, line) else {
        return Err(LineFault::Memory);
    };
    match made {
        Some((d, t)) => {
            let operands = room.operands.as_slice();
            let ending = runner.make_struct(store, limiter, d, t, operands);
            write_ending(sink, ending)
        }
        None => run_read(alloc, runner, store, limiter, line, room, sink),
    }
}

/// Runs a line by the command that is read from it, and writes its reply.
// A function of its own: else a line that is told by its bytes would clear the rooms of a command.
fn run_read<H: GcHeap, L: ResourceLimiter, K: Sink>(
    alloc: Global,
    runner: &mut Runner,
    store: &mut Store<H, u64>,
    limiter: &mut L,
    line: &[u8],
    room: &mut LineRoom,
    sink: &mut K,
) -> Result<(), LineFault>
    ensures runs { (s : State) → HoldsState H.KIND store.old runner.old s
        → RunsLine H.KIND store.old.alloc_counter (L.limits limiter.old) (L.limits limiter.new) s line.now store.new runner.new
        (K.tells sink.old).held (K.tells sink.new).held result }
    ensures failed { IsErrOf result LineFault.Sink → Rose (K.tells sink.old).faults (K.tells sink.new).faults }
    ensures faults { (K.tells sink.old).faults ≤ (K.tells sink.new).faults }
    ensures same { IsSameStore store.old store.new }
{
    let Ok(command) = parse_line_into(alloc, &mut room.operands, line) else {
        return Err(LineFault::Memory);
    };
    // A line that is no command has the same reply everywhere, and changes nothing.
    if let Command::Bad = command {
        return write_ending(sink, Ending::Refused(Refusal::BadLine));
    }
    if is_quiet(&command) {
        let ending = runner.run_quiet(store, limiter, &command);
        keep_operands(&mut room.operands, command);
        return write_ending(sink, ending);
    }
    tell(runner, store, command, &mut room.text, sink)
}

/// Runs the line of which that is kept, and writes its reply.
fn run_kept<H: GcHeap, L: ResourceLimiter, K: Sink>(
    alloc: Global,
    runner: &mut Runner,
    store: &mut Store<H, u64>,
    limiter: &mut L,
    kept: &LineCutter,
    room: &mut LineRoom,
    sink: &mut K,
) -> Result<(), LineFault>
    ensures ran { OnOk result ((line : List ℕ) (s : State) → kept.now ≡ kept_of line → HoldsState H.KIND store.old runner.old s
        → RanLine H.KIND store.old.alloc_counter (L.limits limiter.old) (L.limits limiter.new) s line store.new runner.new
        (K.tells sink.old).held (K.tells sink.new).held) }
    ensures broke_off { OnErr result ((line : List ℕ) (s : State) → kept.now ≡ kept_of line → HoldsState H.KIND store.old runner.old s
        → BrokeOff H.KIND store.old.alloc_counter (L.limits limiter.old) s line store.new runner.new
        (K.tells sink.old).held (K.tells sink.new).held) }
    ensures failed { IsErrOf result LineFault.Sink → Rose (K.tells sink.old).faults (K.tells sink.new).faults }
    ensures faults { (K.tells sink.old).faults ≤ (K.tells sink.new).faults }
    ensures same { IsSameStore store.old store.new }
{
    if kept.is_long() {
        return write_ending(sink, Ending::Refused(Refusal::BadLine));
    }
    run_line(alloc, runner, store, limiter, kept.line(), room, sink)
}

/// Runs each line that ends in the next piece of an input, and writes its reply as soon as the line is
/// whole. Answers whether there was one. The cutter keeps the line behind them.
fn run_lines<H: GcHeap, L: ResourceLimiter, K: Sink>(
    alloc: Global,
    runner: &mut Runner,
    store: &mut Store<H, u64>,
    limiter: &mut L,
    cutter: &mut LineCutter,
    piece: &[u8],
    sink: &mut K,
) -> Result<bool, LineFault>
    ensures ran { OnOk result ((bytes : List ℕ) (s : State) → IsUnfinished cutter.old bytes → HoldsState H.KIND store.old runner.old s
        → RanPiece H.KIND store.old.alloc_counter (L.limits limiter.old) (L.limits limiter.new) s (bytes ++ piece.now) cutter.new store.old store.new runner.new
        (K.tells sink.old).held (K.tells sink.new).held) }
    ensures stopped { OnErr result ((bytes : List ℕ) (s : State) → IsUnfinished cutter.old bytes → HoldsState H.KIND store.old runner.old s
        → StoppedPiece H.KIND store.old.alloc_counter (L.limits limiter.old) s (bytes ++ piece.now) store.old store.new runner.new
        (K.tells sink.old).held (K.tells sink.new).held) }
    ensures unwritten { IfOk result (λ replied. replied ≡ false → (has_feed piece.now ≡ false) × (K.tells sink.new ≡ K.tells sink.old)) }
    ensures failed { IsErrOf result LineFault.Sink → Rose (K.tells sink.old).faults (K.tells sink.new).faults }
    ensures faults { (K.tells sink.old).faults ≤ (K.tells sink.new).faults }
    ensures same { IsSameStore store.old store.new }
{
    let mut room = LineRoom::new(alloc);
    let mut rest = piece;
    let mut replied = false;
    while !rest.is_empty() {
        if let Some(line) = cutter.whole_line(rest) {
            run_line(alloc, runner, store, limiter, line, &mut room, sink)?;
            rest = &rest[line.len() + 1..];
            replied = true;
        } else {
            let (taken, is_ended) = cutter.feed(rest)?;
            rest = &rest[taken..];
            if is_ended {
                run_kept(alloc, runner, store, limiter, cutter, &mut room, sink)?;
                cutter.clear();
                replied = true;
            }
        }
    }
    Ok(replied)
}

/// Runs each line that ends in the next piece of an input, writes their replies, and flushes these.
/// The cutter keeps the line behind them.
pub(crate) fn run_piece<H: GcHeap, L: ResourceLimiter, K: Sink>(
    alloc: Global,
    runner: &mut Runner,
    store: &mut Store<H, u64>,
    limiter: &mut L,
    cutter: &mut LineCutter,
    piece: &[u8],
    sink: &mut K,
) -> Result<(), LineFault>
    ensures ran { OnOk result ((bytes : List ℕ) (s : State) → IsUnfinished cutter.old bytes → HoldsState H.KIND store.old runner.old s
        → RanPiece H.KIND store.old.alloc_counter (L.limits limiter.old) (L.limits limiter.new) s (bytes ++ piece.now) cutter.new store.old store.new runner.new
        (K.tells sink.old).held (K.tells sink.new).held) }
    ensures stopped { OnErr result ((bytes : List ℕ) (s : State) → IsUnfinished cutter.old bytes → HoldsState H.KIND store.old runner.old s
        → StoppedPiece H.KIND store.old.alloc_counter (L.limits limiter.old) s (bytes ++ piece.now) store.old store.new runner.new
        (K.tells sink.old).held (K.tells sink.new).held) }
    ensures flushed { OnOk result (((has_feed piece.now ≡ false) × (K.tells sink.new ≡ K.tells sink.old)) ⊎ IsTrue (K.tells sink.new).flushed) }
    ensures failed { IsErrOf result LineFault.Sink → Rose (K.tells sink.old).faults (K.tells sink.new).faults }
    ensures faults { (K.tells sink.old).faults ≤ (K.tells sink.new).faults }
    ensures same { IsSameStore store.old store.new }
{
    match run_lines(alloc, runner, store, limiter, cutter, piece, sink) {
        Ok(false) => Ok(()),
        Ok(true) => flush(sink),
        Err(fault) => Err(fault),
    }
}

/// Runs the last line of an input, which its end ends, where that isn't empty, and flushes.
pub(crate) fn run_last<H: GcHeap, L: ResourceLimiter, K: Sink>(
    alloc: Global,
    runner: &mut Runner,
    store: &mut Store<H, u64>,
    limiter: &mut L,
    cutter: &LineCutter,
    sink: &mut K,
) -> Result<(), LineFault>
    ensures ran { OnOk result ((bytes : List ℕ) (s : State) → IsUnfinished cutter.now bytes → HoldsState H.KIND store.old runner.old s
        → RanLines H.KIND store.old.alloc_counter (L.limits limiter.old) (L.limits limiter.new) s bytes store.old store.new runner.new
        (K.tells sink.old).held (K.tells sink.new).held) }
    ensures stopped { OnErr result ((bytes : List ℕ) (s : State) → IsUnfinished cutter.now bytes → HoldsState H.KIND store.old runner.old s
        → RanSome H.KIND store.old.alloc_counter (L.limits limiter.old) s bytes store.old store.new runner.new
        (K.tells sink.old).held (K.tells sink.new).held) }
    ensures flushed { OnOk result (IsTrue (K.tells sink.new).flushed) }
    ensures failed { IsErrOf result LineFault.Sink → Rose (K.tells sink.old).faults (K.tells sink.new).faults }
    ensures faults { (K.tells sink.old).faults ≤ (K.tells sink.new).faults }
    ensures same { IsSameStore store.old store.new }
{
    if cutter.held() == 0 {
        return flush(sink);
    }
    let mut room = LineRoom::new(alloc);
    run_kept(alloc, runner, store, limiter, cutter, &mut room, sink)?;
    flush(sink)
}

/// Flushes what was written.
fn flush<K: Sink>(sink: &mut K) -> Result<(), LineFault>
    ensures bytes { Keeps (K.tells sink.old).held (K.tells sink.new).held }
    ensures flushed { OnOk result (IsTrue (K.tells sink.new).flushed) }
    ensures failed { IsErrOf result LineFault.Sink → Rose (K.tells sink.old).faults (K.tells sink.new).faults }
    ensures faults { (K.tells sink.old).faults ≤ (K.tells sink.new).faults }
{
    match sink.flush() {
        Ok(()) => Ok(()),
        Err(_) => Err(LineFault::Sink),
    }
}
