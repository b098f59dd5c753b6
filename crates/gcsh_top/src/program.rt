//! The program as a whole: what `main` does, over any words and ends.

ghost use Rattle.std.specs.Prelude.{◌≡◌, ◌⊎◌, IfErr, IfOk, MatchOption, List, ℕ, drop, map, string_bytes};
ghost use Rattle.std.specs.IoError.{error_kind};
ghost use Rattle.std.specs.Vec.Iter.{into_iter_items};
ghost use Rattle.gcsh_top.specs.Program.{EndsWith, IsTextFor, ProgramAnswers, RunsOnNew, RunsOver, Shows};
ghost use Rattle.gcsh_top.specs.Statuses.{code_of};

use crate::sink::Sink;
use crate::source::Source;
use crate::standard::{StdSink, StdSource};
use crate::status::Status;
use crate::stores::Stores;
use crate::top::run_words;
use crate::write::write_all;
use std::alloc::{AllocError, Global};
use std::env::Args;
use std::io;
use std::io::{BufWriter, ErrorKind, Read, Write};
use std::marker::Model;
use std::process::{ExitCode, Termination};

/// What `--help` shows.
pub const HELP: &str = "\
gcsh runs a script of heap commands, and writes a reply to each line.

Usage: gcsh COLLECTOR FIRST MOST [paths | save] < SCRIPT
       gcsh COLLECTOR FIRST MOST load < IMAGE
       gcsh COLLECTOR FIRST MOST churn N | lists N, gcsh --help, gcsh --version
COLLECTOR is copying, counting or null. FIRST <= MOST <= 65535 are pages of
65536 bytes: those at first, and the most. paths tells which root keeps what,
save writes a heap image, load takes one; churn, lists make N <= 100000 steps.

types  struct [final] [sub:T] F..  array [final] [sub:T] F  exn W..
make   new D T V..  newarr D T LEN V  fixed D T V..  bytes D T HEX
       newexn D T TAG V..  host D N  i31 D N
read   field R I [D]  elem R I [D]  len R  bytes R LEN  data R  eq R S
write  setf R I V  sete R I V
roots  enter  leave  own O R  root D O  unroot O  throw R  take D
slots  push K  pop  store K R  load K D  gset G R  gget G D
heap   gc  gcinc  gcdrop  grow N  cap
D, R, S, O are registers, 0 to 65535; T a type, counted from 0; I an index. F is
m: or c:, mutable or constant, and i32, any or another type; V is i32:N, or
any:null, or r and a register. All is told in docs/FORMATS.md. To begin with:
  printf 'struct m:i32\\nnew 1 0 i32:5\\nfield 1 0\\n' | gcsh null 1 64
Status: 0 all is done; 1 words of no form above, nothing printed; 2 the input
failed; 3 the output failed; 4 the input is over 16777216 bytes; 5 no memory.
";

/// What `--version` shows.
pub const VERSION: &str = concat!("gcsh ", "0.9.5", "\n");

/// The status that the program ends with. [`gcsh_main`] alone makes one, and none can be dropped, so a `main`
/// that returns one ends with what `gcsh_main` answered.
#[derive(Debug)]
pub struct Exit {
    code: u8,
}

impl Model for Exit {
    ghost use Rattle.std.specs.Prelude.{ℕ};

    ghost Value = { ℕ };

    ghost view = { λ s. s.code };
}

impl Exit {
    /// That of a status.
    fn of(status: Status) -> Exit
        ensures { result ≡ code_of status }
    {
        Exit {
            code: status.code(),
        }
    }
}

impl Termination for Exit {
    ghost use Rattle.std.specs.Prelude.{◌≡◌};
    ghost use Rattle.std.specs.Process.{exit_status};

    fn report<R: io::Eprint>(self, _rt: &R) -> ExitCode
        ensures { exit_status result ≡ self }
    {
        let Exit { code } = self;
        ExitCode::from(code)
    }
}

/// What `main` does: runs the program on the words of the command line, of which the first is its own
/// name, and on the ends that stand for standard input and output. Where a word is no text the status
/// is that of words of no form.
pub fn gcsh_main<R: Read + Drop, W: Write + Drop>(
    alloc: Global,
    args: io::Result<Args>,
    reader: R,
    writer: W,
) -> Exit
    ensures words { IfOk args (λ args. EndsWith HELP.now VERSION.now (map string_bytes (drop 1 (into_iter_items args))) result) }
    ensures no_memory { IfErr args (λ error. error_kind error ≡ ErrorKind.OutOfMemory → result ≡ 5) }
    ensures no_text { IfErr args (λ error. ¬ (error_kind error ≡ ErrorKind.OutOfMemory) → result ≡ 1) }
{
    match args {
        Ok(args) => Exit::of(run_args(alloc, args, reader, writer)),
        Err(error) => Exit::of(status_of(&error)),
    }
}

/// The status where the words of the command line can't be had.
fn status_of(error: &io::Error) -> Status
    ensures no_memory { error_kind error.now ≡ ErrorKind.OutOfMemory → result ≡ Status.NoMemory }
    ensures no_text { ¬ (error_kind error.now ≡ ErrorKind.OutOfMemory) → result ≡ Status.Usage }
{
    match error.kind() {
        ErrorKind::OutOfMemory => Status::NoMemory,
        _ => Status::Usage,
    }
}

/// Runs the program on the words of the command line.
fn run_args<R: Read + Drop, W: Write + Drop>(
    alloc: Global,
    args: Args,
    reader: R,
    writer: W,
) -> Status
    ensures { (result ≡ Status.NoMemory) ⊎ RunsOver HELP.now VERSION.now (map string_bytes (drop 1 (into_iter_items args))) result }
{
    let (Ok(words), Ok(writer)) = (words_of(alloc, args), BufWriter::new(alloc, writer)) else {
        return Status::NoMemory;
    };
    let mut source = StdSource::new(reader);
    let mut sink = StdSink::new(writer);
    run_program(alloc, words.as_slice(), &mut source, &mut sink)
}

/// The words behind the program's name.
fn words_of(alloc: Global, mut args: Args) -> Result<Vec<String>, AllocError>
    ensures { IfOk result (λ words. words.items ≡ drop 1 (into_iter_items args)) }
{
    let mut words = Vec::new(alloc);
    let _name = args.next();
    while let Some(word) = args.next() {
        words.push(word)?;
    }
    Ok(words)
}

/// Runs the program: `words` are those behind its name. `--help` and `--version`, each alone, show a
/// text; all other words go to the top call, on new stores.
pub fn run_program<S: Source, K: Sink>(
    alloc: Global,
    words: &[String],
    source: &mut S,
    sink: &mut K,
) -> Status
    ensures { ProgramAnswers HELP.now VERSION.now (map string_bytes words.now) (record { before = S.tells source.old; after = S.tells source.new })
        (record { before = K.tells sink.old; after = K.tells sink.new }) result }
{
    match shown_text(words) {
        Some(text) => show(text, sink),
        None => run_on_new(alloc, words, source, sink),
    }
}

/// Runs the top call on new stores.
fn run_on_new<S: Source, K: Sink>(
    alloc: Global,
    words: &[String],
    source: &mut S,
    sink: &mut K,
) -> Status
    ensures { RunsOnNew (map string_bytes words.now) (record { before = S.tells source.old; after = S.tells source.new })
        (record { before = K.tells sink.old; after = K.tells sink.new }) result }
{
    match Stores::new(alloc) {
        Ok(mut stores) => {
            let status = run_words(alloc, words, source, sink, &mut stores);
            drop(stores);
            status
        }
        Err(_) => Status::NoMemory,
    }
}

/// The text that the words ask for.
fn shown_text(words: &[String]) -> Option<&'static str>
    ensures { MatchOption result ((text : List ℕ) → ¬ IsTextFor HELP.now VERSION.now (map string_bytes words.now) text)
        (λ text. IsTextFor HELP.now VERSION.now (map string_bytes words.now) text.now) }
{
    let [word] = words else {
        return None;
    };
    match word.as_str() {
        "--help" => Some(HELP),
        "--version" => Some(VERSION),
        _ => None,
    }
}

/// Writes a text, and flushes.
fn show<K: Sink>(text: &str, sink: &mut K) -> Status
    ensures { Shows text.now (record { before = K.tells sink.old; after = K.tells sink.new }) result }
{
    if write_all(sink, text.as_bytes()).is_err() {
        return Status::WriteFault;
    }
    match sink.flush() {
        Ok(()) => Status::Done,
        Err(_) => Status::WriteFault,
    }
}
