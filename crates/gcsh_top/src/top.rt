//! The top call of the program.

ghost use Rattle.std.specs.Prelude.{◌≡◌, ◌+◌, ◌≤◌, ◌⊎◌, ◌↔◌, ℕ, List, length, map, string_bytes};
ghost use Rattle.gc_store.specs.Stores.{HoldsStart};
ghost use Rattle.gc_view.specs.Pages.{max_pages};
ghost use Rattle.gc_model.specs.Allocation.{Rose};
ghost use Rattle.gcsh_top.specs.Answers.{TopAnswers, IsShort, RanOn, RanTask, RanWords};
ghost use Rattle.gcsh_top.specs.Chosen.{AreNew, HasSameId};
ghost use Rattle.gcsh_top.specs.Runs.{HoldsFirstTable};
ghost use Rattle.gcsh_top.specs.Statuses.{code_of};
ghost use Rattle.gcsh_top.specs.Ends.{Gave, SinkRun, SourceRun};
ghost use Rattle.gcsh_top.specs.Input.{max_input};
ghost use Rattle.gcsh_top.specs.Words.{FitsTask, IsForm, ReadsNothing};
ghost use Rattle.gcsh_top.specs.declared.status.Status.{Status};
ghost use Rattle.gcsh_top.specs.declared.stores.Stores.{Stores};
ghost use Rattle.gcsh_top.specs.declared.words.Form.{Form};

use crate::churn_run::run_churn;
use crate::lists::run_lists;
use crate::load::run_load;
use crate::read::{ReadFault, read_piece};
use crate::report::{run_paths, run_save};
use crate::run::{run_last, run_piece};
use crate::sink::Sink;
use crate::source::Source;
use crate::status::Status;
use crate::stores::Stores;
use crate::words::{Collector, Form, Task, parse_words};
use gc_heap::GcHeap;
use gc_script::{LineCutter, Runner};
use gc_store::{HeapConfig, PageLimit, Store};
use std::alloc::Global;

/// A read asks for this many bytes at most.
pub(crate) const PIECE: usize = 65_536;

/// Runs the program: `words` are those behind its name. The chosen store begins with FIRST pages,
/// and has at most MOST. Each line of the input is run as soon as it is whole, and its reply written,
/// with a line feed; what was written is flushed before more is read. With `churn N` behind MOST nothing is
/// read: a script of N rounds is made and run, and its summary written. With `paths` no reply is written: behind
/// the script the report is written of a path to each object that a root reaches; with `save` it is the image of
/// what the globals reach. With `load` the input is an image, which is loaded; what the heap holds then is written.
/// With `lists N` nothing is read: a map of heap objects gets N inserts, and what became of them is written. The
/// answer is the number of a [`Status`], which the program ends with.
pub fn gcsh_top<S: Source, K: Sink>(
    alloc: Global,
    words: &[String],
    source: &mut S,
    sink: &mut K,
    stores: &mut Stores,
) -> u8
    requires { AreNew stores.old }
    ensures answers { (status : Status) × (result ≡ code_of status) × TopAnswers (map string_bytes words.now)
        (record { before = S.tells source.old; after = S.tells source.new }) (record {
          before = K.tells sink.old;
          after = K.tells sink.new;
        }) stores.old stores.new status }
    ensures untouched { result ≡ 1 → (source.new ≡ source.old) × (sink.new ≡ sink.old) × (stores.new ≡ stores.old) }
    ensures unread { (form : Form) → IsForm (map string_bytes words.now) form → ReadsNothing form.task → source.new ≡ source.old }
{
    run_words(alloc, words, source, sink, stores).code()
}

/// Runs the program on its words.
pub(crate) fn run_words<S: Source, K: Sink>(
    alloc: Global,
    words: &[String],
    source: &mut S,
    sink: &mut K,
    stores: &mut Stores,
) -> Status
    requires { AreNew stores.old }
    ensures answers { TopAnswers (map string_bytes words.now) (record { before = S.tells source.old; after = S.tells source.new })
        (record { before = K.tells sink.old; after = K.tells sink.new }) stores.old stores.new result }
    ensures untouched { result ≡ Status.Usage → (source.new ≡ source.old) × (sink.new ≡ sink.old) × (stores.new ≡ stores.old) }
    ensures unread { (form : Form) → IsForm (map string_bytes words.now) form → ReadsNothing form.task → source.new ≡ source.old }
{
    let Some(form) = parse_words(words) else {
        return Status::Usage;
    };
    match form.collector {
        Collector::Copying => run_on(alloc, form, source, sink, &mut stores.copying),
        Collector::Counting => run_on(alloc, form, source, sink, &mut stores.counting),
        Collector::Null => run_on(alloc, form, source, sink, &mut stores.null),
    }
}

/// Runs the program on a new store.
fn run_on<H: GcHeap, S: Source, K: Sink>(
    alloc: Global,
    form: Form,
    source: &mut S,
    sink: &mut K,
    store: &mut Store<H, u64>,
) -> Status
    requires first { form.first ≤ max_pages }
    requires fits { FitsTask form.task }
    requires start { HoldsStart ℕ H.KIND store.old }
    ensures ran { RanTask form.task H.KIND form (record { before = S.tells source.old; after = S.tells source.new })
        (record { before = K.tells sink.old; after = K.tells sink.new }) store.new result }
    ensures unread { ReadsNothing form.task → source.new ≡ source.old }
    ensures same { HasSameId store.old store.new }
{
    configure(form, store);
    match form.task {
        Task::Script => run_form(alloc, form, source, sink, store),
        Task::Churn(rounds) => run_churn(alloc, form, rounds, sink, store),
        Task::Paths => run_paths(alloc, form, source, sink, store),
        Task::Save => run_save(alloc, form, source, sink, store),
        Task::Load => run_load(alloc, form, source, sink, store),
        Task::Lists(inserts) => run_lists(alloc, form, inserts, sink, store),
    }
}

/// Lets a new store begin with the pages of the form.
fn configure<H: GcHeap>(form: Form, store: &mut Store<H, u64>)
    requires first { form.first ≤ max_pages }
    requires start { HoldsStart ℕ H.KIND store.old }
    ensures ready { HoldsFirstTable H.KIND form store.new }
    ensures same { HasSameId store.old store.new }
{
    let Some(config) = HeapConfig::with_pages(form.first) else {
        unreachable!()
    };
    store.configure(config);
}

/// Runs an input, piece by piece, on the store that the form chooses.
pub(crate) fn run_form<H: GcHeap, S: Source, K: Sink>(
    alloc: Global,
    form: Form,
    source: &mut S,
    sink: &mut K,
    store: &mut Store<H, u64>,
) -> Status
    requires { HoldsFirstTable H.KIND form store.old }
    ensures ran { RanOn H.KIND form (record { before = S.tells source.old; after = S.tells source.new })
        (record { before = K.tells sink.old; after = K.tells sink.new }) store.new result }
    ensures same { HasSameId store.old store.new }
{
    let mut limiter = PageLimit::new(form.most);
    let mut runner = Runner::new(alloc);
    let mut cutter = LineCutter::new(alloc);
    let Ok(mut piece) = vec![in alloc; 0u8; PIECE] else {
        return Status::NoMemory;
    };
    let mut given = 0;
    loop {
        let count = match read_piece(source, &mut piece, given) {
            Ok(count) => count,
            Err(ReadFault::Source) => return Status::ReadFault,
            Err(ReadFault::TooLong) => return Status::TooLong,
        };
        if count == 0 {
            break;
        }
        given += count;
        let front = &piece[..count];
        if let Err(fault) = run_piece(
            alloc,
            &mut runner,
            store,
            &mut limiter,
            &mut cutter,
            front,
            sink,
        ) {
            return fault.status();
        }
    }
    match run_last(alloc, &mut runner, store, &mut limiter, &cutter, sink) {
        Ok(()) => Status::Done,
        Err(fault) => fault.status(),
    }
}

/// What the answer decides: it is `Usage` exactly where the words are of no form; else the source gave
/// one byte more than an input may have exactly at `TooLong`, and no more at any status; and where the
/// words are of a form, no end failed and the input is not too long, it is `Done` or `NoMemory`.
pub fn statuses_are_exact()
    ensures usage { (words : List (List ℕ)) (source : SourceRun) (sink : SinkRun) (old new : Stores) (status : Status)
        → TopAnswers words source sink old new status
        → (status ≡ Status.Usage) ↔ ((form : Form) → ¬ IsForm words form) }
    ensures given { (words : List (List ℕ)) (source : SourceRun) (sink : SinkRun) (old new : Stores) (status : Status)
        → RanWords words source sink old new status
        → (bytes : List ℕ) × Gave source bytes × (length bytes ≤ max_input + 1) × ((status ≡ Status.TooLong) ↔ (length bytes ≡ max_input + 1)) }
    ensures complete { (words : List (List ℕ)) (source : SourceRun) (sink : SinkRun) (old new : Stores) (status : Status) (form : Form)
        → TopAnswers words source sink old new status
        → IsForm words form → ¬ Rose source.before.faults source.after.faults → ¬ Rose sink.before.faults sink.after.faults
        → IsShort source.before.left source.before.given source.after.given → (status ≡ Status.Done) ⊎ (status ≡ Status.NoMemory) }
{}
