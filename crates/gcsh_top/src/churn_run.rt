//! Runs the script that `churn` makes, and writes its summary.

ghost use Rattle.std.specs.Prelude.{◌≡◌, ℕ, ◌+◌, ◌*◌, ◌≤◌, false, List, [], ◌∷◌, ◌++◌, Option, Some, None, IfOk, OnErr, OnOk, string_bytes};
ghost use Rattle.gc_commands.specs.declared.command.Command.TheVariants.{Cap};
ghost use Rattle.gc_owner.specs.Limiters.{fresh_limits};
ghost use Rattle.gc_script.specs.Slots.{RunnerView, new_runner};
ghost use Rattle.gc_script.specs.State.{State, HoldsState};
ghost use Rattle.gc_script.specs.Steps.{Step};
ghost use Rattle.gc_store.specs.Stores.{IsSameStore};
ghost use Rattle.gcsh_top.specs.Chosen.{HasSameId};
ghost use Rattle.gcsh_top.specs.Churn.{churn_script, link_fields, max_rounds, round_commands, rounds_up_to};
ghost use Rattle.gcsh_top.specs.ChurnRuns.{Churned, HasRun, RanChurn, StoppedIn, refusals_in, summary_text};
ghost use Rattle.gcsh_top.specs.Reports.{WroteText};
ghost use Rattle.gcsh_top.specs.Runs.{HoldsFirstTable};
ghost use Rattle.gcsh_top.specs.declared.words.Form.{Form};

use crate::churn::{MADE, READ, Round, SLOTS, declare_link};
use crate::report::write_report;
use crate::sink::Sink;
use crate::status::Status;
use crate::words::Form;
use gc_heap::GcHeap;
use gc_script::{Command, Operands, Reply, RunError, Runner, keep_operands, push_reply};
use gc_store::{PageLimit, Store};
use gcsh_reports::next_seed;
use std::alloc::{AllocError, Global};

/// Runs the commands of a script on a store, and counts those that are refused.
#[derive(Drop)]
pub(crate) struct Churner {
    alloc: Global,
    runner: Runner,
    limiter: PageLimit,
    refused: u32,
}

/// What is told of a run: how many commands it had, how many of them were refused, and the replies to
/// the last two.
#[derive(Drop)]
struct Summary {
    commands: u32,
    refused: u32,
    held: Reply,
    capacity: Reply,
}

/// Runs the script of so many rounds, and writes its summary.
pub(crate) fn run_churn<H: GcHeap, K: Sink>(
    alloc: Global,
    form: Form,
    rounds: u32,
    sink: &mut K,
    store: &mut Store<H, u64>,
) -> Status
    requires ready { HoldsFirstTable H.KIND form store.old }
    requires most { rounds ≤ max_rounds }
    ensures ran { Churned H.KIND form rounds (record { before = K.tells sink.old; after = K.tells sink.new }) store.new result }
    ensures same { HasSameId store.old store.new }
{
    let mut churner = Churner::new(alloc, form.most);
    match churner.run_script(store, rounds) {
        Ok(summary) => write_summary(alloc, &summary, sink),
        Err(_) => Status::NoMemory,
    }
}

impl Churner {
    /// One that has run nothing yet, under that limit of pages.
    fn new(alloc: Global, most: u32) -> Churner
        ensures runner { result.runner ≡ new_runner }
        ensures limiter { result.limiter ≡ fresh_limits (Some most) }
        ensures refused { result.refused ≡ 0 }
    {
        Churner {
            alloc,
            runner: Runner::new(alloc),
            limiter: PageLimit::new(most),
            refused: 0,
        }
    }

    /// Runs the script of so many rounds.
    fn run_script<H: GcHeap>(
        &mut self,
        store: &mut Store<H, u64>,
        rounds: u32,
    ) -> Result<Summary, RunError>
        requires most { rounds ≤ max_rounds }
        requires fresh { self.old.refused ≡ 0 }
        ensures ran { IfOk result (λ summary. (form : Form) → HasRun H.KIND form [] [] store.old self.old
            → RanChurn H.KIND form rounds (summary_text summary.commands summary.refused summary.held summary.capacity) store.new) }
        ensures stopped { OnErr result ((form : Form) → HasRun H.KIND form [] [] store.old self.old → StoppedIn H.KIND form (churn_script rounds) store.new) }
        ensures same { IsSameStore store.old store.new }
    {
        self.begin(store)?;
        self.run_rounds(store, rounds)?;
        let held = self.run(store, &Command::Gc)?;
        Ok(Summary {
            commands: 5 * rounds + 4,
            refused: self.refused,
            held,
            capacity: capacity(store),
        })
    }

    /// Declares the type of the objects, and opens the frame that keeps some.
    fn begin<H: GcHeap>(&mut self, store: &mut Store<H, u64>) -> Result<(), RunError>
        requires fresh { self.old.refused ≡ 0 }
        ensures ran { OnOk result ((form : Form) → HasRun H.KIND form [] [] store.old self.old
            → (replies : List Reply) × HasRun H.KIND form (Command.Struct false None link_fields ∷ Command.Push 8 ∷ []) replies store.new self.new) }
        ensures stopped { OnErr result ((form : Form) → HasRun H.KIND form [] [] store.old self.old
            → StoppedIn H.KIND form (Command.Struct false None link_fields ∷ Command.Push 8 ∷ []) store.new) }
        ensures few { self.new.refused ≤ 2 }
        ensures same { IsSameStore store.old store.new }
    {
        let Ok(declare) = declare_link(self.alloc) else {
            return Err(RunError::OutOfMemory);
        };
        self.run(store, &declare)?;
        self.run(store, &Command::Push { slots: SLOTS })?;
        Ok(())
    }

    /// Runs so many rounds.
    fn run_rounds<H: GcHeap>(
        &mut self,
        store: &mut Store<H, u64>,
        rounds: u32,
    ) -> Result<(), RunError>
        requires most { rounds ≤ max_rounds }
        requires few { self.old.refused ≤ 2 }
        ensures ran { OnOk result ((form : Form) (commands : List Command) (replies : List Reply) → HasRun H.KIND form commands replies store.old self.old
            → (all : List Reply) × HasRun H.KIND form (commands ++ rounds_up_to rounds rounds) all store.new self.new) }
        ensures stopped { OnErr result ((form : Form) (commands : List Command) (replies : List Reply) → HasRun H.KIND form commands replies store.old self.old
            → StoppedIn H.KIND form (commands ++ rounds_up_to rounds rounds) store.new) }
        ensures few { self.new.refused ≤ 5 * rounds + 2 }
        ensures same { IsSameStore store.old store.new }
    {
        let mut seed = rounds;
        let mut room = Operands::new(self.alloc);
        for done in 0..rounds {
            seed = next_seed(seed);
            let round = Round {
                number: done + 1,
                seed,
            };
            self.run_round(store, round, &mut room)?;
        }
        Ok(())
    }

    /// Runs a round: its object names what it reads from one slot, and is kept in another. The list of its operands is used
    /// again.
    fn run_round<H: GcHeap>(
        &mut self,
        store: &mut Store<H, u64>,
        round: Round,
        room: &mut Operands,
    ) -> Result<(), RunError>
        requires number { round.number ≤ max_rounds }
        requires few { self.old.refused ≤ 5 * max_rounds }
        ensures ran { OnOk result ((form : Form) (commands : List Command) (replies : List Reply) → HasRun H.KIND form commands replies store.old self.old
            → (all : List Reply) × HasRun H.KIND form (commands ++ round_commands round.number round.seed) all store.new self.new) }
        ensures stopped { OnErr result ((form : Form) (commands : List Command) (replies : List Reply) → HasRun H.KIND form commands replies store.old self.old
            → StoppedIn H.KIND form (commands ++ round_commands round.number round.seed) store.new) }
        ensures few { self.new.refused ≤ self.old.refused + 5 }
        ensures same { IsSameStore store.old store.new }
    {
        self.run(store, &Command::Enter)?;
        let k = round.slot_read();
        self.run(store, &Command::Load { k, d: READ })?;
        let Ok(make) = round.make(self.alloc, room) else {
            return Err(RunError::OutOfMemory);
        };
        self.run(store, &make)?;
        keep_operands(room, make);
        let k = round.slot_set();
        self.run(store, &Command::Store { k, r: MADE })?;
        self.run(store, &Command::Leave)?;
        Ok(())
    }

    /// Runs one command.
    // In place, so that `run_one` stands where the command is known.
    #[inline(always)]
    fn run<H: GcHeap>(
        &mut self,
        store: &mut Store<H, u64>,
        command: &Command,
    ) -> Result<Reply, RunError>
        requires few { self.old.refused ≤ 1000000 }
        ensures ran { IfOk result (λ reply. (form : Form) (commands : List Command) (replies : List Reply)
            → HasRun H.KIND form commands replies store.old self.old
            → HasRun H.KIND form (commands ++ command.now ∷ []) (replies ++ reply ∷ []) store.new self.new) }
        ensures stopped { OnErr result ((form : Form) (commands : List Command) (replies : List Reply) → HasRun H.KIND form commands replies store.old self.old
            → StoppedIn H.KIND form (commands ++ command.now ∷ []) store.new) }
        ensures few { self.new.refused ≤ self.old.refused + 1 }
        ensures same { IsSameStore store.old store.new }
    {
        let reply = self.runner.run_one(store, &mut self.limiter, command)?;
        self.refused += refusals(&reply);
        Ok(reply)
    }
}

/// 1 for a refusal, and 0 for any other reply.
fn refusals(reply: &Reply) -> u32
    ensures { result ≡ refusals_in (reply.now ∷ []) }
{
    match reply {
        Reply::Refused(_) => 1,
        _ => 0,
    }
}

/// `cap`, which asks for the heap's bytes. The store is only read, so what a collection kept is all that it holds still.
fn capacity<H: GcHeap>(store: &Store<H, u64>) -> Reply
    ensures step { (limit : Option ℕ) (s : State) (runner : RunnerView) → HoldsState H.KIND store.now runner s → Step H.KIND limit s Cap result s }
    ensures told { refusals_in (result ∷ []) ≡ 0 }
{
    Reply::Capacity(store.gc_heap_capacity() as u64)
}

/// Writes a summary, and flushes.
fn write_summary<K: Sink>(alloc: Global, summary: &Summary, sink: &mut K) -> Status
    ensures { WroteText (summary_text summary.now.commands summary.now.refused summary.now.held summary.now.capacity)
        (record { before = K.tells sink.old; after = K.tells sink.new }) result }
{
    let Ok(text) = text_of(alloc, summary) else {
        return Status::NoMemory;
    };
    write_report(sink, text.as_bytes())
}

/// The text of a summary.
fn text_of(alloc: Global, summary: &Summary) -> Result<String, AllocError>
    ensures { IfOk result (λ text. string_bytes text ≡ summary_text summary.now.commands summary.now.refused summary.now.held summary.now.capacity) }
{
    let Summary {
        commands,
        refused,
        held,
        capacity,
    } = summary;
    let mut text = String::new(alloc);
    write!(text, "commands {commands}\nrefused {refused}\n")?;
    push_reply(&mut text, held)?;
    text.push_str("\n")?;
    push_reply(&mut text, capacity)?;
    text.push_str("\n")?;
    Ok(text)
}
