//! The words of the program.

ghost use Rattle.std.specs.Prelude.{◌≡◌, ◌≤◌, [], ◌∷◌, MatchOption, map, string_bytes};
ghost use Rattle.std.specs.Fmt.{decimal};
ghost use Rattle.gc_commands.specs.Reading.{Reads};
ghost use Rattle.gcsh_top.specs.Words.{FitsTask, IsForm, collector_word, task_words};

use crate::churn::MAX_ROUNDS;
use gc_commands::number;
use gcsh_reports::MAX_INSERTS;

/// The greatest number of pages of a heap.
pub const MAX_PAGES: u64 = 65_535;

/// Which heap a run is over.
#[derive(Clone, Copy, Debug, PartialEq, Eq)]
pub enum Collector {
    Copying,
    Counting,
    Null,
}

/// What a run does with its heap.
#[derive(Clone, Copy, Debug, PartialEq, Eq)]
pub enum Task {
    /// It runs the script that is its input.
    Script,
    /// It makes a script of so many rounds and runs it.
    Churn(u32),
    /// It runs the script that is its input, and reports a path to each object that a root reaches.
    Paths,
    /// It runs the script that is its input, and writes the image of what the globals reach.
    Save,
    /// It loads the image that is its input, and reports what the heap holds then.
    Load,
    /// It makes so many inserts into a map of heap objects, and reports what became of them.
    Lists(u32),
}

/// What the words of the program ask for: a heap, the pages that it begins with, the most
/// pages that it may have, and what is done with it.
#[derive(Clone, Copy, Debug, PartialEq, Eq)]
pub struct Form {
    pub collector: Collector,
    pub first: u32,
    pub most: u32,
    pub task: Task,
}

/// The form that the words of the program, without its own name, are: `COLLECTOR FIRST MOST` with
/// `FIRST <= MOST <= MAX_PAGES`, and behind these none, or `paths`, `save` or `load`, or `churn N` with `N <= MAX_ROUNDS`,
/// or `lists N` with `N <= MAX_INSERTS`. Numbers are plain decimals without leading zeros. None where the words are of
/// no such form.
pub fn parse_words(words: &[String]) -> Option<Form>
    ensures { MatchOption result ((form : Form) → ¬ IsForm (map string_bytes words.now) form) (IsForm (map string_bytes words.now)) }
{
    match words {
        [collector, first, most] => {
            parse_heap(
                collector.as_str(),
                first.as_str(),
                most.as_str(),
                Task::Script,
            )
        }
        [collector, first, most, name] => {
            let task = parse_report(name.as_str())?;
            parse_heap(collector.as_str(), first.as_str(), most.as_str(), task)
        }
        [collector, first, most, name, count] => {
            let task = parse_task(name.as_str(), count.as_str())?;
            parse_heap(collector.as_str(), first.as_str(), most.as_str(), task)
        }
        _ => None,
    }
}

/// The form of these words and that task.
fn parse_heap(collector: &str, first: &str, most: &str, task: Task) -> Option<Form>
    requires { FitsTask task }
    ensures { MatchOption result ((form : Form) → ¬ IsForm (collector.now ∷ first.now ∷ most.now ∷ task_words task) form)
        (IsForm (collector.now ∷ first.now ∷ most.now ∷ task_words task)) }
{
    let collector = parse_collector(collector)?;
    let most = number_of(most, MAX_PAGES)?;
    let first = number_of(first, most)?;
    Some(Form {
        collector,
        first: first as u32,
        most: most as u32,
        task,
    })
}

/// The task that one word asks for, which reads an input and writes a report.
fn parse_report(name: &str) -> Option<Task>
    ensures { MatchOption result ((task : Task) → FitsTask task → ¬ (name.now ∷ [] ≡ task_words task))
        (λ task. FitsTask task × (name.now ∷ [] ≡ task_words task)) }
{
    match name {
        "paths" => Some(Task::Paths),
        "save" => Some(Task::Save),
        "load" => Some(Task::Load),
        _ => None,
    }
}

/// The task that two words ask for, which reads nothing.
fn parse_task(name: &str, count: &str) -> Option<Task>
    ensures { MatchOption result ((task : Task) → FitsTask task → ¬ (name.now ∷ count.now ∷ [] ≡ task_words task))
        (λ task. FitsTask task × (name.now ∷ count.now ∷ [] ≡ task_words task)) }
{
    match name {
        "churn" => {
            let rounds = number_of(count, u64::from(MAX_ROUNDS))?;
            Some(Task::Churn(rounds as u32))
        }
        "lists" => {
            let inserts = number_of(count, u64::from(MAX_INSERTS))?;
            Some(Task::Lists(inserts as u32))
        }
        _ => None,
    }
}

/// The collector that a word names.
fn parse_collector(word: &str) -> Option<Collector>
    ensures { Reads (λ collector. Unit {0}) collector_word word.now result }
{
    match word {
        "copying" => Some(Collector::Copying),
        "counting" => Some(Collector::Counting),
        "null" => Some(Collector::Null),
        _ => None,
    }
}

/// The number that a word spells; None where it spells none that is at most `most`.
fn number_of(word: &str, most: u64) -> Option<u64>
    ensures { Reads (λ n. n ≤ most) decimal word.now result }
{
    number(word.as_bytes(), most)
}
