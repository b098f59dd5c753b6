//! The top of the program: its words, its ends, and the loops over them.
//!
//! A run reads from a `Source` and writes to a `Sink`. What the world does stands behind these two
//! traits: a fault of an end is counted by it, so that whoever is told of a fault can see its cause.
//! `MemSource` and `MemSink` tell their bytes, so that all that a run does can be stated of them;
//! `StdSource` and `StdSink` stand before standard input and output, and tell counts alone.
//! The definitions are in `specs/`: `Ends` (what sources and sinks tell, and what reads and writes do),
//! `Memory` (the ends in memory), `Input` (what reading an input comes to), `Words` (the words of the
//! program), `Runs` (what running lines leaves), `Reports` (texts behind a run), `Churn` (the script that is made), `ChurnRuns` (what running
//! it leaves), `Answers` (what the top call answers).
#![tactic(auto)]

mod churn;
mod churn_run;
mod lists;
mod load;
pub mod memory;
pub mod program;
pub mod read;
mod report;
mod run;
mod silence;
pub mod sink;
pub mod source;
pub mod standard;
pub mod status;
pub mod stores;
pub mod top;
pub mod words;
pub mod write;

pub use churn::MAX_ROUNDS;
pub use memory::{MemSink, MemSource};
pub use program::{Exit, HELP, VERSION, gcsh_main, run_program};
pub use read::MAX_INPUT;
pub use sink::{Sink, SinkFault};
pub use source::{Source, SourceFault};
pub use standard::{StdSink, StdSource};
pub use status::Status;
pub use stores::Stores;
pub use top::{gcsh_top, statuses_are_exact};
pub use words::{Collector, Form, MAX_PAGES, Task, parse_words};
pub use write::write_all;
