//! Runs scripts of heap commands on a store.
//!
//! A `Runner` has the registers of a session and runs one command after another; each is a step of
//! the object table, and the replies to a list of commands are a run of it. `specs/` says what a
//! step is: `Steps` has the tests of each command in their order and what it does, `Run` a whole run.
//! `LineCutter` cuts the bytes of a script into lines as they come (`Cutting`).
#![tactic(auto)]

mod arrays;
mod built;
mod collections;
mod command_values;
pub mod cutter;
mod declare;
pub mod ending;
mod exceptions;
mod fits;
mod frames;
mod globals;
mod growth;
mod hosts;
mod make;
mod objects;
mod operands;
mod owned;
mod reads;
mod references;
mod registers;
pub mod runner;
mod scopes;
pub mod script;
mod shown;
mod values;
mod writes;

pub use cutter::{LineCutter, pieces_give_lines};
pub use ending::{Ending, is_quiet};
pub use gc_commands::{
    ByteText, Command, DONE_LINE, FieldWord, FieldWords, HeapWord, Lone, Operand, Operands,
    Refusal, Reply, ReplyValue, StorageWord, ValueWord, fixed_line, keep_operands, lone_of, new_of,
    parse_line, parse_line_into, push_reply, refusal_line, reply_text,
};
pub use runner::{RunError, Runner};
pub use script::run_script;
pub use shown::shown_root;
