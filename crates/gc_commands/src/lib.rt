//! The commands of a script and their replies, with the texts that spell them.
//!
//! A line of a script is one command, and each command has one spelling. `parse_line` reads a line,
//! `reply_text` writes a reply. The grammars are in `specs/`: `Spelling` says how a command is
//! spelled, `Text` how a reply is written.
//!
//! What other texts share with a line is public: its words (`words`, `parts`), numbers (`numbers`), hexadecimal digits
//! and bytes (`hex`), the declaration of a type as text (`spelled`), and the types that its words spell (`type_words`).
#![tactic(auto)]

pub mod command;
mod declarations;
pub mod form;
pub mod hex;
pub mod lone;
pub mod new_line;
pub mod numbers;
mod objects;
mod operands;
pub mod parse;
pub mod parts;
mod plain;
pub mod reply;
pub mod spelled;
pub mod text;
pub mod type_words;
mod types;
pub mod words;

pub use command::{
    Command, FieldWord, FieldWords, HeapWord, Operand, Operands, StorageWord, ValueWord, ValueWords,
};
pub use form::Form;
pub use hex::{push_bytes, push_hex};
pub use lone::{Lone, lone_of};
pub use new_line::new_of;
pub use numbers::number;
pub use parse::{MAX_LINE, keep_operands, parse_line, parse_line_into, spelling_is_unique};
pub use reply::{ByteText, Refusal, Reply, ReplyValue};
pub use spelled::push_declaration;
pub use text::{DONE_LINE, fixed_line, push_reply, refusal_line, reply_text};
