//! Runs the worked sessions of a table, which comes on standard input, and prints what each gives.
//!
//! The table consists of blocks, with an empty line between two. A block has headers and the lines of a script, which each header runs; lines
//! that begin with `//` say nothing. In a line of a script `{N*TEXT}` stands for N times the text, `;` for a line feed and `^` for a
//! carriage return. Each line ends with a line feed in the script, where its own text doesn't already.
//!
//! A header begins with a mark that tells what is run, and has options behind a `|` each:
//!
//! - `# WORDS` runs the top call with these words, the script being its input. Printed are the header, what the sink took, and
//!   `status N`, or `status N within a line` where the last line that the sink took is cut. Options: `| reads N..` and
//!   `| writes N..` number the reads and writes that fail (write 0 is the flush), `| room N` is the room of the sink in bytes, and
//!   with `| unended` the last line has no line feed. With `| folded` lines that stand several times in a row are printed once, as
//!   `{N*LINE}`.
//! - `~ WORDS` runs the top call with these words over a reader of the script and a writer. Printed are the header, each of their
//!   calls (`read N: M` for one that asks for N bytes and is given M, `write N: TEXT` for one of N bytes of which TEXT was taken,
//!   `flush`; one that fails has `fault` behind it), and `status N`. Options: `| gives N` and `| takes N` are the most bytes of a
//!   read and of a write; `| reads N`, `| writes N` and `| flushes N` number the one that fails; with `| from N` the reads
//!   before the N-th are not printed; with `| unended` the last line has no line feed.
//! - `! COLLECTOR FIRST MAX_ROOTS` runs the script on a new store whose heap begins with FIRST pages
//!   and which may have so many scoped roots, and as many owned ones. Printed are the header, each reply, `refusals N` and
//!   `last FROM TO`, the last ask that the limiter refused, or `last none`. The limiter answers by the list of
//!   `| answers yes no..` and yes behind it. With `| counter N` each N-th allocation
//!   collects first. With `| function` global 0 names a struct of type 1 whose field holds a function, of type 0; with
//!   `| continuation` one of type 0 whose field holds a continuation; with `| dropped N` the heap has grown by a byte, and a
//!   collection of it was dropped after N increments. Lines `---` cut the script into several, which the store runs one after the
//!   other, each with unset registers.
//! - `= SCRIPT OUTPUT WORDS` runs the top call with these words on an example, whose script and output are files of the folder in which
//!   the program runs. Printed are the header and `ok`, or what it gives in place of that output. It has no options and no script.
//!
//! What the table must give, in `stdout`, was worked out by hand from the rules in docs/.
#![tactic(auto)]

mod ends;
mod example;
mod expand;
mod opaque;
mod page;
mod runs;
mod stores;
mod table;
mod traced;

use crate::table::table_answers;
use std::io;

fn main(rt: HostRuntime) -> io::Result<()> {
    let table = io::read_to_string(rt.alloc(), rt.reader())?;
    let shown = table_answers(&rt, table.as_str())?;
    print!(rt; "{shown}")
}
