//! `gcsh` over ends that fail: with what status it ends. And whether its two texts, and the words of no form, are those that stand in
//! files, which the script `gcsh` at the top of the repository answers by.
#![tactic(auto)]

mod ends;
mod texts;

use crate::ends::{no_memory, read_fault, too_long, write_fault};
use crate::texts::{count_formless, has_text};
use gcsh_top::{HELP, VERSION};
use std::alloc::AllocError;
use std::process::ExitCode;
use std::{fs, io};
use thiserror::Error;

/// Why not all is shown.
#[derive(Debug, Drop, Error)]
enum ShowFault {
    #[error(transparent)]
    File(#[from] io::Error),
    #[error(transparent)]
    Memory(#[from(alloc)] AllocError),
}

/// Writes the statuses over ends that fail.
fn push_statuses(rt: &HostRuntime, out: &mut String) -> Result<(), AllocError> {
    let ends = [
        ("a read fails", read_fault(rt)),
        ("a write fails", write_fault(rt)),
        ("the input has no end", too_long(rt)),
        ("no memory", no_memory(rt)),
    ];
    for (what, code) in ends {
        writeln!(out, "{what}: {code:?}")?;
    }
    Ok(())
}

/// Writes whether the files are as the program is.
fn push_files(rt: &HostRuntime, out: &mut String) -> Result<(), ShowFault> {
    let has_help = has_text(rt, "help.txt", HELP)?;
    let has_version = has_text(rt, "version.txt", VERSION)?;
    let table = fs::read_to_string(rt, "words.txt")?;
    let count = count_formless(rt.alloc(), table.as_str(), out)?;
    writeln!(
        out,
        "help {has_help}, version {has_version}, of no form {count}"
    )?;
    Ok(())
}

fn main(rt: HostRuntime) -> Result<ExitCode, ShowFault> {
    let mut out = String::new(rt.alloc());
    push_statuses(&rt, &mut out)?;
    push_files(&rt, &mut out)?;
    print!(&rt; "{out}")?;
    Ok(read_fault(&rt))
}
