//! The script that lines of a table stand for.

use crate::page::Page;
use crate::table::kind_of;
use std::alloc::Global;

/// The script of a block. Where `is_ended` is false, nothing is put behind its last line.
pub(crate) fn expand_block(alloc: Global, block: &str, is_ended: bool) -> String {
    let mut script = Page::new(alloc);
    for line in block.lines() {
        if !line.starts_with("//") && kind_of(line).is_none() {
            end_line(&mut script);
            expand(alloc, line, &mut script);
        }
    }
    if is_ended {
        end_line(&mut script);
    }
    script.into_text()
}

/// Puts a line feed behind a script that has a line and doesn't end with one.
fn end_line(script: &mut Page) {
    if !script.as_str().is_empty() && !script.as_str().ends_with('\n') {
        script.push("\n");
    }
}

/// Puts the text that a line stands for behind a script.
fn expand(alloc: Global, line: &str, script: &mut Page) {
    for piece in line.split('{') {
        match piece.split_once('}') {
            Some((repeated, plain)) => {
                push_repeated(alloc, repeated, script);
                push_plain(plain, script)
            }
            None => push_plain(piece, script),
        }
    }
}

/// Puts a text that is written `N*TEXT` behind a script, so many times; of other words nothing.
fn push_repeated(alloc: Global, repeated: &str, script: &mut Page) {
    let (count, plain) = repeated.split_once('*').unwrap_or(("0", ""));
    let count: u32 = count.parse().unwrap_or(0);
    let mut text = Page::new(alloc);
    push_plain(plain, &mut text);
    for _ in 0..count {
        script.push(text.as_str());
    }
}

/// Puts a text behind a script, with the characters that `;` and `^` stand for.
fn push_plain(text: &str, script: &mut Page) {
    for c in text.chars() {
        script.push_char(match c {
            ';' => '\n',
            '^' => '\r',
            c => c,
        });
    }
}
