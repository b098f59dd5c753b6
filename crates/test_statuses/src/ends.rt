//! Ends that fail, and with what status `gcsh` ends over them.

use gcsh_top::gcsh_main;
use std::io::{ErrorKind, Read, Write};
use std::process::{ExitCode, Termination};
use std::{env, io};

/// A reader whose reads fail, and a writer whose writes and flushes do.
#[derive(Drop)]
struct Broken;

impl Read for Broken {
    fn read(&mut self, _buf: &mut [u8]) -> io::Result<usize> {
        Err(ErrorKind::Other.into())
    }
}

impl Write for Broken {
    fn write(&mut self, _bytes: &[u8]) -> io::Result<usize> {
        Err(ErrorKind::Other.into())
    }

    fn flush(&mut self) -> io::Result<()> {
        Err(ErrorKind::Other.into())
    }
}

/// An input that can't be read.
pub(crate) fn read_fault(rt: &HostRuntime) -> ExitCode {
    gcsh_main(rt.alloc(), env::args(rt), Broken, io::writer(rt)).report(rt)
}

/// An output that can't be written, where a reply is due.
pub(crate) fn write_fault(rt: &HostRuntime) -> ExitCode {
    gcsh_main(rt.alloc(), env::args(rt), b"cap\n".as_slice(), Broken).report(rt)
}

/// An input without an end.
pub(crate) fn too_long(rt: &HostRuntime) -> ExitCode {
    let input = io::repeat(b'a');
    gcsh_main(rt.alloc(), env::args(rt), input, io::writer(rt)).report(rt)
}

/// No memory for the words of the command line.
pub(crate) fn no_memory(rt: &HostRuntime) -> ExitCode {
    let no_words = Err(ErrorKind::OutOfMemory.into());
    gcsh_main(rt.alloc(), no_words, rt.reader(), io::writer(rt)).report(rt)
}
