//! `gcsh`: runs a script of heap commands, one reply a line.
#![tactic(auto)]

use gcsh_top::{Exit, gcsh_main};
use std::{env, io};

fn main(rt: HostRuntime) -> Exit {
    gcsh_main(rt.alloc(), env::args(&rt), rt.reader(), io::writer(&rt))
}
