//! The program: it serves a script from standard input on a disk in memory.
#![tactic(auto)]

use cq_io::{Status, StdSink, StdSource};
use cq_memdisk::MemDisk;
use cq_replay::offline;
use std::env;
use std::process::ExitCode;

fn main(rt: HostRuntime) -> ExitCode {
    ExitCode::from(run(&rt).code())
}

/// Reads the words of the command line. Words that aren't text are no command.
fn run(rt: &HostRuntime) -> Status {
    let alloc = rt.alloc();
    let Ok(arguments) = env::args(rt) else {
        return serve(rt, &[]);
    };
    let Ok(arguments) = arguments.skip(1).collect::<Vec<String>>(alloc) else {
        return Status::Memory;
    };
    let Ok(words) = arguments
        .iter()
        .map(|word| word.as_str())
        .collect::<Vec<&str>>(alloc)
    else {
        return Status::Memory;
    };
    serve(rt, &words)
}

/// Makes the call with the real input and output.
fn serve(rt: &HostRuntime, words: &[&str]) -> Status {
    let alloc = rt.alloc();
    let mut source = StdSource::new(rt);
    let mut sink = StdSink::new(rt);
    let disk = MemDisk::new(alloc, Vec::new(alloc));
    offline(alloc, words, &mut source, disk, &mut sink).status
}
