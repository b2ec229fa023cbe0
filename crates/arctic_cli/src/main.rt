//! The program: makes the store, the shelf, the output and the clock, and runs the script that its words name.
#![tactic(auto)]

use bucket_core::OpenGate;
use bucket_shared::Shared;
use program_edge::{FileShelf, HostClock, OutSink};
use program_run::{Halt, run, run_stop, words_of};
use std::env;
use std::process::ExitCode;

/// The number of the first client, that of the first and the last commands.
const FIRST_CLIENT: u32 = 1;

/// The program's store takes so many events.
const LIMIT: u64 = 1 << 40;

fn main(rt: HostRuntime) -> ExitCode {
    let Ok(pass) = Shared::make(rt.alloc(), LIMIT, FIRST_CLIENT) else {
        return ExitCode::from(6);
    };
    let mut shelf = FileShelf::make(&rt);
    let mut out = OutSink::make(&rt);
    let mut clock = HostClock::make(&rt);
    let status = match words_of(rt.alloc(), env::args(&rt)) {
        Ok(words) => {
            let ran = run(
                &rt,
                rt.alloc(),
                &words,
                &mut shelf,
                &mut out,
                &mut clock,
                &OpenGate,
                pass,
            );
            ran.status
        }
        Err(Halt::Stop(stop)) => run_stop(rt.alloc(), &mut out, &stop),
        Err(Halt::NoMemory) => 6,
    };
    match out.finish() {
        Ok(()) => ExitCode::from(status),
        Err(_) => ExitCode::from(5),
    }
}
