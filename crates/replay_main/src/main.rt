// Reads step lines from standard input to its end and writes an answer line for each, or does what else is ordered.
#![tactic(auto)]

use std::process::ExitCode;
use streams::Streams;

// Kept: three calls are the whole program; one function of them would take the second as a closure, and ask of its callers that it may be called.
fn main(rt: HostRuntime) -> ExitCode {
    let streams = Streams::new(rt.stdin(), rt.stdout(), rt.stderr());
    shell::run(&rt, &streams);
    streams.status()
}
