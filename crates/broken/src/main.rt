// Records that break one clause of well-formedness alone, and steps and starts on them.
#![tactic(auto)]

use std::process::ExitCode;
use streams::Streams;

// Kept: three calls are the whole program; one function of them would take the second as a closure, and ask of its callers that it may be called.
fn main(rt: HostRuntime) -> ExitCode {
    let streams = Streams::new(rt.stdin(), rt.stdout(), rt.stderr());
    trials::run(&streams);
    streams.status()
}
