// Step lines from standard input and the phones' records from descriptor 5 to one sentence on standard output.
#![tactic(auto)]

use std::process::ExitCode;
use streams::Streams;

// Kept: three calls are the whole program; one function of them would take the second as a closure, and ask of its callers that it may be called.
fn main(rt: HostRuntime) -> ExitCode {
    let streams = Streams::new(rt.stdin(), rt.stdout(), rt.stderr());
    checks::run(&rt, &streams);
    streams.status()
}
