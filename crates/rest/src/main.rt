// The cases of 01 that are run and not proved. `stdin` has their step lines and `stdout` the answers that 01 gives, worked out by hand:
// an empty log pulling (lines 1 to 8: from an empty log, and from one entry by a server that did not vote),
// equal logs (9 to 14: no pull and no rollback, but a candidate isn't behind),
// a = b (15 to 18: refusal 3, also where the role is wrong),
// a candidate outside its own set (19 to 22: refused, and then elected inside it),
// a restart between pull and commit (23 to 35 of the server that pulled, 36 to 50 of the primary),
// a log of 127 and of 128 at a write (51 to 188: lines 180 and 181 are the two writes).
#![tactic(auto)]

use std::process::ExitCode;
use streams::Streams;

// Kept: three calls are the whole program; one function of them would take the second as a closure, and ask of its callers that it may be called.
fn main(rt: HostRuntime) -> ExitCode {
    let streams = Streams::new(rt.stdin(), rt.stdout(), rt.stderr());
    shell::run(&rt, &streams);
    streams.status()
}
