// The program that checks what phones saw: step lines from standard input, the phones' records from another descriptor, and one sentence to
// standard output. A program crate of one line calls `run`.
#![tactic(auto)]

mod find;
mod passed;
mod say;
mod sentence;
mod texts;

use std::fs::File;
use std::rt::Files;
use streams::Streams;
use texts::Unread;

// Where the phones' records are read: what is open at descriptor 5.
const PHONES: &str = "/dev/fd/5";

// The program. What it reads and writes no contract can say.
pub fn run<R: Files<File = File>>(files: &R, streams: &Streams) {
    match texts::read(&mut streams.input(), &mut streams::open(files, PHONES)) {
        Ok(b) => sentence::tell(streams, b.run, b.list, b.passed, b.ends),
        Err(Unread::Steps) => say::cannot_read_steps(streams),
        Err(Unread::Records) => say::cannot_read_phones(streams),
    }
}
