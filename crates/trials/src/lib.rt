// A whole program: reads records and the steps tried on them as a text from standard input, and writes what each step answers and what it
// changes, and the plans that are asked for. A program crate of one line calls `run`.
#![tactic(auto)]

mod numbers;
mod record;
mod say;

use cluster::Cluster;
use numbers::{byte, word};
use steps::Answer;
use streams::Streams;

// Writes a line as it is.
fn line(streams: &Streams, words: &[u8]) {
    streams.write(words);
    streams.write(b"\n");
}

// Writes a line that can't be taken.
fn unknown(streams: &Streams, words: &[u8]) {
    streams.write(b"? ");
    line(streams, words);
}

fn answer(streams: &Streams, a: Answer) {
    line(streams, &answers::write_answer(a));
}

// A step line: the step is tried on the record, which stays as it is for the next line; its answer, and what it changed.
fn tried(streams: &Streams, c: &Cluster, words: &[u8]) {
    let Some(step) = frames::read_step(words) else {
        unknown(streams, words);
        return;
    };
    let o = rules::step(*c, step);
    answer(streams, o.answer);
    say::changes(streams, c, &o.cluster);
}

// A line `plan`: key, value. The plan for them is made of the record, which stays as it is: its answer, and its frames, a line each.
fn planned(streams: &Streams, c: &Cluster, words: &[u8]) {
    let Some(numbers) = numbers::read::<2>(words) else {
        unknown(streams, words);
        return;
    };
    let [key, value] = numbers;
    line(streams, words);
    let p = plans::plan(*c, byte(key), word(value));
    answer(streams, p.answer);
    for f in p.frames.iter().take(p.count) {
        line(streams, &frames::write_frame(*f));
    }
}

// A line: one that begins with a letter changes the record, but for `plan`; one with a digit is a step line; any other, as an empty one, is only written.
fn taken(streams: &Streams, c: &mut Cluster, words: &[u8]) {
    match words.first() {
        Some(b'p') => planned(streams, c, words),
        Some(b'a'..) => {
            if record::change(c, words).is_none() {
                unknown(streams, words);
            }
        }
        Some(b'0'..) => {
            line(streams, words);
            tried(streams, c, words);
        }
        _ => line(streams, words),
    }
}

// The program: the lines one after another, each on the record that those before it built.
pub fn run(streams: &Streams) {
    let mut text = io::large_buffer();
    let Some(text) = streams.read_all(&mut text) else {
        line(streams, b"? too long");
        return;
    };
    let mut c = cluster::zero_cluster();
    for words in text.split(|b| *b == b'\n') {
        taken(streams, &mut c, words);
    }
}
