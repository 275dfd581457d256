// Saved texts, loaded and saved again: standard input has the cases. A line that begins with # is only written; one that begins with =
// names a case, and its saved text is all that follows up to the next such line, without its last line feed where it begins with =-.
// Each is written with its answer line, a record that was loaded with whether it saves to that very text in the text's edition, and a refusal with whether the
// record that was given is kept. `stdout` has what docs/SAVED.md gives, worked out by hand.
#![tactic(auto)]

use cluster::Cluster;
use std::process::ExitCode;
use steps::Answer;
use streams::Streams;

// A line, so that each answer stands by itself.
fn say(streams: &Streams, words: &[u8]) {
    streams.write(words);
    streams.write(b"\n");
}

// The edition that a text names, 0 where it is too short for that.
fn edition_of(text: &[u8]) -> u8 {
    let mut b = [0u8; 2];
    if let Some(first) = text.get(..4) {
        hex_text::unhex(first, &mut b);
    }
    b[1]
}

// Whether the record saves to the text in the text's edition, because that tells it from every other.
// Kept: `loads` asks the same inside, and what it asks is what these cases try.
fn saves_to(c: Cluster, text: &[u8]) -> bool {
    let mut out = [0; saved::LONGEST];
    let written = saved::save_as(edition_of(text), c, &mut out);
    written.is_ok_and(|n| out.get(..n).is_some_and(|written| written == text))
}

// Every text is loaded into a record, two servers after a start, so that a refusal can be seen to give it back.
fn tried(streams: &Streams, text: &[u8]) {
    let given = cluster::fresh_cluster(2, 0);
    let o = loads::load(given, text);
    say(streams, &answers::write_answer(o.answer));
    let came: &[u8] = match o.answer {
        Answer::Done if saves_to(o.cluster, text) => b"same",
        Answer::Done => b"other",
        _ if o.cluster == given => b"kept",
        _ => b"lost",
    };
    say(streams, came);
}

// A line that begins with # or =, and all up to the next one. That line is written first, so that the answer stands under the name. A case's text begins
// after its name; it may be empty, as a saved file may. One without its last line feed can't stand before another line, so its name asks for it.
fn taken(streams: &Streams, part: &[u8]) {
    let mut halves = part.splitn(2, |b| *b == b'\n');
    let (Some(name), Some(text)) = (halves.next(), halves.next()) else {
        return;
    };
    say(streams, name);
    match (name, text) {
        ([b'=', b'-', ..], [cut @ .., b'\n']) => tried(streams, cut),
        ([b'=', ..], _) => tried(streams, text),
        _ => {}
    }
}

// A text that fills the buffer may have been cut, and is refused. The cases one after another: no line of a saved text begins with # or =.
fn run(streams: &Streams) {
    let mut text = io::large_buffer();
    let Some(text) = streams.read_all(&mut text) else {
        say(streams, b"? too long");
        return;
    };
    for part in text.chunk_by(|before, b| *before != b'\n' || !matches!(b, b'=' | b'#')) {
        taken(streams, part);
    }
}

// Kept: as in the other programs, three calls that a function would take as a closure.
fn main(rt: HostRuntime) -> ExitCode {
    let streams = Streams::new(rt.stdin(), rt.stdout(), rt.stderr());
    run(&streams);
    streams.status()
}
