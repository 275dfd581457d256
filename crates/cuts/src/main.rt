// Readers of all forms, reached or not, each given a character, a line feed and the end; and a session that is cut in every place. A line of
// standard input that begins with = is a reader: the characters that it holds, a dot for a zero byte, then how many there are, in three digits, and
// whether the line is too long, 0 or 1. What comes after a line that begins with + is the session. Other lines are only written.
#![tactic(auto)]

ghost use Rattle.std.specs.Prelude.{◌≤◌};
ghost use Rattle.std.specs.Iterator.{IsFinite};

use cluster::Cluster;
use lines::{LINE_FEED, Reader, WIDTH};
use replay::Session;
use std::process::ExitCode;
use streams::Streams;

// A reader's line: =, its characters, a blank, three digits, a blank, a digit.
const READER_LINE: usize = 1 + WIDTH + 1 + 3 + 1 + 1;

// Room for a session's answers.
const ROOM: usize = 8192;

fn digit(c: u8) -> usize
    ensures { result ≤ 9 }
{
    match c {
        b'0'..=b'9' => usize::from(c - b'0'),
        _ => 0,
    }
}

fn reader_in(line: &[u8]) -> Reader {
    let mut r = lines::fresh_reader();
    if line.len() != READER_LINE {
        return r;
    }
    for (held, c) in r.held.iter_mut().zip(&line[1..]) {
        *held = if *c == b'.' { 0 } else { *c };
    }
    r.fill = 100 * digit(line[28]) + 10 * digit(line[29]) + digit(line[30]);
    r.over = line[32] == b'1';
    r
}

// A zero byte is written as a dot, and a dot is read as one.
fn say_reader(streams: &Streams, r: Reader) {
    let shown = r.held.map(|b| if b == 0 { b'.' } else { b });
    let over = if r.over { " too long" } else { "" };
    streams.write(b" ");
    streams.write(&shown);
    streams.print(format_args!(" {}{over}\n", r.fill));
}

// One piece for the reader: what is answered, and the reader then.
fn fed(streams: &Streams, reader: Reader, piece: &[u8]) {
    let mut out = [0u8; ROOM];
    let s = Session {
        cluster: cluster::fresh_cluster(2, 0),
        reader,
    };
    let f = replay::pour(s, piece, &mut out);
    streams.write(out.get(..f.wrote).unwrap_or(&[]));
    say_reader(streams, f.session.reader);
}

// The end for the reader, in a buffer of the caller's.
fn ended(streams: &Streams, reader: Reader, out: &mut [u8]) {
    let s = Session {
        cluster: cluster::fresh_cluster(2, 0),
        reader,
    };
    let f = replay::close(s, out);
    streams.write(out.get(..f.wrote).unwrap_or(&[]));
    if !f.ended {
        streams.write(b"not ended\n");
    }
    say_reader(streams, f.session.reader);
}

fn tried(streams: &Streams, r: Reader) {
    let mut out = [0u8; ROOM];
    let mut tight = [0u8; replay::ANSWER_LINE - 1];
    fed(streams, r, b"");
    fed(streams, r, b"1");
    fed(streams, r, b"\n");
    ended(streams, r, &mut out);
    ended(streams, r, &mut tight);
}

// One piece more: the session then, and what is left of the answers that are due; none where its own are others.
fn more<'a>(s: Session, piece: &[u8], answers: &'a [u8]) -> Option<(Session, &'a [u8])> {
    let mut out = [0u8; ROOM];
    let f = replay::pour(s, piece, &mut out);
    let left = answers.strip_prefix(out.get(..f.wrote)?)?;
    Some((f.session, left))
}

// What a text comes to at once: its answers, those at its end, and the record.
#[derive(Clone, Copy)]
struct AtOnce<'a> {
    answers: &'a [u8],
    last: &'a [u8],
    cluster: Cluster,
}

impl AtOnce<'_> {
    // Whether the text comes to the same in these pieces, with an empty one after each, and leaves a fresh reader.
    fn comes_of<'p, I: Iterator<Item = &'p [u8]>>(&self, pieces: I) -> Option<()>
        requires { I.can_next pieces × IsFinite (I.remaining pieces) }
    {
        let mut told = more(
            replay::begin(cluster::fresh_cluster(2, 0)),
            b"",
            self.answers,
        )?;
        for piece in pieces {
            told = more(told.0, piece, told.1)?;
            told = more(told.0, b"", told.1)?;
        }
        let (s, left) = told;
        let mut out = [0u8; ROOM];
        let f = replay::close(s, &mut out);
        let d = f.session;
        let same = left.is_empty()
            && out.get(..f.wrote)? == self.last
            && lines::is_empty(d.reader)
            && d.cluster == self.cluster;
        same.then_some(())
    }
}

// The session at once, and then cut: in two after each byte, and at every byte.
fn session(streams: &Streams, text: &[u8]) {
    let mut answers = [0u8; ROOM];
    let mut last = [0u8; ROOM];
    let f = replay::pour(
        replay::begin(cluster::fresh_cluster(2, 0)),
        text,
        &mut answers,
    );
    let g = replay::close(f.session, &mut last);
    let (Some(answers), Some(last)) = (answers.get(..f.wrote), last.get(..g.wrote)) else {
        return;
    };
    streams.write(answers);
    streams.write(last);
    let at_once = AtOnce {
        answers,
        last,
        cluster: g.session.cluster,
    };
    let in_two = (1..=text.len())
        .filter(|cut| {
            let (one, other) = text.split_at(*cut);
            at_once.comes_of([one, other].into_iter()).is_some()
        })
        .count();
    let in_bytes = match at_once.comes_of(text.chunks(1)) {
        Some(()) => "alike",
        None => "not alike",
    };
    streams.print(format_args!(
        "cut in two: {in_two} of {} alike\ncut at every byte: {in_bytes}\n",
        text.len()
    ));
}

// The lines one after another, each written, and tried where it is a reader; up to the session.
fn take_lines(streams: &Streams, text: &[u8]) {
    let mut past: usize = 0;
    for ended in text.split_inclusive(|b| *b == LINE_FEED) {
        past = past.saturating_add(ended.len());
        let line = ended.strip_suffix(b"\n").unwrap_or(ended);
        streams.write(line);
        streams.write(b"\n");
        match ended {
            [b'=', ..] => tried(streams, reader_in(line)),
            [b'+', .., LINE_FEED] => return session(streams, text.get(past..).unwrap_or(&[])),
            _ => {}
        }
    }
}

// A text that fills the buffer may have been cut, and is refused.
fn run(streams: &Streams) {
    let mut text = io::large_buffer();
    match streams.read_all(&mut text) {
        Some(text) => take_lines(streams, text),
        None => {
            streams.write(b"? too long");
        }
    }
}

// Kept: as in the other programs, three calls that a function would take as a closure.
fn main(rt: HostRuntime) -> ExitCode {
    let streams = Streams::new(rt.stdin(), rt.stdout(), rt.stderr());
    run(&streams);
    streams.status()
}
