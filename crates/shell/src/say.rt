// What is said on standard error, in sentences: what went wrong, where, and what became of it.
use saved::Sort;
use shapes::Shape;
use std::fmt::{self, Display};
use steps::Refusal;
use streams::Streams;

pub(crate) fn unknown_orders(streams: &Streams) {
    streams.eprint(
        "replay: nothing is done: descriptor 7 has orders that this program doesn't know; it knows a line of 24 characters 0-9 a-f that begins with 0 to 3, or nothing at all\n",
    );
}

pub(crate) fn cannot_write(streams: &Streams) {
    streams.eprint("replay: standard output can't be written, so the answers break off here\n");
}

// A quiet run has answered nothing.
pub(crate) fn cannot_read(streams: &Streams, quiet: bool) {
    let then = if quiet {
        ", so nothing is made of them: no table, and no plan"
    } else {
        "; the lines before are answered"
    };
    streams.eprint(format_args!("replay: standard input can't be read any further{then}\n"));
}

pub(crate) fn cannot_save(streams: &Streams) {
    streams.eprint("replay: the record can't be written where it is to be saved; is there room?\n");
}

// A record that is not well formed, which after lines is only the one before the first start.
pub(crate) fn nothing_to_save(streams: &Streams) {
    streams.eprint(
        "replay: there is nothing to save (refusal 2): no start line has begun a cluster\n",
    );
}

// The same before a table.
pub(crate) const NOTHING_TO_LIST: &str =
    "replay: there is nothing to list: no start line has begun a cluster\n";

pub(crate) const CANNOT_LIST: &str =
    "replay: standard output can't be written, so the table breaks off here\n";

pub(crate) const CANNOT_PLAN: &str =
    "replay: standard output can't be written, so the plan breaks off here\n";

pub(crate) fn cannot_load(streams: &Streams) {
    streams.eprint("replay: the saved record can't be read to its end, so nothing is loaded\n");
}

// How every sentence on a plan that isn't made begins.
pub(crate) fn no_plan(streams: &Streams, r: Refusal) {
    streams.eprint(format_args!("replay: there is no plan (refusal {}): ", u8::from(r)));
}

// How every sentence on a refused load begins.
pub(crate) fn nothing_loaded(streams: &Streams, r: Refusal) {
    streams.eprint(format_args!(
        "replay: nothing is loaded, and no line is answered (refusal {}): ",
        u8::from(r)
    ));
}

// The frame that is due, as a person finds it in the file.
fn frame(s: Sort) -> &'static str {
    match s {
        Sort::First => {
            "a first frame: 6 characters 0-9 a-f that begin with 0001 or 0002, or 8 that begin with 0003"
        }
        Sort::Server => "a server: 34 characters 0-9 a-f that begin with 01",
        Sort::Entry => "an entry: 20 characters 0-9 a-f that begin with 02",
        Sort::Note => "a note: 16 characters 0-9 a-f that begin with 03",
        Sort::Report => "a report: 16 characters 0-9 a-f that begin with 04",
    }
}

// The edition that a line names where it begins as a first frame does, if that isn't known.
fn unknown_in(line: &[u8]) -> Option<u8> {
    let mut b = [0u8; saved::FIRST_BYTES];
    hex_text::unhex(line, &mut b);
    let edition = b[1];
    let first = hex_text::CHARS * 2 <= line.len()
        && hex_text::all_hex(line)
        && Sort::try_from(b[0]) == Ok(Sort::First);
    (first && !saved::is_known(edition)).then_some(edition)
}

// The same of the line that the shape is broken in, where that is the first.
fn unknown_edition(s: &Shape) -> Option<u8> {
    if !s.broken || s.left.begun {
        return None;
    }
    unknown_in(s.reader.held.get(..s.reader.fill)?)
}

// What is wrong with a text's shape: the line and what was due there, or the edition that isn't known.
#[derive(Clone, Copy)]
struct Told(Shape);

impl Display for Told {
    fn fmt<W: fmt::Write>(&self, f: &mut fmt::Formatter<W>) -> fmt::Result {
        let s = &self.0;
        write!(f, "line {}", s.number)?;
        if let Some(edition) = unknown_edition(s) {
            return write!(
                f,
                " names edition {edition}, which this program doesn't know: it is newer than the program, or there is none; editions 1 to 3 are known\n"
            );
        }
        match shapes::expected(*s) {
            None => f.write_str(" is left over: all that the lines before it announce is there\n"),
            Some(due) if s.broken => {
                write!(f, " should be {}, and then a line feed\n", frame(due))
            }
            Some(due) => write!(
                f,
                " is missing or not ended; it should be {}, and then a line feed\n",
                frame(due)
            ),
        }
    }
}

// Refusal 1.
pub(crate) fn misshapen(streams: &Streams, s: Shape) {
    nothing_loaded(streams, Refusal::NotAFrame);
    streams.eprint(Told(s));
}
