// The whole program, thin over the proved libraries: its orders, step lines from standard input to its end, an answer line for each, and the
// record loaded before, saved after, and in the place of answers listed, planned for, or traced. A program crate of one line calls `run`.
#![tactic(auto)]

mod faults;
mod list;
mod recover;
mod saves;
mod say;
mod tell;

ghost use Rattle.std.specs.Prelude.{◌≡◌, ◌≤◌, length, None, true, refl};
ghost use Rattle.lines.specs.Texts.{placed};
ghost use Rattle.replay.specs.Pieces.{runs, says};
ghost use Rattle.lines.specs.Turns.{most_piece};
ghost use Rattle.shell.specs.Loop.{finished_by, Finishes, Answered, TracedAll};
ghost use Rattle.shell.specs.AsOrdered.{answers_due, is_quiet_by, is_saved_by, BeginsBy, RunsBy};

use cluster::Cluster;
use lines::{Broke, PIECE};
use orders::Orders;
use replay::Session;
use std::fs::File;
use std::rt::Files;
use streams::{Source, Streams, Taker};
use trails::{Wanted, follow};

// Where the orders are read: what is open at descriptor 7.
const ORDERS: &str = "/dev/fd/7";

// Room for the answers to all that is read at once, even where every byte is a line.
const ROOM: usize = PIECE * replay::ANSWER_LINE;

// Standard input as it is answered: the record and the line that is being read, and room for the answers to a piece.
#[derive(Drop)]
struct Answering<'a> {
    streams: &'a Streams,
    quiet: bool,
    session: Session,
    out: [u8; ROOM],
}

// How many of the bytes that answers have are written: none where the run is quiet.
fn answers_due(quiet: bool, n: usize) -> usize
    ensures { result ≡ answers_due quiet n }
{
    if quiet { 0 } else { n }
}

impl Answering<'_> {
    // Writes the first n bytes of the answers, as far as they are due, and says whether that went well.
    fn write(&self, n: usize) -> bool {
        self.streams
            .write_first(&self.out, answers_due(self.quiet, n))
    }

    // All of one piece, in one go: there is room for every answer.
    fn pour(&mut self, piece: &[u8]) -> bool
        requires { length piece.now ≤ most_piece }
        ensures session { self.new.session ≡ runs self.old.session piece.now }
        ensures output { self.new.out ≡ placed self.old.out 0 (says self.old.session piece.now) }
    {
        let f = replay::pour(self.session, piece, &mut self.out);
        self.session = f.session;
        self.write(f.wrote)
    }

    // The end of the input: the rest is answered.
    fn end(&mut self) -> Option<Cluster>
        ensures { Finishes self.old.session result }
    {
        let f = replay::close(self.session, &mut self.out);
        finished(self.streams, f.session.cluster, self.write(f.wrote))
    }
}

impl Taker for Answering<'_> {
    type State = Session;

    ghost state = { λ a. a.session };

    ghost over = { runs };

    ghost writes = { true };

    fn take(&mut self, piece: &[u8]) -> bool {
        self.pour(piece)
    }

    ghost over_nothing = { λ s. refl };
}

// The last record, where the last answer was written; otherwise that is said.
fn finished(streams: &Streams, c: Cluster, wrote: bool) -> Option<Cluster>
    ensures { result ≡ finished_by c wrote }
{
    if !wrote {
        say::cannot_write(streams);
        return None;
    }
    Some(c)
}

// Says why the input wasn't answered to its end; then there is no record.
fn broke_off(streams: &Streams, quiet: bool, why: Broke) -> Option<Cluster>
    ensures { result ≡ None }
{
    match why {
        Broke::CannotWrite => say::cannot_write(streams),
        _ => say::cannot_read(streams, quiet),
    }
    None
}

// All of standard input, answered from the record on; the record after it.
fn answered(streams: &Streams, quiet: bool, c: Cluster) -> Option<Cluster>
    ensures { Answered c result }
{
    let mut answering = Answering {
        streams,
        quiet,
        session: replay::begin(c),
        out: [0; ROOM],
    };
    match streams::drain(&mut streams.input(), &mut answering) {
        Ok(()) => answering.end(),
        Err(why) => broke_off(streams, quiet, why),
    }
}

// All of standard input, traced from the record on; the record after it.
fn traced(streams: &Streams, w: Wanted, c: Cluster) -> Option<Cluster>
    ensures { TracedAll c result }
{
    match follow::follow(streams, w, c) {
        Ok(d) => Some(d),
        Err(why) => broke_off(streams, false, why),
    }
}

// The record that a run begins with: one that is loaded, or the one before the first start.
fn first_record(streams: &Streams, source: &mut Source, o: Orders) -> Option<Cluster>
    ensures { BeginsBy o result }
{
    if o.load {
        return saves::load(streams, source);
    }
    Some(cluster::zero_cluster())
}

// Whether something else is written in the place of answers.
fn is_quiet(o: Orders) -> bool
    ensures { result ≡ is_quiet_by o }
{
    o.list || o.recover
}

// A run as ordered: the record after it. Where there is none to begin with, nothing is read.
fn run_through(streams: &Streams, source: &mut Source, o: Orders) -> Option<Cluster>
    ensures { RunsBy o result }
{
    let c = first_record(streams, source, o)?;
    if o.trace {
        let w = Wanted {
            brief: o.brief,
            before: o.before,
            last: o.last,
        };
        return traced(streams, w, c);
    }
    answered(streams, is_quiet(o), c)
}

// Whether the record is saved.
fn is_saved(o: Orders, well: bool) -> bool
    ensures { result ≡ is_saved_by o well }
{
    o.save && well
}

// What a record is loaded from, where one is.
fn loaded_from<R: Files<File = File>>(files: &R, o: Orders) -> Source {
    if !o.load {
        return Source::Closed;
    }
    streams::open(files, saves::LOAD)
}

// A run as ordered, and what is left of it: the table, the plan, and then the saved form, unless one before it couldn't be written.
fn obey<R: Files<File = File>>(files: &R, streams: &Streams, o: Orders) {
    let mut source = loaded_from(files, o);
    let Some(c) = run_through(streams, &mut source, o) else {
        return;
    };
    let listed = !o.list || list::table(streams, c);
    let well = listed && (!o.recover || recover::plan(streams, c, o.key, o.value));
    if is_saved(o, well) {
        saves::store(files, streams, c);
    }
}

// The orders that were given: none where the descriptor is closed. One byte more than the line has is read, by which a longer text is told.
fn given<R: Files<File = File>>(files: &R) -> Option<Orders> {
    let mut text = [0; orders::ORDER_LINE + 1];
    let mut source = streams::open(files, ORDERS);
    let n = source.read_full(&mut text);
    orders::orders_in(&text[..n])
}

// The program. What it reads and writes no contract can say.
pub fn run<R: Files<File = File>>(files: &R, streams: &Streams) {
    let ordered = given(files);
    match ordered {
        Some(o) => obey(files, streams, o),
        None => say::unknown_orders(streams),
    }
}
