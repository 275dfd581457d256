// The plan that gets a cluster going again, as step lines, or why there is none. The plan and its refusal are made elsewhere; here they are only written, so
// this is tested and not proved.
use crate::say;
use clock::LIMIT;
use cluster::{Cluster, Server};
use frames::STEP_CHARS;
use lines::LINE_FEED;
use server_log::{HIGHEST_KEY, LOG_LIMIT};
use std::fmt::{self, Display};
use steps::{Answer, Frame, Refusal};
use streams::Streams;

// How long a step line is.
const STEP_LINE: usize = STEP_CHARS + 1;

// What stands in the way at a server: its log is full, or a number is at its limit.
#[derive(Clone, Copy)]
enum Stands {
    Full,
    Term,
    Wall,
    P,
    L,
}

fn full_log(s: &Server) -> Option<Stands> {
    if server_log::has_room(s.log) {
        None
    } else {
        Some(Stands::Full)
    }
}

// The first number of a server that may not grow.
// Kept: beside `plans::is_low`, which asks whether there is one and not which.
fn number_at_limit(s: &Server) -> Option<Stands> {
    let h = s.head;
    let numbers = [
        (h.term, Stands::Term),
        (h.wall, Stands::Wall),
        (h.time.p, Stands::P),
        (h.time.l, Stands::L),
    ];
    let at_limit = numbers.iter().find(|(number, _)| LIMIT <= *number)?;
    Some(at_limit.1)
}

// What stands in the way, and the server.
#[derive(Clone, Copy)]
struct InTheWay {
    server: usize,
    stands: Stands,
}

impl Display for InTheWay {
    fn fmt<W: fmt::Write>(&self, f: &mut fmt::Formatter<W>) -> fmt::Result {
        let server = self.server;
        match self.stands {
            Stands::Full => write!(
                f,
                "the log of server {server} is full, with {LOG_LIMIT} entries, and the plan's write would have to go there too; a rollback may shorten it, or a start line begins a new cluster\n"
            ),
            Stands::Term => write!(
                f,
                "the term of server {server} is {LIMIT}, its highest, and stays there: begin a new cluster with a start line\n"
            ),
            Stands::Wall => write!(
                f,
                "the wall clock of server {server} is {LIMIT}, its highest, and stays there: begin a new cluster with a start line\n"
            ),
            Stands::P => write!(
                f,
                "the p of the cluster time of server {server} is {LIMIT}, its highest; where its last entry has an earlier time a restart (kind 09) takes it back, or else begin a new cluster with a start line\n"
            ),
            Stands::L => write!(
                f,
                "the l of the cluster time of server {server} is {LIMIT}, its highest; it passes with the next write once the wall clock is ahead of p: let wall clocks tick (kind 08), write, and let the others hear of it\n"
            ),
        }
    }
}

// Tells what stands in the way at the lowest server that has it.
fn in_the_way<F: Fn(&Server) -> Option<Stands>>(streams: &Streams, c: &Cluster, of_server: F)
    requires { F.IsAlwaysCallable of_server }
{
    let mut servers = c.servers.iter().take(c.count).enumerate();
    let found = servers.find_map(|(server, s)| {
        let stands = of_server(s)?;
        Some(InTheWay { server, stands })
    });
    if let Some(found) = found {
        streams.eprint(found);
    }
}

// Says why there is no plan.
fn refused(streams: &Streams, c: &Cluster, key: u8, r: Refusal) {
    say::no_plan(streams, r);
    match r {
        Refusal::OutOfRange if HIGHEST_KEY < key => {
            streams.eprint(format_args!("a key is 0 to {HIGHEST_KEY}\n"));
        }
        Refusal::OutOfRange => streams.eprint(format_args!("a value is 1 to {LIMIT}\n")),
        Refusal::LogFull => in_the_way(streams, c, full_log),
        Refusal::AtLimit => in_the_way(streams, c, number_at_limit),
        Refusal::BelowCommitPoint => streams.eprint(
            "it would roll back what a commit point covers; no run from a start line comes to this record, so what was loaded was made or changed by hand\n",
        ),
        _ => streams.eprint("no start line has begun a cluster\n"),
    }
}

// A step line of the plan.
fn line_of(f: Frame) -> [u8; STEP_LINE] {
    let mut line = [LINE_FEED; STEP_LINE];
    line[..STEP_CHARS].copy_from_slice(&frames::write_frame(f));
    line
}

// Writes the plan's step lines, or says why it can't; whether they are written.
pub(crate) fn plan(streams: &Streams, c: Cluster, key: u8, value: u16) -> bool {
    let p = plans::plan(c, key, value);
    if let Answer::Refused(r) = p.answer {
        refused(streams, &c, key, r);
        return false;
    }
    // All lines in one go, so that no reader sees a part of a plan.
    let lines = p.frames.map(line_of);
    let wrote = streams.write_first(lines.as_flattened(), p.count.saturating_mul(STEP_LINE));
    if !wrote {
        streams.eprint(say::CANNOT_PLAN);
    }
    wrote
}
