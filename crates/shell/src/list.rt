// The table that a person reads after a run: a server's builds, a car each, of its committed beginning, which are safe, and of its whole log
// where those are others. It only shows what is read elsewhere, so it is tested and not proved.
use crate::say;
use cluster::{Cluster, Server, sets};
use reads::lists::{self, Listed};
use std::fmt::{self, Display, Write};
use streams::Streams;

const HEADING: &str =
    "server  role       term   part       as of          car:build (* not known to be safe yet)\n";

// How wide the columns of a time and of a car are, and all before the first car.
const AS_OF: usize = 15;

const CAR: usize = 11;

const BEFORE_CARS: usize = 52;

// How many cars a row has.
const CARS: usize = 4;

// How many characters are written.
#[derive(Drop)]
struct Width(usize);

impl Write for Width {
    fn write_str(&mut self, s: &str) -> fmt::Result {
        self.0 = self.0.saturating_add(s.len());
        Ok(())
    }
}

// The blanks that fill a column after what is displayed in it.
fn gap<D: Display + Drop>(column: usize, words: D) -> usize {
    let mut width = Width(0);
    let _ = width.write(words);
    column.saturating_sub(width.0)
}

// A car and its build; one that isn't known to be safe has a star.
#[derive(Clone, Copy)]
struct Car {
    key: usize,
    value: u16,
    safe: bool,
}

impl Display for Car {
    fn fmt<W: Write>(&self, f: &mut fmt::Formatter<W>) -> fmt::Result {
        let star = if self.safe { "" } else { "*" };
        write!(f, "{}:{}{star}", self.key, self.value)
    }
}

// The rows of one part of a log, from its name on.
#[derive(Clone, Copy)]
struct Part<'a> {
    name: &'static str,
    listed: &'a Listed,
    safe: &'a Listed,
}

impl Display for Part<'_> {
    fn fmt<W: Write>(&self, f: &mut fmt::Formatter<W>) -> fmt::Result {
        let time = self.listed.time;
        let values = &self.listed.latest.values;
        write!(f, "{:<11}{time}{:2$}", self.name, "", gap(AS_OF, time))?;
        let mut blanks = 0;
        let cars = values.iter().zip(&self.safe.latest.values).enumerate();
        for (n, (key, (value, safe))) in cars.filter(|car| *car.1.0 != 0).enumerate() {
            if 0 < n && n % CARS == 0 {
                f.write_str("\n")?;
                blanks = BEFORE_CARS;
            }
            let car = Car {
                key,
                value: *value,
                safe: value == safe,
            };
            write!(f, "{:blanks$}{car}", "")?;
            blanks = gap(CAR, car);
        }
        if values.iter().all(|value| *value == 0) {
            f.write_str("no build")?;
        }
        f.write_str("\n")
    }
}

// The rows of a server. A follower is told from a secondary that votes.
#[derive(Clone, Copy)]
struct Rows<'a> {
    number: usize,
    votes: bool,
    server: &'a Server,
}

impl Display for Rows<'_> {
    fn fmt<W: Write>(&self, f: &mut fmt::Formatter<W>) -> fmt::Result {
        let h = self.server.head;
        let committed = &lists::committed_list(*self.server);
        let whole = &lists::whole_list(*self.server);
        let role = match (h.primary, self.votes) {
            (true, _) => "primary",
            (false, true) => "secondary",
            (false, false) => "follower",
        };
        write!(f, "{:<8}{role:<11}{:<7}", self.number, h.term)?;
        if h.commit == 0 {
            f.write_str("committed  nothing\n")?;
        } else {
            let part = Part {
                name: "committed",
                listed: committed,
                safe: committed,
            };
            write!(f, "{part}")?;
        }
        if whole.latest.values == committed.latest.values {
            return Ok(());
        }
        let part = Part {
            name: "whole log",
            listed: whole,
            safe: committed,
        };
        write!(f, "{:26}{part}", "")
    }
}

// The whole table: the rows of each server.
#[derive(Clone, Copy)]
struct Whole<'a>(&'a Cluster);

impl Display for Whole<'_> {
    fn fmt<W: Write>(&self, f: &mut fmt::Formatter<W>) -> fmt::Result {
        let c = self.0;
        f.write_str(HEADING)?;
        for (number, server) in c.servers.iter().take(c.count).enumerate() {
            let rows = Rows {
                number,
                votes: sets::does_vote(c.followers, number),
                server,
            };
            write!(f, "{rows}")?;
        }
        Ok(())
    }
}

// Writes the table, or says why it can't be; whether it is written.
pub(crate) fn table(streams: &Streams, c: Cluster) -> bool {
    if c.count == 0 {
        streams.eprint(say::NOTHING_TO_LIST);
        return false;
    }
    let wrote = streams.print(Whole(&c));
    if !wrote {
        streams.eprint(say::CANNOT_LIST);
    }
    wrote
}
