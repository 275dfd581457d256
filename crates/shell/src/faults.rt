// The first thing in a text that no record of its edition has, in the order of the text, which has the shape of a saved form. It only chooses the
// words of a refusal that is decided before, so it is tested and not proved.
use clock::Time;
use cluster::{FEWEST_SERVERS, FEWEST_VOTERS, Head, MOST_SERVERS, sets};
use lines::LINE_FEED;
use loads::{BYTES, PRIMARY};
use mail::Report;
use saved::Sort;
use server_log::Entry;

// What a server frame says that no server's does, in the order of its fields.
#[derive(Clone, Copy)]
pub(crate) enum OfServer {
    Entries { entries: usize, edition: u8 },
    Notes { notes: usize, count: usize },
    Reports(usize),
    NoSuchSource { source: usize, count: usize },
    OwnSource,
    Role(u8),
    Follower,
    NoTerm,
    Commit { commit: usize, entries: usize },
    NoWall,
}

// The same of an entry.
#[derive(Clone, Copy)]
pub(crate) enum OfEntry {
    NoTerm,
    TermFalls { term: u16, before: u16 },
    TermAbove { term: u16, most: u16 },
    Key(u8),
    NoValue,
    Unwritten(u16),
    TimeStays { time: Time, before: Time },
    TimeAbove { time: Time, most: Time },
}

// The same of a note or a report. Only a note can be zero, or follow one of this server that it should stand before.
#[derive(Clone, Copy)]
pub(crate) enum OfTold {
    NoSuchServer { count: usize },
    Follows(u8),
    Zero,
    NoLast,
    LastAbove { last: u16, term: u16 },
    NoLength,
    Length { length: u16, edition: u8 },
}

// A fault, with the server that it is told of, and for a note and a report the server that they name.
#[derive(Clone, Copy)]
pub(crate) enum Fault {
    Count(usize),
    NoSuchFollower {
        follower: usize,
        count: usize,
    },
    Voters(usize),
    Server {
        server: usize,
        of: OfServer,
    },
    Entry {
        server: usize,
        entry: usize,
        of: OfEntry,
    },
    Note {
        server: usize,
        who: u8,
        of: OfTold,
    },
    Report {
        server: usize,
        report: usize,
        who: u8,
        of: OfTold,
    },
}

// What was read of a text: its edition, the server count and the followers, how many servers were begun, and of the last of them the head, how many
// entries and the last one, whose note the last one is, and how many reports.
#[derive(Clone, Copy)]
struct Walk {
    edition: u8,
    count: usize,
    followers: u8,
    begun: usize,
    head: Head,
    entries: usize,
    last: Option<Entry>,
    noted: Option<u8>,
    reports: usize,
}

impl Walk {
    fn new() -> Walk {
        Walk {
            edition: 0,
            count: 0,
            followers: 0,
            begun: 0,
            head: cluster::ZERO_SERVER.head,
            entries: 0,
            last: None,
            noted: None,
            reports: 0,
        }
    }

    // The server that was begun last.
    fn server(&self) -> usize {
        self.begun.saturating_sub(1)
    }

    // One line more, with what is wrong in it.
    fn take(&mut self, line: &[u8]) -> Result<(), Fault> {
        let mut b = [0u8; BYTES];
        hex_text::unhex(line, &mut b);
        match Sort::try_from(b[0]) {
            Ok(Sort::First) => self.take_first(
                b[1],
                usize::from(b[2]),
                loads::followers_in(b[1], b),
            ),
            Ok(Sort::Server) => self.take_server(b),
            Ok(Sort::Entry) => self.take_entry(loads::entry_in(b)),
            Ok(Sort::Note) => self.take_note(loads::report_in(b)),
            Ok(Sort::Report) | Err(_) => self.take_report(loads::report_in(b)),
        }
    }

    fn take_first(&mut self, edition: u8, count: usize, followers: u8) -> Result<(), Fault> {
        self.edition = edition;
        self.count = count;
        self.followers = followers;
        if count < FEWEST_SERVERS || MOST_SERVERS < count {
            return Err(Fault::Count(count));
        }
        if let Some(follower) = (count..=MOST_SERVERS).find(|i| sets::is_member(followers, *i)) {
            return Err(Fault::NoSuchFollower { follower, count });
        }
        let voters = sets::voters(count, followers);
        if voters < FEWEST_VOTERS {
            return Err(Fault::Voters(voters));
        }
        Ok(())
    }

    fn take_server(&mut self, b: [u8; BYTES]) -> Result<(), Fault> {
        let server = self.begun;
        *self = Walk {
            begun: server.saturating_add(1),
            head: loads::head_in(b),
            entries: 0,
            last: None,
            noted: None,
            reports: 0,
            ..*self
        };
        self.check_server(server, b)
            .map_err(|of| Fault::Server { server, of })
    }

    fn check_server(&self, server: usize, b: [u8; BYTES]) -> Result<(), OfServer> {
        let count = self.count;
        let edition = self.edition;
        let entries = usize::from(words::word(b[1], b[2]));
        let notes = usize::from(b[3]);
        let reports = usize::from(b[4]);
        if saved::limits_of(edition).entries < entries {
            return Err(OfServer::Entries { entries, edition });
        }
        if count < notes {
            return Err(OfServer::Notes { notes, count });
        }
        if mail::QUEUE_LIMIT < reports {
            return Err(OfServer::Reports(reports));
        }
        self.check_source(server, usize::from(b[5]))?;
        self.check_head(server, entries, b[6])
    }

    // The source is the number of another server and 1, or 0.
    fn check_source(&self, server: usize, number: usize) -> Result<(), OfServer> {
        let count = self.count;
        let Some(source) = number.checked_sub(1) else {
            return Ok(());
        };
        if count <= source {
            return Err(OfServer::NoSuchSource { source, count });
        }
        if source == server {
            return Err(OfServer::OwnSource);
        }
        Ok(())
    }

    fn check_head(&self, server: usize, entries: usize, role: u8) -> Result<(), OfServer> {
        let h = self.head;
        if PRIMARY < role {
            return Err(OfServer::Role(role));
        }
        if h.primary && !sets::does_vote(self.followers, server) {
            return Err(OfServer::Follower);
        }
        if h.primary && h.term < 1 {
            return Err(OfServer::NoTerm);
        }
        if entries < h.commit {
            return Err(OfServer::Commit {
                commit: h.commit,
                entries,
            });
        }
        if h.wall < 1 {
            return Err(OfServer::NoWall);
        }
        Ok(())
    }

    fn take_entry(&mut self, e: Entry) -> Result<(), Fault> {
        let server = self.server();
        let entry = self.entries.saturating_add(1);
        let before = self.last;
        self.entries = entry;
        self.last = Some(e);
        self.check_entry(e, before)
            .map_err(|of| Fault::Entry { server, entry, of })
    }

    fn check_entry(&self, e: Entry, before: Option<Entry>) -> Result<(), OfEntry> {
        let term = e.term;
        let most = self.head.term;
        if term < 1 {
            return Err(OfEntry::NoTerm);
        }
        if let Some(d) = before
            && term < d.term
        {
            return Err(OfEntry::TermFalls {
                term,
                before: d.term,
            });
        }
        if most < term {
            return Err(OfEntry::TermAbove { term, most });
        }
        check_written(e)?;
        self.check_time(e.time, before)
    }

    fn check_time(&self, time: Time, before: Option<Entry>) -> Result<(), OfEntry> {
        let most = self.head.time;
        if let Some(d) = before
            && time <= d.time
        {
            return Err(OfEntry::TimeStays {
                time,
                before: d.time,
            });
        }
        if most < time {
            return Err(OfEntry::TimeAbove { time, most });
        }
        Ok(())
    }

    fn take_note(&mut self, r: Report) -> Result<(), Fault> {
        let server = self.server();
        let who = r.who;
        let before = self.noted;
        self.noted = Some(who);
        self.check_note(r, before)
            .map_err(|of| Fault::Note { server, who, of })
    }

    fn check_note(&self, r: Report, before: Option<u8>) -> Result<(), OfTold> {
        if let Some(noted) = before
            && r.who <= noted
        {
            return Err(OfTold::Follows(noted));
        }
        if usize::from(r.who) < self.count && mail::is_unused(mail::note_of(r)) {
            return Err(OfTold::Zero);
        }
        self.check_told(r)
    }

    fn take_report(&mut self, r: Report) -> Result<(), Fault> {
        let server = self.server();
        let report = self.reports.saturating_add(1);
        let who = r.who;
        self.reports = report;
        self.check_told(r).map_err(|of| Fault::Report {
            server,
            report,
            who,
            of,
        })
    }

    fn check_told(&self, r: Report) -> Result<(), OfTold> {
        let count = self.count;
        let edition = self.edition;
        if count <= usize::from(r.who) {
            return Err(OfTold::NoSuchServer { count });
        }
        if r.last < 1 {
            return Err(OfTold::NoLast);
        }
        if r.term < r.last {
            return Err(OfTold::LastAbove {
                last: r.last,
                term: r.term,
            });
        }
        if r.len < 1 {
            return Err(OfTold::NoLength);
        }
        if saved::limits_of(edition).positions < usize::from(r.len) {
            return Err(OfTold::Length {
                length: r.len,
                edition,
            });
        }
        Ok(())
    }
}

// An entry writes a value of at least 1 for a key, or nothing.
fn check_written(e: Entry) -> Result<(), OfEntry> {
    if e.key <= server_log::HIGHEST_KEY {
        return if e.value < 1 {
            Err(OfEntry::NoValue)
        } else {
            Ok(())
        };
    }
    if e.key != server_log::NO_KEY {
        return Err(OfEntry::Key(e.key));
    }
    if 0 < e.value {
        return Err(OfEntry::Unwritten(e.value));
    }
    Ok(())
}

// The first fault, and the number of its line. A last line that is cut off is not looked at: what is kept of a text that is longer than any saved form has
// its first fault before.
pub(crate) fn first_fault(text: &[u8]) -> Option<(usize, Fault)> {
    let mut walk = Walk::new();
    for (i, line) in text.split_inclusive(|b| *b == LINE_FEED).enumerate() {
        if let Some((&LINE_FEED, line)) = line.split_last()
            && let Err(fault) = walk.take(line)
        {
            return Some((i.saturating_add(1), fault));
        }
    }
    None
}
