// Lines on standard output, in the words of the input.
use cluster::{Cluster, Server};
use server_log::ZERO_ENTRY;
use std::fmt::{self, Display};
use streams::Streams;

// A server, by the lines that make it of one that is all zero: its numbers, its entries, in and past its length, and what else it keeps.
#[derive(Clone, Copy)]
struct Lines<'a>(usize, &'a Server);

impl Lines<'_> {
    fn entries<W: fmt::Write>(&self, f: &mut fmt::Formatter<W>) -> fmt::Result {
        let Lines(i, s) = *self;
        for (slot, e) in s.log.entries.iter().enumerate() {
            if slot < s.log.len || *e != ZERO_ENTRY {
                let at = slot + 1;
                let t = e.time;
                writeln!(
                    f,
                    "entry {i} {at} {} {} {} {} {}",
                    e.term, e.key, e.value, t.p, t.l
                )?;
            }
        }
        Ok(())
    }

    fn rows<W: fmt::Write>(&self, f: &mut fmt::Formatter<W>) -> fmt::Result {
        let Lines(i, s) = *self;
        for (which, row) in [s.rows.whole, s.rows.committed].iter().enumerate() {
            for (key, value) in row.values.iter().enumerate() {
                if *value != 0 {
                    writeln!(f, "latest {i} {which} {key} {value}")?;
                }
            }
        }
        Ok(())
    }

    fn mail<W: fmt::Write>(&self, f: &mut fmt::Formatter<W>) -> fmt::Result {
        let Lines(i, s) = *self;
        let m = &s.mail;
        let source = m.source.map_or(0, |n| n.saturating_add(1));
        if m.queue.len != 0 || source != 0 {
            writeln!(f, "mail {i} {} {source}", m.queue.len)?;
        }
        for (whose, n) in m.notes.iter().enumerate() {
            if *n != mail::ZERO_NOTE {
                writeln!(f, "note {i} {whose} {} {} {}", n.term, n.last, n.len)?;
            }
        }
        for (slot, r) in m.queue.reports.iter().enumerate() {
            if *r != mail::ZERO_REPORT {
                writeln!(
                    f,
                    "report {i} {slot} {} {} {} {}",
                    r.who, r.term, r.last, r.len
                )?;
            }
        }
        Ok(())
    }
}

impl Display for Lines<'_> {
    fn fmt<W: fmt::Write>(&self, f: &mut fmt::Formatter<W>) -> fmt::Result {
        let Lines(i, s) = *self;
        let h = s.head;
        let primary = u8::from(h.primary);
        let t = h.time;
        writeln!(
            f,
            "server {i} {} {} {primary} {} {} {} {}",
            s.log.len, h.term, h.commit, h.wall, t.p, t.l
        )?;
        self.entries(f)?;
        self.rows(f)?;
        self.mail(f)
    }
}

// Writes the new count and followers where they are new, and each server that isn't as it was, or `same`.
pub(crate) fn changes(streams: &Streams, c: &Cluster, d: &Cluster) {
    if c == d {
        streams.print("same\n");
    }
    if c.count != d.count || c.followers != d.followers {
        streams.print(format_args!("count {} {}\n", d.count, d.followers));
    }
    for (i, (s, t)) in c.servers.iter().zip(&d.servers).enumerate() {
        if s != t {
            streams.print(Lines(i, t));
        }
    }
}
