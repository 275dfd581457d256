// The record under construction, and the lines that change it. Each function that takes a line answers none where the line hasn't as many numbers, or one
// of them reaches past the record.
use crate::numbers::{byte, read, word};
use clock::Time;
use cluster::{Cluster, Head};
use mail::{Note, Report};
use server_log::Entry;

fn time(p: usize, l: usize) -> Time {
    Time {
        p: word(p),
        l: word(l),
    }
}

// Changes the record by a line, as its first character tells.
pub(crate) fn change(c: &mut Cluster, line: &[u8]) -> Option<()> {
    match line.first()? {
        b'f' => fresh(c, line),
        b's' => server(c, line),
        b'e' => entry(c, line),
        b'l' => latest(c, line),
        b'm' => mail(c, line),
        b'n' => note(c, line),
        b'r' => report(c, line),
        _ => None,
    }
}

// A line `fresh`: servers, followers.
fn fresh(c: &mut Cluster, line: &[u8]) -> Option<()> {
    let [count, followers] = read::<2>(line)?;
    *c = cluster::fresh_cluster(count, byte(followers));
    Some(())
}

// Gives a server rows as its log and commit point have them, so that a line `latest` alone breaks them; past the count they stay.
fn row(c: &mut Cluster, i: usize) {
    if i < c.count && i < cluster::MOST_SERVERS {
        c.servers[i] = cluster::rowed(c.servers[i]);
    }
}

// A line `server`: server, length, term, whether it is primary, commit point, wall clock, p, l. The slots stay.
fn server(c: &mut Cluster, line: &[u8]) -> Option<()> {
    let [i, len, term, primary, commit, wall, p, l] = read::<8>(line)?;
    let s = c.servers.get_mut(i)?;
    s.log.len = len;
    s.head = Head {
        term: word(term),
        primary: primary != 0,
        commit,
        wall: word(wall),
        time: time(p, l),
    };
    row(c, i);
    Some(())
}

// A line `entry`: server, position, term, key, value, p, l.
fn entry(c: &mut Cluster, line: &[u8]) -> Option<()> {
    let [i, at, term, key, value, p, l] = read::<7>(line)?;
    let s = c.servers.get_mut(i)?;
    let slot = at
        .checked_sub(1)
        .and_then(|slot| s.log.entries.get_mut(slot));
    let known = slot.map(|slot| {
        *slot = Entry {
            term: word(term),
            key: byte(key),
            value: word(value),
            time: time(p, l),
        };
    });
    row(c, i);
    known
}

// A line `latest`: server, 0 for the row of the whole log or 1 for that of the committed beginning, key, value.
fn latest(c: &mut Cluster, line: &[u8]) -> Option<()> {
    let [i, which, key, value] = read::<4>(line)?;
    let rows = &mut c.servers.get_mut(i)?.rows;
    let row = if which == 0 {
        &mut rows.whole
    } else {
        &mut rows.committed
    };
    *row.values.get_mut(key)? = word(value);
    Some(())
}

// A line `mail`: server, reports, and the source: 0 for none, n + 1 for server n.
fn mail(c: &mut Cluster, line: &[u8]) -> Option<()> {
    let [i, reports, source] = read::<3>(line)?;
    let m = &mut c.servers.get_mut(i)?.mail;
    m.queue.len = reports;
    m.source = source.checked_sub(1);
    Some(())
}

// A line `note`: server, of whom, term, last term, length.
fn note(c: &mut Cluster, line: &[u8]) -> Option<()> {
    let [i, whose, term, last, len] = read::<5>(line)?;
    *c.servers.get_mut(i)?.mail.notes.get_mut(whose)? = Note {
        term: word(term),
        last: word(last),
        len: word(len),
    };
    Some(())
}

// A line `report`: server, slot from 0, who, term, last term, length.
fn report(c: &mut Cluster, line: &[u8]) -> Option<()> {
    let [i, slot, who, term, last, len] = read::<6>(line)?;
    *c.servers.get_mut(i)?.mail.queue.reports.get_mut(slot)? = Report {
        who: byte(who),
        term: word(term),
        last: word(last),
        len: word(len),
    };
    Some(())
}
