// What a server knows of others, by value: a row of notes, a queue of reports and a source.
#![tactic(auto, unfolding(crate::specs::Reports::gives_way, crate::specs::Queues::queued, crate::specs::Mails::noted, crate::specs::Order::is_unused, crate::specs::Order::is_used, crate::specs::Order::note_ok, crate::specs::Order::slot_ok, crate::specs::Order::source_ok, crate::specs::Order::mail_ok))]

ghost use Rattle.std.specs.Prelude.{◌≡◌};
ghost use Rattle.mail.specs.Reports.{note_of, gives_way};
ghost use Rattle.mail.specs.Queues.{report_at, queued, oldest_taken};
ghost use Rattle.mail.specs.Mails.{note_at, with_source, noted, received, taken, emptied};
ghost use Rattle.mail.specs.Order.{is_unused, is_used, note_ok, notes_ok, slot_ok, queue_ok, source_ok, mail_ok};

use std::array;

// What a server tells of itself after it took over entries: its number, its term, its last term and its length.
#[derive(Clone, Copy, PartialEq, Eq)]
pub struct Report {
    pub who: u8,
    pub term: u16,
    pub last: u16,
    pub len: u16,
}

// The greatest report of one server so far, by its term, then its last term, then its length; unused it is zero.
#[derive(Clone, Copy, PartialEq, Eq, PartialOrd, Ord)]
pub struct Note {
    pub term: u16,
    pub last: u16,
    pub len: u16,
}

// Oldest first, slots past the length zero.
// Kept: an array beside its length, as document 01's log is: a record may hold any length, and `queue_ok` refuses one past the array.
#[derive(Clone, Copy, PartialEq, Eq)]
pub struct Queue {
    pub reports: [Report; QUEUE_LIMIT],
    pub len: usize,
}

// The source is the server that it last took over entries from; none before, and after a restart.
#[derive(Clone, Copy, PartialEq, Eq)]
pub struct Mail {
    pub notes: [Note; NOTE_SLOTS],
    pub queue: Queue,
    pub source: Option<usize>,
}

// How many reports a queue can hold.
pub const QUEUE_LIMIT: usize = 8;

// A note for each server that there can be.
pub const NOTE_SLOTS: usize = 7;

pub const ZERO_REPORT: Report = Report {
    who: 0,
    term: 0,
    last: 0,
    len: 0,
};

pub const ZERO_NOTE: Note = Note {
    term: 0,
    last: 0,
    len: 0,
};

pub const EMPTY_QUEUE: Queue = Queue {
    reports: [ZERO_REPORT; QUEUE_LIMIT],
    len: 0,
};

pub const ZERO_MAIL: Mail = Mail {
    notes: [ZERO_NOTE; NOTE_SLOTS],
    queue: EMPTY_QUEUE,
    source: None,
};

// What a report says.
pub fn note_of(r: Report) -> Note
    ensures { result ≡ note_of r }
{
    Note {
        term: r.term,
        last: r.last,
        len: r.len,
    }
}

// Whether note d gives way to e.
pub fn gives_way(d: Note, e: Note) -> bool
    ensures { result ≡ gives_way d e }
{
    d < e
}

// The note about server i; the zero note where there is none.
pub fn note_at(m: Mail, i: usize) -> Note
    ensures { result ≡ note_at m i }
{
    m.notes.get(i).copied().unwrap_or(ZERO_NOTE)
}

// The queue with one report more; to a full one it is lost.
pub fn queued(q: Queue, r: Report) -> Queue
    ensures { result ≡ queued q r }
{
    if QUEUE_LIMIT <= q.len {
        return q;
    }
    let mut p = q;
    p.reports[q.len] = r;
    p.len = q.len + 1;
    p
}

// The report in slot i; the zero report past the slots.
pub fn report_at(q: Queue, i: usize) -> Report
    ensures { result ≡ report_at q i }
{
    q.reports.get(i).copied().unwrap_or(ZERO_REPORT)
}

// The queue without its oldest report.
pub fn oldest_taken(q: Queue) -> Queue
    ensures { result ≡ oldest_taken q }
{
    Queue {
        reports: array::from_fn(|i| report_at(q, i + 1)),
        len: q.len.saturating_sub(1),
    }
}

// The mail with the report noted, where its note gives way.
pub fn noted(m: Mail, r: Report) -> Mail
    ensures { result ≡ noted m r }
{
    let i = usize::from(r.who);
    if NOTE_SLOTS <= i {
        return m;
    }
    let mut o = m;
    o.notes[i] = m.notes[i].max(note_of(r));
    o
}

// The mail that a report was sent to.
pub fn received(m: Mail, r: Report) -> Mail
    ensures { result ≡ received m r }
{
    Mail {
        queue: queued(m.queue, r),
        ..m
    }
}

// The mail without its oldest report.
pub fn taken(m: Mail) -> Mail
    ensures { result ≡ taken m }
{
    Mail {
        queue: oldest_taken(m.queue),
        ..m
    }
}

// The mail with no notes and no reports; the source stays.
pub fn emptied(m: Mail) -> Mail
    ensures { result ≡ emptied m }
{
    Mail {
        source: m.source,
        ..ZERO_MAIL
    }
}

// The mail with this source.
pub fn with_source(m: Mail, source: Option<usize>) -> Mail
    ensures { result ≡ with_source m source }
{
    Mail {
        source: source,
        ..m
    }
}

// Whether a note is unused.
pub fn is_unused(n: Note) -> bool
    ensures { result ≡ is_unused n }
{
    n == ZERO_NOTE
}

// Whether a note of this server is a used one, where so many servers are counted.
pub fn is_used(count: usize, who: usize, n: Note) -> bool
    ensures { result ≡ is_used count who n }
{
    who < count
        && 1 <= n.len
        && usize::from(n.len) <= server_log::HIGHEST_POSITION
        && 1 <= n.last
        && n.last <= n.term
}

pub fn note_ok(count: usize, i: usize, n: Note) -> bool
    ensures { result ≡ note_ok count i n }
{
    is_unused(n) || is_used(count, i, n)
}

// Whether every note is unused, or a used one of a counted server.
pub fn notes_ok(m: Mail, count: usize) -> bool
    ensures { result ≡ notes_ok count m }
{
    m.notes
        .iter()
        .enumerate()
        .all(|(i, n)| note_ok(count, i, *n))
}

// Whether a slot holds a report of a counted server, or is zero where it is past the length.
pub fn slot_ok(count: usize, live: bool, r: Report) -> bool
    ensures { result ≡ slot_ok count live r }
{
    if live {
        is_used(count, usize::from(r.who), note_of(r))
    } else {
        r == ZERO_REPORT
    }
}

// Whether the queue holds reports of counted servers, and nothing past its length.
pub fn queue_ok(q: Queue, count: usize) -> bool
    ensures { result ≡ queue_ok count q }
{
    q.len <= QUEUE_LIMIT
        && q.reports
            .iter()
            .enumerate()
            .all(|(i, r)| slot_ok(count, i < q.len, *r))
}

// Whether server i may have this source.
pub fn source_ok(count: usize, i: usize, source: Option<usize>) -> bool
    ensures { result ≡ source_ok count i source }
{
    source.is_none_or(|s| s < count && s != i)
}

// Whether server i may have this mail, where so many servers are counted.
pub fn mail_ok(m: Mail, count: usize, i: usize) -> bool
    ensures { result ≡ mail_ok count i m }
{
    notes_ok(m, count) && queue_ok(m.queue, count) && source_ok(count, i, m.source)
}
