// The saved form of a record: lines of hexadecimal, a frame each, written into a buffer.
#![tactic(auto)]

ghost use Rattle.std.specs.Prelude.{◌≡◌, true, ◌∷◌, [], map, ◌≤◌, ◌<◌, ◌+◌, ◌*◌, length, take};
ghost use Rattle.base.specs.Numbers.{byte};
ghost use Rattle.server_log.specs.Logs.{log_limit, kept};
ghost use Rattle.mail.specs.Queues.{queue_limit};
ghost use Rattle.cluster.specs.Servers.{most_servers};
ghost use Rattle.cluster.specs.WellFormed.{well_formed};
ghost use Rattle.saved.specs.Layout.{field_bytes, sort_number, NamesSort, size_of, used_notes, source_number, first_frame, server_frame, entry_frame, told_numbers, note_frame, report_frame};
ghost use Rattle.saved.specs.Editions.{widths1, widths3, editions, is_known, edition_numbered, notes_within, reports_within, allows_server, allows_followers, allows, has_form, limits_of};
ghost use Rattle.saved.specs.Saved.{note_frames, queued_reports, server_frames, all_frames, text_of};
ghost use Rattle.saved.specs.Written.{Written, Small, longest_server, saved_as_of, saved_as_out, saved_of, saved_out};
ghost use Rattle.saved.specs.declared.Sort.TheVariants as S;

use cluster::{Cluster, Server};
use lines::LINE_FEED;
use mail::{Mail, Note, Queue, Report};
use server_log::{Entry, Log};
use steps::Refusal;
use words::{high, low};

// The edition that is written, and those before, which are read.
pub const EDITION: u8 = 3;

pub const EDITION_2: u8 = 2;

pub const EDITION_1: u8 = 1;

// How many entries a log may have in edition 1, and the greatest length of a note or a report.
const LIMIT_1: usize = 32;

// How many bytes the frames have; a first frame of editions 1 and 2 has one fewer, no followers.
pub const FIRST_BYTES: usize = 4;

pub const SERVER_BYTES: usize = 17;

pub const ENTRY_BYTES: usize = 10;

pub const TOLD_BYTES: usize = 8;

const FIRST_LINE: usize = hex_text::CHARS * FIRST_BYTES + 1;

const SERVER_LINE: usize = hex_text::CHARS * SERVER_BYTES + 1;

const ENTRY_LINE: usize = hex_text::CHARS * ENTRY_BYTES + 1;

const TOLD_LINE: usize = hex_text::CHARS * TOLD_BYTES + 1;

const LONGEST_SERVER: usize = SERVER_LINE
    + server_log::LOG_LIMIT * ENTRY_LINE
    + (mail::NOTE_SLOTS + mail::QUEUE_LIMIT) * TOLD_LINE;

// The longest saved form: seven servers, each with all that it can hold.
pub const LONGEST: usize = FIRST_LINE + cluster::MOST_SERVERS * LONGEST_SERVER;

// The sorts' numbers.
const FIRST: u8 = 0;

const SERVER: u8 = 1;

const ENTRY: u8 = 2;

const NOTE: u8 = 3;

const REPORT: u8 = 4;

// The sorts of frames.
#[derive(Clone, Copy, PartialEq, Eq)]
pub enum Sort {
    First,
    Server,
    Entry,
    Note,
    Report,
}

// A byte that is no sort's number.
#[derive(Clone, Copy, PartialEq, Eq)]
pub struct NoSort(pub u8);

impl From<Sort> for u8 {
    ghost from_gives = { λ s n. n ≡ sort_number s };

    fn from(s: Sort) -> u8 {
        match s {
            Sort::First => FIRST,
            Sort::Server => SERVER,
            Sort::Entry => ENTRY,
            Sort::Note => NOTE,
            Sort::Report => REPORT,
        }
    }
}

impl TryFrom<u8> for Sort {
    type Error = NoSort;

    ghost try_from_gives = { NamesSort };

    fn try_from(n: u8) -> Result<Self, NoSort> {
        match n {
            FIRST => Ok(Sort::First),
            SERVER => Ok(Sort::Server),
            ENTRY => Ok(Sort::Entry),
            NOTE => Ok(Sort::Note),
            REPORT => Ok(Sort::Report),
            _ => Err(NoSort(n)),
        }
    }
}

// What the records of an edition may hold: entries in a log, lengths in notes and reports, and whether followers.
#[derive(Clone, Copy)]
pub struct Limits {
    pub entries: usize,
    pub positions: usize,
    pub followers: bool,
}

// Why a saving gives no text: the buffer is too short, or the record is refused.
#[derive(Clone, Copy, PartialEq, Eq)]
pub enum NotSaved {
    NoRoom,
    Refused(Refusal),
}

pub fn sort_number(s: Sort) -> u8
    ensures { result ≡ sort_number s }
{
    u8::from(s)
}

// Whether a number is that of an edition that can be read and written.
pub fn is_known(edition: u8) -> bool
    ensures { result ≡ is_known editions edition }
{
    matches!(edition, EDITION_1 | EDITION_2 | EDITION)
}

// What the records of an edition may hold; of the newest where there is none of that number.
pub fn limits_of(edition: u8) -> Limits
    ensures { result ≡ limits_of (edition_numbered editions edition) }
{
    if edition == EDITION_1 {
        return Limits {
            entries: LIMIT_1,
            positions: LIMIT_1,
            followers: false,
        };
    }
    Limits {
        entries: server_log::LOG_LIMIT,
        positions: server_log::HIGHEST_POSITION,
        followers: edition != EDITION_2,
    }
}

// How many bytes a first frame of an edition has.
pub fn first_bytes(edition: u8) -> usize
    ensures { result ≡ size_of (edition_numbered editions edition).widths S.First }
{
    if limits_of(edition).followers {
        FIRST_BYTES
    } else {
        FIRST_BYTES - 1
    }
}

// Whether no note is of a greater length.
fn notes_within(m: Mail, most: usize) -> bool
    ensures { result ≡ notes_within most m }
{
    m.notes.iter().all(|n| usize::from(n.len) <= most)
}

// Whether no report is of a greater length.
// Kept: beside `notes_within`, since the one line of each is what a function of both would take.
fn reports_within(q: Queue, most: usize) -> bool
    ensures { result ≡ reports_within most q }
{
    q.reports.iter().all(|r| usize::from(r.len) <= most)
}

// Whether a server has no more than the edition allows.
#[tactic(auto, unfolding(crate::specs::Editions::allows_server))]
fn allows_server(edition: u8, s: Server) -> bool
    ensures { result ≡ allows_server (edition_numbered editions edition) s }
{
    let most = limits_of(edition);
    server_log::length_of(s.log) <= most.entries
        && notes_within(s.mail, most.positions)
        && reports_within(s.mail.queue, most.positions)
}

// Whether there are no followers, or the edition has them.
fn allows_followers(edition: u8, followers: u8) -> bool
    ensures { result ≡ allows_followers (edition_numbered editions edition).widths followers }
{
    limits_of(edition).followers || followers == 0
}

// Whether a record has no more than the edition allows.
pub fn allows(edition: u8, c: Cluster) -> bool
    ensures { result ≡ allows (edition_numbered editions edition) c }
{
    allows_followers(edition, c.followers) && c.servers.iter().all(|s| allows_server(edition, *s))
}

// Whether the edition has a form for a record.
#[tactic(auto, unfolding(crate::specs::Editions::has_form))]
fn has_form(edition: u8, c: Cluster) -> bool
    ensures { result ≡ has_form (edition_numbered editions edition) c }
{
    cluster::well_formed(c) && allows(edition, c)
}

// The edition, the server count and the followers.
fn first_frame(edition: u8, size: usize, followers: u8) -> [u8; FIRST_BYTES]
    requires { size < byte }
    ensures { result ≡ first_frame widths3 edition size followers }
{
    [sort_number(Sort::First), edition, size as u8, followers]
}

// How many notes are used.
#[tactic(auto, using(base::proofs::Counting::count_yes, base::proofs::Counting::count_no, base::proofs::Counting::count_le, base::proofs::Facts::mapped_long))]
fn used_notes(m: Mail) -> u8
    ensures { result ≡ used_notes m }
{
    let mut used: u8 = 0;
    for n in &m.notes {
        if !mail::is_unused(*n) {
            used += 1;
        }
    }
    used
}

// 0 for none, and n + 1 for server n.
fn source_number(source: Option<usize>) -> u8
    requires { source_number source < byte }
    ensures { result ≡ source_number source }
{
    match source {
        Some(n) => n as u8 + 1,
        None => 0,
    }
}

// What follows a server's frame, and then what the server keeps beside its log and its mail.
fn server_frame(s: Server) -> [u8; SERVER_BYTES]
    requires { Small s }
    ensures { result ≡ server_frame widths1 s }
{
    let len = s.log.len as u16;
    let commit = s.head.commit as u16;
    let m = s.mail;
    let h = s.head;
    [
        sort_number(Sort::Server),
        high(len),
        low(len),
        used_notes(m),
        m.queue.len as u8,
        source_number(m.source),
        u8::from(h.primary),
        high(h.term),
        low(h.term),
        high(commit),
        low(commit),
        high(h.wall),
        low(h.wall),
        high(h.time.p),
        low(h.time.p),
        high(h.time.l),
        low(h.time.l),
    ]
}

// Term, key, value, time.
fn entry_frame(e: Entry) -> [u8; ENTRY_BYTES]
    ensures { result ≡ entry_frame widths1 e }
{
    [
        sort_number(Sort::Entry),
        high(e.term),
        low(e.term),
        e.key,
        high(e.value),
        low(e.value),
        high(e.time.p),
        low(e.time.p),
        high(e.time.l),
        low(e.time.l),
    ]
}

// A frame of this sort that tells whose note it is, and its term, last term and length.
fn told_frame(sort: u8, who: u8, n: Note) -> [u8; TOLD_BYTES]
    ensures { result ≡ sort ∷ field_bytes (widths1 S.Note) (told_numbers who n) }
{
    [
        sort,
        who,
        high(n.term),
        low(n.term),
        high(n.last),
        low(n.last),
        high(n.len),
        low(n.len),
    ]
}

fn note_frame(who: usize, n: Note) -> [u8; TOLD_BYTES]
    requires { who < byte }
    ensures { result ≡ note_frame widths1 who n }
{
    told_frame(sort_number(Sort::Note), who as u8, n)
}

fn report_frame(r: Report) -> [u8; TOLD_BYTES]
    ensures { result ≡ report_frame widths1 r }
{
    told_frame(sort_number(Sort::Report), r.who, mail::note_of(r))
}

// A frame's characters and a line feed, written at a place of the buffer; the place after them.
// Kept: a writer that holds buffer and place would say `Written w.old.out w.old.at w.new.out w.new.at` in the same six clauses, none shorter.
fn put_line(out: &mut [u8], at: usize, frame: &[u8]) -> usize
    requires { at + length (text_of (frame.now ∷ [])) ≤ length out.old }
    ensures { Written out.old at out.new result (frame.now ∷ []) }
{
    let end = at + hex_text::CHARS * frame.len();
    hex_text::enhex(frame, &mut out[at..end]);
    out[end] = LINE_FEED;
    end + 1
}

// A log's entries by position.
fn put_entries(out: &mut [u8], at: usize, g: Log) -> usize
    requires len_le_log_limit { g.len ≤ log_limit }
    requires g_in_bounds { at + length (text_of (map (entry_frame widths1) (kept g))) ≤ length out.old }
    ensures { Written out.old at out.new result (map (entry_frame widths1) (kept g)) }
{
    let mut w = at;
    for i in 0..g.len {
        let f = entry_frame(g.entries[i]);
        w = put_line(out, w, &f);
    }
    w
}

// The note about a server, where it is used.
fn put_note(out: &mut [u8], at: usize, who: usize, n: Note) -> usize
    requires who_lt_byte { who < byte }
    requires n_in_bounds { at + length (text_of (note_frames widths1 who (n ∷ []))) ≤ length out.old }
    ensures { Written out.old at out.new result (note_frames widths1 who (n ∷ [])) }
{
    if mail::is_unused(n) {
        return at;
    }
    let f = note_frame(who, n);
    put_line(out, at, &f)
}

// The used notes by server number.
fn put_notes(out: &mut [u8], at: usize, m: Mail) -> usize
    requires { at + length (text_of (note_frames widths1 0 m.notes)) ≤ length out.old }
    ensures { Written out.old at out.new result (note_frames widths1 0 m.notes) }
{
    let mut w = at;
    for i in 0..mail::NOTE_SLOTS {
        w = put_note(out, w, i, m.notes[i]);
    }
    w
}

// A queue's reports, oldest first.
// Kept: it differs from `put_entries` in the frame; one of both would take that as a closure, with clauses for what the closure gives, to save two lines.
fn put_reports(out: &mut [u8], at: usize, q: Queue) -> usize
    requires len_le_queue_limit { q.len ≤ queue_limit }
    requires q_in_bounds { at + length (text_of (map (report_frame widths1) (queued_reports q))) ≤ length out.old }
    ensures { Written out.old at out.new result (map (report_frame widths1) (queued_reports q)) }
{
    let mut w = at;
    for i in 0..q.len {
        let f = report_frame(q.reports[i]);
        w = put_line(out, w, &f);
    }
    w
}

// A server, its entries, its used notes, its reports.
fn put_server(out: &mut [u8], at: usize, s: Server) -> usize
    requires small { Small s }
    requires longest_server_in_bounds { at + longest_server ≤ length out.old }
    ensures frames { Written out.old at out.new result (server_frames widths1 s) }
    ensures short { result ≤ at + longest_server }
{
    let f = server_frame(s);
    let g = s.log;
    let m = s.mail;
    let q = m.queue;
    let past = put_line(out, at, &f);
    let past = put_entries(out, past, g);
    let past = put_notes(out, past, m);
    put_reports(out, past, q)
}

// The counted servers.
fn put_servers(out: &mut [u8], at: usize, c: Cluster) -> usize
    requires c_value { well_formed c ≡ true }
    requires longest_server_in_bounds { at + most_servers * longest_server ≤ length out.old }
    ensures { Written out.old at out.new result (all_frames widths1 (take c.count c.servers)) }
{
    let mut w = at;
    for i in 0..c.count {
        w = put_server(out, w, c.servers[i]);
    }
    w
}

// Writes the saved form of a record in an edition at the buffer's beginning, and gives its length, where the edition is known and has a form for it, and the longest has
// room.
pub fn save_as(edition: u8, c: Cluster, out: &mut [u8]) -> Result<usize, NotSaved>
    ensures result { result ≡ saved_as_of edition c (length out.old) }
    ensures output { out.new ≡ saved_as_out edition c out.old }
{
    if !is_known(edition) {
        return Err(NotSaved::Refused(Refusal::OutOfRange));
    }
    if !has_form(edition, c) {
        return Err(NotSaved::Refused(Refusal::IllFormed));
    }
    if out.len() < LONGEST {
        return Err(NotSaved::NoRoom);
    }
    let f = first_frame(edition, c.count, c.followers);
    let n = first_bytes(edition);
    let past = put_line(out, 0, &f[..n]);
    let end = put_servers(out, past, c);
    Ok(end)
}

// The same in the newest edition, which has a form for every well-formed record.
pub fn save(c: Cluster, out: &mut [u8]) -> Result<usize, NotSaved>
    ensures result { result ≡ saved_of c (length out.old) }
    ensures output { out.new ≡ saved_out c out.old }
{
    save_as(EDITION, c, out)
}
