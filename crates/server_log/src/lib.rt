// Entries, and one log by value: an entry array beside its length, slots past the length zero.
#![tactic(auto, unfolding(crate::specs::Entries::same_entry, crate::specs::Entries::equal_at, crate::specs::Entries::has_entry, crate::specs::Logs::may_ask, crate::specs::Logs::has_room, crate::specs::Logs::appended, crate::specs::Order::entry_ok, crate::specs::Order::place_ok, crate::specs::Order::follows, crate::specs::Order::is_empty_log, crate::specs::Order::log_ok, clock::specs::Times::same_time))]

ghost use Rattle.std.specs.Prelude.{◌≡◌, min};
ghost use Rattle.server_log.specs.Entries.{zero_entry, same_entry, entry_at, last_term, applied_time, common_beginning, is_beginning, equal_at, has_entry};
ghost use Rattle.server_log.specs.Logs.{may_ask, empty_log, kept, live, length_of, has_room, appended, joined, latest_in};
ghost use Rattle.server_log.specs.Order.{entry_ok, place_ok, in_order, rest_zero, is_empty_log, log_ok};

use clock::Time;

pub mod rows;

#[derive(Clone, Copy, PartialEq, Eq)]
pub struct Entry {
    pub term: u16,
    pub key: u8,
    pub value: u16,
    pub time: Time,
}

// Kept: document 01 names this form, an array beside its length (docs/FORMS.md).
#[derive(Clone, Copy, PartialEq, Eq)]
pub struct Log {
    pub entries: [Entry; LOG_LIMIT],
    pub len: usize,
}

// How many entries a log can keep.
pub const LOG_LIMIT: usize = 128;

// The highest position: what can be asked for, and lengths in notes and reports, go so far.
pub const HIGHEST_POSITION: usize = 128;

pub const HIGHEST_KEY: u8 = 15;

// The key of an entry that writes nothing.
pub const NO_KEY: u8 = 255;

pub const ZERO_ENTRY: Entry = Entry {
    term: 0,
    key: 0,
    value: 0,
    time: clock::ZERO_TIME,
};

pub const EMPTY_LOG: Log = Log {
    entries: [ZERO_ENTRY; LOG_LIMIT],
    len: 0,
};

pub fn zero_entry() -> Entry
    ensures { result ≡ zero_entry }
{
    ZERO_ENTRY
}

pub fn empty_log() -> Log
    ensures { result ≡ empty_log }
{
    EMPTY_LOG
}

// Whether two entries are equal in all four parts.
pub fn same_entry(d: Entry, e: Entry) -> bool
    ensures { result ≡ same_entry d e }
{
    d == e
}

// How many entries the log holds.
pub fn length_of(g: Log) -> usize
    ensures { result ≡ length_of g }
{
    g.len.min(LOG_LIMIT)
}

// The entry at position n, counted from 1; the zero entry where there is none.
pub fn entry_at(g: Log, n: usize) -> Entry
    ensures { result ≡ entry_at (live g) n }
{
    match n.checked_sub(1) {
        Some(i) if i < length_of(g) => g.entries[i],
        _ => ZERO_ENTRY,
    }
}

// The term of the last entry, 0 if there is none.
pub fn last_term(g: Log) -> u16
    ensures { result ≡ last_term (live g) }
{
    entry_at(g, length_of(g)).term
}

// The time of the entry at position n, the zero time where there is none.
pub fn time_at(g: Log, n: usize) -> Time
    ensures { result ≡ (entry_at (live g) n).time }
{
    entry_at(g, n).time
}

// The time of the last entry, the zero time if there is none.
pub fn applied_time(g: Log) -> Time
    ensures { result ≡ applied_time (live g) }
{
    time_at(g, length_of(g))
}

// Whether both logs have an entry at position n, and equal ones.
pub fn equal_at(a: Log, b: Log, n: usize) -> bool
    ensures { result ≡ equal_at (live a) (live b) n }
{
    1 <= n && n <= length_of(a) && n <= length_of(b) && entry_at(a, n) == entry_at(b, n)
}

// Whether the log has an entry of that term at position n.
pub fn has_entry(g: Log, n: usize, term: u16) -> bool
    ensures { result ≡ has_entry (live g) n term }
{
    n <= length_of(g) && entry_at(g, n).term == term
}

// Whether an entry may be asked for by this position and this term.
pub fn may_ask(n: usize, term: u16) -> bool
    ensures { result ≡ may_ask n term }
{
    1 <= n && n <= HIGHEST_POSITION && 1 <= term
}

// How long the longest common beginning of both logs is.
pub fn common_beginning(a: Log, b: Log) -> usize
    ensures { result ≡ common_beginning (live a) (live b) }
{
    let n = length_of(a).min(length_of(b));
    for i in 0..n {
        if a.entries[i] != b.entries[i] {
            return i;
        }
    }
    n
}

// Whether log a is a beginning of log b.
pub fn is_beginning(a: Log, b: Log) -> bool
    ensures { result ≡ is_beginning (live a) (live b) }
{
    common_beginning(a, b) == length_of(a)
}

// Whether there is room for one entry more.
pub fn has_room(g: Log) -> bool
    ensures { result ≡ has_room g }
{
    g.len < LOG_LIMIT
}

// The log with one entry more; a full log stays as it is.
pub fn append(g: Log, e: Entry) -> Log
    ensures { result ≡ appended g e }
{
    if !has_room(g) {
        return g;
    }
    let mut h = g;
    h.entries[g.len] = e;
    h.len = g.len + 1;
    h
}

// The first k entries of a, and then the rest of b.
pub fn join(a: Log, b: Log, k: usize) -> Log
    ensures { result ≡ joined a b k }
{
    let n = k.min(LOG_LIMIT);
    let mut entries = b.entries;
    entries[..n].copy_from_slice(&a.entries[..n]);
    Log {
        entries: entries,
        ..b
    }
}

// The last position that counts where the first n entries do.
pub(crate) fn last_of(g: Log, n: usize) -> usize
    ensures { result ≡ min n (length_of g) }
{
    n.min(length_of(g))
}

// The value of the last entry for the key among the first n, looked for from the newest end; 0 if there is none.
pub fn latest_value(g: Log, key: u8, n: usize) -> u16
    ensures { result ≡ latest_in g key n }
{
    match g.entries[..last_of(g, n)]
        .iter()
        .rev()
        .find(|e| e.key == key)
    {
        Some(e) => e.value,
        None => 0,
    }
}

// Whether an entry may stand in a log of a server of this term.
pub fn entry_ok(term: u16, e: Entry) -> bool
    ensures { result ≡ entry_ok term e }
{
    1 <= e.term
        && e.term <= term
        && match e.key {
            0..=HIGHEST_KEY => 1 <= e.value,
            NO_KEY => e.value == 0,
            _ => false,
        }
}

// Whether entry e may stand right after the first i, the last of which is d.
pub fn place_ok(term: u16, i: usize, d: Entry, e: Entry) -> bool
    ensures { result ≡ place_ok term i d e }
{
    entry_ok(term, e) && (i == 0 || d.term <= e.term && clock::is_before(d.time, e.time))
}

// Whether every entry of the log may stand in its place.
pub fn in_order(g: Log, term: u16) -> bool
    ensures { result ≡ in_order term (kept g) }
{
    let mut d = ZERO_ENTRY;
    for i in 0..length_of(g) {
        let e = g.entries[i];
        if !place_ok(term, i, d, e) {
            return false;
        }
        d = e;
    }
    true
}

// Whether every slot past the first k is zero.
pub fn rest_zero(g: Log, k: usize) -> bool
    ensures { result ≡ rest_zero g k }
{
    g.entries[k.min(LOG_LIMIT)..]
        .iter()
        .all(|e| *e == ZERO_ENTRY)
}

// Whether the log has no entry and every slot is zero.
pub fn is_empty_log(g: Log) -> bool
    ensures { result ≡ is_empty_log g }
{
    g.len == 0 && rest_zero(g, 0)
}

// Whether a well-formed record may hold the log at a server of this term.
pub fn log_ok(g: Log, term: u16) -> bool
    ensures { result ≡ log_ok term g }
{
    g.len <= LOG_LIMIT && rest_zero(g, g.len) && in_order(g, term)
}
