// The latest value for each key, in a row: of a whole log, and of its committed beginning. Reads find it there without a walk.
ghost use Rattle.std.specs.Prelude.{◌≡◌};
ghost use Rattle.server_log.specs.Rows.{value_for, latest_after, latest_over, between, rows_of, rows_ok};

use crate::{Entry, HIGHEST_KEY, Log, last_of, length_of};

// How many keys there are.
pub const KEYS: usize = 16;

// The value for each key, 0 for none.
#[derive(Clone, Copy, PartialEq, Eq)]
pub struct Latest {
    pub values: [u16; KEYS],
}

// What a server keeps beside its log.
#[derive(Clone, Copy, PartialEq, Eq)]
pub struct Rows {
    pub whole: Latest,
    pub committed: Latest,
}

pub const ZERO_ROW: Latest = Latest { values: [0; KEYS] };

pub const ZERO_ROWS: Rows = Rows {
    whole: ZERO_ROW,
    committed: ZERO_ROW,
};

// The value that a row has for a key, 0 where there is no such key.
pub fn value_for(v: Latest, key: u8) -> u16
    ensures { result ≡ value_for v key }
{
    v.values.get(usize::from(key)).copied().unwrap_or(0)
}

// The row after one entry more; one that writes nothing changes nothing.
pub fn latest_after(v: Latest, e: Entry) -> Latest
    ensures { result ≡ latest_after v e }
{
    if HIGHEST_KEY < e.key {
        return v;
    }
    let key = usize::from(e.key);
    let mut w = v;
    w.values[key] = e.value;
    w
}

// The row after the log's entries past position k, up to position n.
pub fn latest_over(v: Latest, g: Log, k: usize, n: usize) -> Latest
    ensures { result ≡ latest_over v (between g k n) }
{
    let end = last_of(g, n);
    let mut w = v;
    // In place, which is quicker than a row from each call of latest_after.
    for i in k..end {
        let e = g.entries[i];
        if e.key <= HIGHEST_KEY {
            w.values[usize::from(e.key)] = e.value;
        }
    }
    w
}

// Both rows of a log with this commit point, in one walk.
pub fn rows_of(g: Log, commit: usize) -> Rows
    ensures { result ≡ rows_of g commit }
{
    let n = length_of(g);
    let committed = latest_over(ZERO_ROW, g, 0, commit);
    let whole = latest_over(committed, g, commit, n);
    Rows {
        whole: whole,
        committed: committed,
    }
}

// Whether both rows have what a walking read finds in the whole log and in its committed beginning.
pub fn rows_ok(r: Rows, g: Log, commit: usize) -> bool
    ensures { result ≡ rows_ok r g commit }
{
    let afresh = rows_of(g, commit);
    r == afresh
}
