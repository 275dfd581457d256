// A committed log, lent as five slices of numbers, one a field.
ghost use Rattle.std.specs.Prelude.{◌≡◌, ◌≤◌, length};
ghost use Rattle.server_log.specs.Entries.{entry_at};
ghost use Rattle.server_log.specs.Order.{in_order};
ghost use Rattle.clock.specs.Times.{limit};
ghost use Rattle.histories.specs.Lending.{lent_by, lent_log};
ghost use Rattle.histories.specs.Committed.{same_lengths, could_hold};
ghost use Rattle.histories.specs.Rules.{known_time, readable, value_at};

use clock::Time;
use server_log::Entry;

// Kept: five slices and not one of entries, since five can have different lengths, and such a log is refused (`could_hold`).
#[derive(Clone, Copy)]
pub struct Columns<'a> {
    pub terms: &'a [u16],
    pub keys: &'a [u8],
    pub values: &'a [u16],
    pub ps: &'a [u16],
    pub ls: &'a [u16],
}

impl<'a> Columns<'a> {
    // How many entries all five slices have.
    pub(crate) fn entries(self) -> usize
        ensures { result ≡ length (lent_log self.entry) }
    {
        self.terms
            .len()
            .min(self.keys.len())
            .min(self.values.len())
            .min(self.ps.len())
            .min(self.ls.len())
    }

    // The entry at position n, which is one of the log's.
    pub(crate) fn entry_at(self, n: usize) -> Entry
        requires { (1 ≤ n) × (n ≤ length (lent_log self)) }
        ensures { result ≡ entry_at (lent_log self.entry) n }
    {
        let i = n - 1;
        Entry {
            term: self.terms[i],
            key: self.keys[i],
            value: self.values[i],
            time: Time {
                p: self.ps[i],
                l: self.ls[i],
            },
        }
    }

    // Whether the five slices are of one length.
    fn together(self) -> bool
        ensures { result ≡ same_lengths (lent_by self.entry) }
    {
        let n = self.terms.len();
        self.keys.len() == n && self.values.len() == n && self.ps.len() == n && self.ls.len() == n
    }

    // Whether every entry may stand in its place, at a server of some term.
    fn in_order(self) -> bool
        ensures { result ≡ in_order limit (lent_log self.entry) }
    {
        let mut d = server_log::ZERO_ENTRY;
        for i in 0..self.entries() {
            let e = self.entry_at(i + 1);
            if !server_log::place_ok(clock::LIMIT, i, d, e) {
                return false;
            }
            d = e;
        }
        true
    }

    // Whether a well-formed record could hold the log.
    pub(crate) fn could_hold(self) -> bool
        ensures { result ≡ could_hold (lent_by self.entry) }
    {
        self.together() && self.terms.len() <= crate::COMMITTED_LIMIT && self.in_order()
    }

    // Whether the time is (0,0) or some entry's, looked for from the newest end.
    pub(crate) fn known_time(self, t: Time) -> bool
        ensures { result ≡ known_time (lent_log self.entry) t }
    {
        if clock::same_time(t, clock::ZERO_TIME) {
            return true;
        }
        for i in (0..self.entries()).rev() {
            let e = self.entry_at(i + 1);
            if clock::same_time(e.time, t) {
                return true;
            }
        }
        false
    }

    // The value of the last entry for the key that is not after the time, looked for from the newest end; 0 if there is none.
    pub(crate) fn value_at(self, key: u8, t: Time) -> u16
        ensures { result ≡ value_at (lent_log self.entry) key t }
    {
        for i in (0..self.entries()).rev() {
            let e = self.entry_at(i + 1);
            if can_read(key, t, e) {
                return e.value;
            }
        }
        0
    }
}

// Whether the entry is for the key, and not after the time.
fn can_read(key: u8, t: Time, e: Entry) -> bool
    ensures { result ≡ readable key t e }
{
    e.key == key && !clock::is_before(t, e.time)
}
