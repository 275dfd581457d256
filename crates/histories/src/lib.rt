// What the phones saw, checked against a committed log: the records lent as a slice of structs, the log as five slices of
// numbers, one a field.
#![tactic(auto, unfolding(crate::specs::Checking::checked_of, crate::specs::Committed::same_lengths, crate::specs::Committed::could_hold, crate::specs::Rules::record_in_range, crate::specs::Rules::same_write, crate::specs::Rules::write_obeys, crate::specs::Rules::readable, crate::specs::Rules::not_before, crate::specs::Rules::read_obeys, crate::specs::Rules::obeys, crate::specs::Reasons::why_write, crate::specs::Reasons::why_read, crate::specs::Reasons::why_of))]

ghost use Rattle.std.specs.Prelude.{◌≡◌, length};
ghost use Rattle.histories.specs.Lending.{lent_by, lent_log};
ghost use Rattle.histories.specs.Checking.{obeys_at, first_breaker, list_ok, check_of};

use clock::Time;
use committed::Columns;
use steps::Refusal;

pub mod committed;
pub mod kept;
pub mod obeys;
pub mod why;

// What a phone logged of a majority write or a majority read that was answered. A session is as wide as every other number
// that a line of hexadecimal has room for.
#[derive(Clone, Copy)]
pub struct PhoneRecord {
    pub session: u16,
    // Kept: a byte and no enum, since a line may hold any kind, and a list that has one of no record's kind is refused (`record_in_range`).
    pub kind: u8,
    pub key: u8,
    pub value: u16,
    pub position: u16,
    pub time: Time,
}

// Kept: three outcomes and no Result, since what breaks a rule is an answer beside the others, which `check_of` and the theorems of
// `promises` name.
#[derive(Clone, Copy)]
pub enum Checked {
    Accepted,
    // the number of the first record that breaks a rule, counted from 0
    Breaks(usize),
    Refused(Refusal),
}

// How many records a list can have, and how many entries a whole committed log.
pub const MOST_RECORDS: usize = 256;

pub const COMMITTED_LIMIT: usize = 128;

// The kind of a write's record, and of a majority read's.
pub const WRITE_KIND: u8 = 6;

pub const READ_KIND: u8 = 11;

pub const NO_RECORD: PhoneRecord = PhoneRecord {
    session: 0,
    kind: 0,
    key: 0,
    value: 0,
    position: 0,
    time: clock::ZERO_TIME,
};

// Whether there are no more records than a list can have, and each is in range.
fn list_fits(records: &[PhoneRecord]) -> bool
    ensures { result ≡ list_ok records.now (length records.now) }
{
    let few = records.len() <= MOST_RECORDS;
    few && records.iter().all(|r| obeys::in_range(*r))
}

// The first record that breaks a rule, each judged by those before it.
fn first_breaker(records: &[PhoneRecord], log: Columns) -> Checked
    ensures { result ≡ first_breaker (length records.now) (obeys_at (lent_log log.entry) records.now) }
{
    for (i, r) in records.iter().enumerate() {
        if !obeys::obeys(&records[..i], *r, log) {
            return Checked::Breaks(i);
        }
    }
    Checked::Accepted
}

// Whether every record obeys the rules, the first that breaks one, or a refusal: the log is judged first, and then the list.
pub fn check(records: &[PhoneRecord], log: Columns) -> Checked
    ensures { result ≡ check_of records.now (lent_by log.entry) }
{
    if !log.could_hold() {
        return Checked::Refused(Refusal::IllFormed);
    }
    if !list_fits(records) {
        return Checked::Refused(Refusal::OutOfRange);
    }
    first_breaker(records, log)
}
