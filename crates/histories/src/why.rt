// Which of 02's rules a record breaks, once it is known to break one.
ghost use Rattle.std.specs.Prelude.{◌≡◌};
ghost use Rattle.histories.specs.Lending.{lent_log};
ghost use Rattle.histories.specs.Reasons.{why_write, why_read, why_of};

use crate::PhoneRecord;
use crate::committed::Columns;
use server_log::Entry;

#[derive(Clone, Copy)]
pub enum Reason {
    // a write at position 0 or past the log
    NoSuchPosition,
    // a write whose key, value or time is another than that of this entry, which stands at its position
    OtherEntry(Entry),
    // a read as of a time of no entry
    NoSuchTime,
    // a read of another value than this one, which the log has at its time
    OtherValue(u16),
    // a read as of a time before that of an earlier record of its session
    TooEarly,
}

fn why_write(r: PhoneRecord, log: Columns) -> Reason
    ensures { result ≡ why_write (lent_log log.entry) r }
{
    let n = usize::from(r.position);
    if n < 1 || log.entries() < n {
        return Reason::NoSuchPosition;
    }
    Reason::OtherEntry(log.entry_at(n))
}

fn why_read(r: PhoneRecord, log: Columns) -> Reason
    ensures { result ≡ why_read (lent_log log.entry) r }
{
    if !log.known_time(r.time) {
        return Reason::NoSuchTime;
    }
    let value = log.value_at(r.key, r.time);
    if value != r.value {
        return Reason::OtherValue(value);
    }
    Reason::TooEarly
}

// Why a record breaks a rule: the first of its kind's rules that it breaks, and the order if none of the others.
pub fn why(r: PhoneRecord, log: Columns) -> Reason
    ensures { result ≡ why_of (lent_log log.entry) r }
{
    if r.kind == crate::WRITE_KIND {
        return why_write(r, log);
    }
    why_read(r, log)
}
