// 02's rules for one record of a phone.
ghost use Rattle.std.specs.Prelude.{◌≡◌};
ghost use Rattle.histories.specs.Lending.{lent_log};
ghost use Rattle.histories.specs.Rules.{record_in_range, same_write, write_obeys, not_before, keeps_order, read_obeys, obeys};

use crate::PhoneRecord;
use crate::committed::Columns;
use server_log::Entry;

// Whether a record is of one of the two kinds, and its key is not above 15.
pub fn in_range(r: PhoneRecord) -> bool
    ensures { result ≡ record_in_range r }
{
    r.key <= server_log::HIGHEST_KEY && (r.kind == crate::WRITE_KIND || r.kind == crate::READ_KIND)
}

// Whether the entry has the record's key, value and time.
fn same_write(e: Entry, r: PhoneRecord) -> bool
    ensures { result ≡ same_write e r }
{
    e.key == r.key && e.value == r.value && clock::same_time(e.time, r.time)
}

// Whether a write's key, value and time are those of the entry at its position.
fn write_obeys(r: PhoneRecord, log: Columns) -> bool
    ensures { result ≡ write_obeys (lent_log log.entry) r }
{
    let n = usize::from(r.position);
    1 <= n && n <= log.entries() && same_write(log.entry_at(n), r)
}

// Whether a record's time is not before that of an earlier one, unless that is of another session.
pub fn not_before(e: PhoneRecord, r: PhoneRecord) -> bool
    ensures { result ≡ not_before e r }
{
    e.session != r.session || !clock::is_before(r.time, e.time)
}

// Whether a record's time is not before that of any earlier one of its session.
fn keeps_order(earlier: &[PhoneRecord], r: PhoneRecord) -> bool
    ensures { result ≡ keeps_order earlier.now r }
{
    earlier.iter().all(|e| not_before(*e, r))
}

// Whether a read's time and value are in the log, and its time is not before that of an earlier record of its session.
fn read_obeys(earlier: &[PhoneRecord], r: PhoneRecord, log: Columns) -> bool
    ensures { result ≡ read_obeys (lent_log log.entry) earlier.now r }
{
    log.known_time(r.time) && log.value_at(r.key, r.time) == r.value && keeps_order(earlier, r)
}

// Whether a record obeys the rule of its kind.
pub(crate) fn obeys(earlier: &[PhoneRecord], r: PhoneRecord, log: Columns) -> bool
    ensures { result ≡ obeys (lent_log log.entry) earlier.now r }
{
    if r.kind == crate::WRITE_KIND {
        return write_obeys(r, log);
    }
    read_obeys(earlier, r, log)
}
