// The check for a caller that keeps the records in an array of its own: it lends the first of them.
ghost use Rattle.std.specs.Prelude.{◌≡◌, take};
ghost use Rattle.histories.specs.Lending.{lent_by};
ghost use Rattle.histories.specs.Checking.{check_of};

use crate::committed::Columns;
use crate::{Checked, PhoneRecord};

// Room for a record more than a list can have, by which a longer one is told.
pub const MOST_KEPT: usize = crate::MOST_RECORDS + 1;

// The check of the first n records, of which there are no more than there is room for.
pub fn check_first(records: [PhoneRecord; MOST_KEPT], n: usize, log: Columns) -> Checked
    ensures { result ≡ check_of (take n records) (lent_by log.entry) }
{
    let m = n.min(MOST_KEPT);
    crate::check(&records[..m], log)
}
