// Which records of a list a sentence is to name.
ghost use Rattle.checks.specs.Finding.{FirstOut, LaterBefore};

use phones::Listed;

// The number of the first record that is out of range, counted from 0.
pub(crate) fn out_of_range(s: Listed) -> Option<usize>
    ensures { FirstOut s.records result }
{
    s.records
        .iter()
        .position(|r| !histories::obeys::in_range(*r))
}

// The number of a record before record n, of its session, whose time is later.
pub(crate) fn seen_later(s: Listed, n: usize) -> Option<usize>
    ensures { LaterBefore s.records n result }
{
    let r = *s.records.get(n)?;
    s.records[..n]
        .iter()
        .position(|e| !histories::obeys::not_before(*e, r))
}
