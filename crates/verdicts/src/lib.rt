// The verdict on what phones saw, by the run that was followed and the list that was read.
#![tactic(auto, unfolding(crate::specs::Verdicts::verdict_of))]

ghost use Rattle.std.specs.Prelude.{◌≡◌, ◌≤◌};
ghost use Rattle.server_log.specs.Logs.{live};
ghost use Rattle.histories.specs.Committed.{committed_limit};
ghost use Rattle.histories.specs.Lending.{lent_by};
ghost use Rattle.histories.specs.Checking.{check_of};
ghost use Rattle.histories.specs.Longest.{columns_of};
ghost use Rattle.histories.specs.Reasons.{why_of};
ghost use Rattle.phones.specs.Listed.{records_kept};
ghost use Rattle.verdicts.specs.Verdicts.{all_columns, first_columns, verdict_of};

use followed::Run;
use histories::committed::Columns;
use histories::why::Reason;
use histories::{COMMITTED_LIMIT, Checked, PhoneRecord};
use phones::Listed;
use server_log::{LOG_LIMIT, Log};

// Kept: three outcomes and no Result, since none is a refusal of the others: each is a sentence of its own.
#[derive(Clone, Copy)]
pub enum Verdict {
    // the number of the first line that is no record, counted from 1
    BadLine(usize),
    // no start has succeeded, so there is no log
    NoStart,
    Judged(Checked),
}

// A log with an array a field, as the check is lent it.
// Kept: five arrays, since the check takes a slice of each (`could_hold` refuses five of different lengths).
#[derive(Clone, Copy)]
struct Spread {
    terms: [u16; COMMITTED_LIMIT],
    keys: [u8; COMMITTED_LIMIT],
    values: [u16; COMMITTED_LIMIT],
    ps: [u16; COMMITTED_LIMIT],
    ls: [u16; COMMITTED_LIMIT],
}

fn spread_of(g: Log) -> Spread
    ensures { result ≡ all_columns g }
{
    let mut c = Spread {
        terms: [0; COMMITTED_LIMIT],
        keys: [0; COMMITTED_LIMIT],
        values: [0; COMMITTED_LIMIT],
        ps: [0; COMMITTED_LIMIT],
        ls: [0; COMMITTED_LIMIT],
    };
    for i in 0..LOG_LIMIT {
        let e = g.entries[i];
        c.terms[i] = e.term;
        c.keys[i] = e.key;
        c.values[i] = e.value;
        c.ps[i] = e.time.p;
        c.ls[i] = e.time.l;
    }
    c
}

// The first n slots of a log, lent to the check.
fn lend(c: &Spread, n: usize) -> Columns<'_>
    requires { n ≤ committed_limit }
    ensures { lent_by result ≡ first_columns n c.now }
{
    Columns {
        terms: &c.terms[..n],
        keys: &c.keys[..n],
        values: &c.values[..n],
        ps: &c.ps[..n],
        ls: &c.ls[..n],
    }
}

// The check of a list against the log.
fn checked(g: Log, s: Listed) -> Checked
    ensures { result ≡ check_of (records_kept s) (columns_of (live g)) }
{
    let n = server_log::length_of(g);
    let c = spread_of(g);
    let log = lend(&c, n);
    histories::kept::check_first(s.records, s.count, log)
}

// Why a record breaks a rule, by the log.
pub fn reason(g: Log, r: PhoneRecord) -> Reason
    ensures { result ≡ why_of (live g) r }
{
    let n = server_log::length_of(g);
    let c = spread_of(g);
    let log = lend(&c, n);
    histories::why::why(r, log)
}

// A bad line comes first, then a run without a start, then the check.
pub fn judge(run: Run, s: Listed) -> Verdict
    ensures { result ≡ verdict_of run s }
{
    if let Some(n) = s.bad {
        return Verdict::BadLine(n);
    }
    if run.starts == 0 {
        return Verdict::NoStart;
    }
    Verdict::Judged(checked(run.longest, s))
}
