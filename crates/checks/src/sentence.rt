// The verdict as a sentence: first words for scripts, as docs/HISTORIES.md has them, and then words for a person.
ghost use Rattle.std.specs.Prelude.{◌<◌};
ghost use Rattle.phones.specs.Listed.{most_kept};

use crate::find;
use crate::passed::Passed;
use crate::say::Valued;
use followed::Run;
use histories::kept::MOST_KEPT;
use histories::why::Reason;
use histories::{Checked, PhoneRecord};
use phones::Listed;
use server_log::{Entry, Log};
use std::fmt::{self, Display, Formatter, Write};
use steps::Refusal;
use streams::Streams;
use verdicts::Verdict;

// The one sentence, with what is passed over of the step lines, and of the phones'.
pub(crate) fn tell(streams: &Streams, run: Run, s: Listed, passed: Passed, ends: Passed) {
    streams.print(Sentence {
        run: &run,
        list: &s,
        passed,
        ends,
    });
}

#[derive(Clone, Copy)]
struct Sentence<'a> {
    run: &'a Run,
    list: &'a Listed,
    passed: Passed,
    ends: Passed,
}

impl Display for Sentence<'_> {
    fn fmt<W: Write>(&self, f: &mut Formatter<W>) -> fmt::Result {
        match verdicts::judge(*self.run, *self.list) {
            Verdict::BadLine(n) => bad_line(f, n, self.ends.cr)?,
            Verdict::NoStart => {
                f.write_str(
                    "no start: no step line has started a cluster, so there is no log to check against; the step files are named first, the phones' file last",
                )?;
                no_frames(f, self.passed)?;
            }
            Verdict::Judged(c) => {
                judged(f, c, self.run.longest, self.list)?;
                against(f, server_log::length_of(self.run.longest), self.run.starts)?;
                no_frames(f, self.passed)?;
            }
        }
        f.write_str("\n")
    }
}

// A line that ends in CR is no record, so the first of them is no earlier than the first bad one.
fn bad_line<W: Write>(f: &mut Formatter<W>, n: usize, cr: Option<usize>) -> fmt::Result {
    write!(
        f,
        "refusal 1 at line {n}: that line of the phones' file, which is the last one named, is no record (24 characters 0-9 a-f and then a line feed), so nothing is checked"
    )?;
    cr_lf(f, cr.filter(|line| *line == n))
}

// How many step lines change nothing since they are no frames, and which is the first.
fn no_frames<W: Write>(f: &mut Formatter<W>, p: Passed) -> fmt::Result {
    let Some(first) = p.first else {
        return Ok(());
    };
    write!(
        f,
        "; step lines that are no frames: {}, the first of them line {first}, counted over all step files",
        p.count
    )?;
    cr_lf(f, p.cr)
}

fn cr_lf<W: Write>(f: &mut Formatter<W>, line: Option<usize>) -> fmt::Result {
    let Some(line) = line else {
        return Ok(());
    };
    write!(
        f,
        "; line {line} ends in CR LF, as in files from Windows: tr -d '\\r' <FILE >NEW takes the CR out"
    )
}

fn judged<W: Write>(f: &mut Formatter<W>, c: Checked, g: Log, s: &Listed) -> fmt::Result {
    match c {
        Checked::Accepted => write!(f, "accepted {}: every record is as the log has it", s.count),
        Checked::Breaks(n) => breaks(f, n, g, s),
        Checked::Refused(x) => refused(f, x, s),
    }
}

// What the records are checked against: so many entries, since the last of so many starts.
fn against<W: Write>(f: &mut Formatter<W>, entries: usize, starts: usize) -> fmt::Result {
    if starts <= 1 {
        if entries == 0 {
            return f.write_str("; no commit point has ever covered an entry");
        }
        return write!(f, "; entries that a commit point ever covered: {entries}");
    }
    if entries == 0 {
        f.write_str("; no commit point has covered an entry since the last start")?;
    } else {
        write!(
            f,
            "; entries that a commit point covered since the last start: {entries}"
        )?;
    }
    write!(
        f,
        "; starts that succeeded: {starts}, of which the last counts"
    )
}

fn refused<W: Write>(f: &mut Formatter<W>, x: Refusal, s: &Listed) -> fmt::Result {
    match x {
        Refusal::IllFormed => f.write_str(
            "refusal 2: what the steps covered is no log that a record could hold, so nothing is checked",
        ),
        _ => out_of_range(f, s),
    }
}

// A list too long, or a record out of range.
fn out_of_range<W: Write>(f: &mut Formatter<W>, s: &Listed) -> fmt::Result {
    if histories::MOST_RECORDS < s.count {
        return f.write_str(
            "refusal 3: there are more than 256 records, so nothing is checked; give a file for each session, or several whole sessions at once, since a session that is cut in two is checked as two",
        );
    }
    let line = find::out_of_range(*s).unwrap_or(MOST_KEPT) + 1;
    write!(
        f,
        "refusal 3: the record in line {line} is neither of a write (kind 06) nor of a majority read (0b), or its key is above 15 (0f), so nothing is checked"
    )
}

// The record that breaks a rule, its line, which rule, and what the log has there.
fn breaks<W: Write>(f: &mut Formatter<W>, n: usize, g: Log, s: &Listed) -> fmt::Result {
    write!(f, "record {n}")?;
    if MOST_KEPT <= n {
        return Ok(());
    }
    write!(f, " at line {}: a ", n + 1)?;
    rule(f, verdicts::reason(g, s.records[n]), n, s)?;
    f.write_str("; docs/HISTORIES.md tells what that can mean")
}

// What the record says, and which rule that breaks.
fn rule<W: Write>(f: &mut Formatter<W>, why: Reason, n: usize, s: &Listed) -> fmt::Result
    requires { n < most_kept }
{
    let r = s.records[n];
    let value = Valued {
        key: r.key,
        value: r.value,
        time: r.time,
    };
    match why {
        Reason::NoSuchPosition => write!(
            f,
            "write of {value}, position {}, but the log has no such position",
            r.position
        ),
        Reason::OtherEntry(e) => {
            write!(
                f,
                "write of {value}, position {}, but there the log has ",
                r.position
            )?;
            entry(f, e)
        }
        Reason::NoSuchTime => write!(f, "read of {value}, but no entry of the log has that time"),
        Reason::OtherValue(0) => write!(
            f,
            "read of {value}, but the log has no value for that key up to that time"
        ),
        Reason::OtherValue(v) => write!(
            f,
            "read of {value}, but up to that time the log has for that key value {v}"
        ),
        Reason::TooEarly => {
            let j = find::seen_later(*s, n).unwrap_or(n);
            write!(f, "read of {value}, but its session ")?;
            too_early(f, s.records[j], r.session, j + 1)
        }
    }
}

fn entry<W: Write>(f: &mut Formatter<W>, e: Entry) -> fmt::Result {
    if e.key == server_log::NO_KEY {
        return write!(f, "an entry that writes nothing, at time {}", e.time);
    }
    let value = Valued {
        key: e.key,
        value: e.value,
        time: e.time,
    };
    write!(f, "{value}")
}

// The record in that line has seen more than a later one of its session.
fn too_early<W: Write>(
    f: &mut Formatter<W>,
    e: PhoneRecord,
    session: u16,
    line: usize,
) -> fmt::Result {
    write!(
        f,
        "{session} had seen time {} before, in line {line}",
        e.time
    )
}
