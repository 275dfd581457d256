// Every value of the types fits their ranges: each function here only shows so, of whatever it is given.
// Kept: a function for each type, each of value true, since a fact of all values of a type is proved only where a contract names it.
#![tactic(auto)]

ghost use Rattle.std.specs.Prelude.{◌≡◌, true, ◌≤◌};
ghost use Rattle.clock.specs.Times.{limit};
ghost use Rattle.clock.specs.Ranges.{FitsTime};
ghost use Rattle.server_log.specs.Ranges.{FitsEntry, FitsLog, FitsLatest, FitsRows};
ghost use Rattle.mail.specs.Ranges.{FitsNote, FitsReport, FitsQueue, FitsMail};
ghost use Rattle.cluster.specs.Ranges.{FitsHead, FitsServer, Fits};
ghost use Rattle.steps.specs.Ranges.{FitsStep};
ghost use Rattle.answers.specs.Ranges.{FitsTelling};

use clock::Time;
use cluster::{Cluster, Head, Server};
use mail::{Mail, Note, Queue, Report};
use server_log::rows::{Latest, Rows};
use server_log::{Entry, Log};
use steps::{Step, Telling};

pub fn time_fits(t: Time) -> bool
    ensures value { result ≡ true }
    ensures fits_time { FitsTime t }
{
    true
}

pub fn entry_fits(e: Entry) -> bool
    ensures value { result ≡ true }
    ensures fits_entry { FitsEntry e }
{
    true
}

// Each slot is looked at, and what is shown of each is shown of all.
pub fn log_fits(g: Log) -> bool
    ensures value { result ≡ true }
    ensures fits_log { FitsLog g }
{
    g.entries.iter().all(|e| entry_fits(*e))
}

pub fn note_fits(n: Note) -> bool
    ensures value { result ≡ true }
    ensures fits_note { FitsNote n }
{
    true
}

pub fn report_fits(r: Report) -> bool
    ensures value { result ≡ true }
    ensures fits_report { FitsReport r }
{
    true
}

pub fn queue_fits(q: Queue) -> bool
    ensures value { result ≡ true }
    ensures fits_queue { FitsQueue q }
{
    q.reports.iter().all(|r| report_fits(*r))
}

pub fn mail_fits(m: Mail) -> bool
    ensures value { result ≡ true }
    ensures fits_mail { FitsMail m }
{
    m.notes.iter().all(|n| note_fits(*n)) && queue_fits(m.queue)
}

fn value_fits(n: u16) -> bool
    ensures value { result ≡ true }
    ensures n_le_limit { n ≤ limit }
{
    true
}

pub fn latest_fits(v: Latest) -> bool
    ensures value { result ≡ true }
    ensures fits_latest { FitsLatest v }
{
    v.values.iter().all(|n| value_fits(*n))
}

pub fn rows_fits(r: Rows) -> bool
    ensures value { result ≡ true }
    ensures fits_rows { FitsRows r }
{
    latest_fits(r.whole) && latest_fits(r.committed)
}

pub fn head_fits(h: Head) -> bool
    ensures value { result ≡ true }
    ensures fits_head { FitsHead h }
{
    true
}

pub fn server_fits(s: Server) -> bool
    ensures value { result ≡ true }
    ensures fits_server { FitsServer s }
{
    head_fits(s.head) && log_fits(s.log) && rows_fits(s.rows) && mail_fits(s.mail)
}

pub fn record_fits(c: Cluster) -> bool
    ensures value { result ≡ true }
    ensures fits { Fits c }
{
    c.servers.iter().all(|s| server_fits(*s))
}

pub fn step_fits(s: Step) -> bool
    ensures value { result ≡ true }
    ensures fits_step { FitsStep s }
{
    true
}

pub fn telling_fits(t: Telling) -> bool
    ensures value { result ≡ true }
    ensures fits_telling { FitsTelling t }
{
    true
}
