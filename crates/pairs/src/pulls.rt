// Kind 4: a pulls from b.
ghost use Rattle.std.specs.Prelude.{◌≡◌};
ghost use Rattle.pairs.specs.Pulls.{may_join, took_of, pulls_of};

use super::reports::sent;
use cluster::{Head, Server};
use server_log::Log;
use server_log::rows::{Latest, Rows};
use steps::{Refusal, Stepped};

// Server a with the log g and its row, and the greater term, cluster time and commit point of both.
#[tactic(auto, unfolding(crate::specs::Pulls::took_of))]
pub fn took(s: Server, t: Server, g: Log, whole: Latest) -> Server
    ensures { result ≡ took_of s t g whole }
{
    let time = clock::later(s.head.time, t.head.time);
    let term = s.head.term.max(t.head.term);
    let commit = s.head.commit.max(t.head.commit);
    let committed = cluster::committed_to(s, g, commit);
    Server {
        head: Head {
            term,
            commit,
            time,
            ..s.head
        },
        log: g,
        rows: Rows { whole, committed },
        ..s
    }
}

// Whether a log of n entries is empty, or ends in an entry equal to the other's at that position.
pub fn may_join(g: Log, h: Log, n: usize) -> bool
    ensures { result ≡ may_join g h n }
{
    n == 0 || server_log::equal_at(g, h, n)
}

pub fn pulls(s: Server, t: Server, a: u8, b: u8) -> Stepped
    ensures { result ≡ pulls_of s t a b }
{
    if s.head.primary {
        return steps::refuse(s, Refusal::WrongRole);
    }
    let n = server_log::length_of(s.log);
    if server_log::length_of(t.log) <= n || !may_join(s.log, t.log, n) {
        return steps::refuse(s, Refusal::ConditionUnmet);
    }
    let log = server_log::join(s.log, t.log, n);
    let end = server_log::length_of(log);
    let whole = server_log::rows::latest_over(s.rows.whole, log, n, end);
    sent(took(s, t, log, whole), a, b)
}
