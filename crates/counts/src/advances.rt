// Kind 7: a advances its commit point.
ghost use Rattle.std.specs.Prelude.{◌≡◌, min};
ghost use Rattle.cluster.specs.Servers.{most_servers};
ghost use Rattle.counts.specs.Advances.{backs, highest_passing, advances_of};

use cluster::{Cluster, Head, Server};
use server_log::rows::Rows;
use steps::{Answer, Outcome, Refusal};

// Whether server i counts for position n at s, which is server a.
pub fn does_back(s: Server, a: usize, n: usize, i: usize) -> bool
    ensures { result ≡ backs s a n i }
{
    let note = mail::note_at(s.mail, i);
    i == a || (note.term == s.head.term && note.last == s.head.term && n <= usize::from(note.len))
}

// The highest position that passes at s, which is server a where so many are counted and these are the followers, looked for from the log's end; 0
// if none does.
pub fn highest_passing(count: usize, followers: u8, s: Server, a: usize) -> usize
    ensures { result ≡ highest_passing (min count most_servers) followers s a }
{
    let size = cluster::server_count(count);
    let voters = cluster::sets::voters(size, followers);
    let mut n = server_log::length_of(s.log);
    // Kept: docs/FORMS.md names this loop that goes down to a `break`, and `passing_passes` speaks of 0 where none passes.
    loop {
        if n <= s.head.commit {
            break 0;
        }
        let backers = (0..size)
            .filter(|i| cluster::sets::does_vote(followers, *i) && does_back(s, a, n, *i))
            .count();
        let e = server_log::entry_at(s.log, n);
        if e.term == s.head.term && voters < backers * 2 {
            break n;
        }
        n -= 1;
    }
}

pub fn advances(c: Cluster, a: usize) -> Outcome
    ensures { result ≡ advances_of c a }
{
    if cluster::server_count(c.count) <= a {
        return steps::refuse_all(c, Refusal::OutOfRange);
    }
    let s = c.servers[a];
    if !s.head.primary {
        return steps::refuse_all(c, Refusal::WrongRole);
    }
    let n = highest_passing(c.count, c.followers, s, a);
    if n < 1 {
        return steps::refuse_all(c, Refusal::ConditionUnmet);
    }
    let t = Server {
        head: Head {
            commit: n,
            ..s.head
        },
        rows: Rows {
            committed: cluster::committed_to(s, s.log, n),
            ..s.rows
        },
        ..s
    };
    Outcome {
        cluster: cluster::with_server(c, a, t),
        answer: Answer::Reached(n),
    }
}
