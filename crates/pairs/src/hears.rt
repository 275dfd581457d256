// Kind 3: a hears b.
ghost use Rattle.std.specs.Prelude.{◌≡◌};
ghost use Rattle.pairs.specs.Hears.{takes_commit, stays_primary, hears_of};

use cluster::{Head, Server};
use server_log::rows::Rows;
use steps::{Answer, Stepped};

// Whether a, hearing b, takes its commit point.
#[tactic(auto, unfolding(crate::specs::Hears::takes_commit))]
pub fn takes_commit(s: Server, t: Server) -> bool
    ensures { result ≡ takes_commit s t }
{
    s.head.commit < t.head.commit && server_log::equal_at(s.log, t.log, t.head.commit)
}

// Whether a stays primary, hearing b: a higher term makes it secondary.
pub fn stays_primary(s: Server, t: Server) -> bool
    ensures { result ≡ stays_primary s t }
{
    s.head.primary && t.head.term <= s.head.term
}

#[tactic(auto, unfolding(crate::specs::Hears::heard_of))]
pub fn hears(s: Server, t: Server) -> Stepped
    ensures { result ≡ hears_of s t }
{
    let time = clock::later(s.head.time, t.head.time);
    let term = s.head.term.max(t.head.term);
    let primary = stays_primary(s, t);
    let commit = if takes_commit(s, t) {
        t.head.commit
    } else {
        s.head.commit
    };
    let committed = cluster::committed_to(s, s.log, commit);
    let next = Server {
        head: Head {
            term,
            primary,
            commit,
            time,
            ..s.head
        },
        rows: Rows {
            committed,
            ..s.rows
        },
        ..s
    };
    steps::answered(next, Answer::Done)
}
