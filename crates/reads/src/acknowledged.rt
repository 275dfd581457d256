// Kind 12: server a is asked about a position and a term, in a cluster of so many servers.
ghost use Rattle.std.specs.Prelude.{◌≡◌};
ghost use Rattle.reads.specs.Acknowledged.{acknowledged_of};

use cluster::Server;
use steps::{Answer, Refusal, Stepped};

// Counts above 0 are retired, whatever the server has.
pub fn acknowledged(size: usize, s: Server, k: usize, n: usize, term: u16) -> Stepped
    ensures { result ≡ acknowledged_of size s k n term }
{
    if size < k {
        return steps::refuse(s, Refusal::OutOfRange);
    }
    if !server_log::may_ask(n, term) {
        return steps::refuse(s, Refusal::OutOfRange);
    }
    if k != 0 {
        return steps::refuse(s, Refusal::Retired);
    }
    if !server_log::has_entry(s.log, n, term) {
        return steps::refuse(s, Refusal::NoSuchEntry);
    }
    if s.head.commit < n {
        return steps::refuse(s, Refusal::NotYet);
    }
    let e = server_log::entry_at(s.log, n);
    steps::answered(s, Answer::Entry(n, e.term, e.time))
}
