// Kind 15: newest read at a, of the entries up to a position.
ghost use Rattle.std.specs.Prelude.{◌≡◌};
ghost use Rattle.reads.specs.NewestRead.{newest_read_of};

use cluster::Server;
use steps::{Answer, Refusal, Stepped};

pub fn newest_read(s: Server, key: u8, n: usize, term: u16) -> Stepped
    ensures { result ≡ newest_read_of s key n term }
{
    if server_log::HIGHEST_KEY < key {
        return steps::refuse(s, Refusal::OutOfRange);
    }
    if !server_log::may_ask(n, term) {
        return steps::refuse(s, Refusal::OutOfRange);
    }
    if !s.head.primary {
        return steps::refuse(s, Refusal::WrongRole);
    }
    if s.head.term != term {
        return steps::refuse(s, Refusal::WrongRole);
    }
    if !server_log::has_entry(s.log, n, term) {
        return steps::refuse(s, Refusal::NoSuchEntry);
    }
    if s.head.commit < n {
        return steps::refuse(s, Refusal::NotYet);
    }
    let value = server_log::latest_value(s.log, key, n);
    steps::answered(s, Answer::Value(value, server_log::time_at(s.log, n)))
}
