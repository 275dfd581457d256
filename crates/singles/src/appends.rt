// Appending one entry, stamped by the tick: what kinds 6 and 14 have in common.
ghost use Rattle.std.specs.Prelude.{◌≡◌};
ghost use Rattle.singles.specs.Appends.{stamp_done, appends_of};

use clock::Time;
use cluster::{Head, Server};
use server_log::Entry;
use server_log::rows::Rows;
use steps::{Answer, Refusal, Stepped};

// The server with one entry more, of its term and this time, which is its new cluster time.
#[tactic(auto, unfolding(crate::specs::Appends::stamped_of))]
pub fn stamped(s: Server, key: u8, value: u16, time: Time) -> Stepped
    ensures { result ≡ stamp_done s key value time }
{
    let e = Entry {
        term: s.head.term,
        key,
        value,
        time,
    };
    let log = server_log::append(s.log, e);
    let whole = server_log::rows::latest_after(s.rows.whole, e);
    let next = Server {
        head: Head { time, ..s.head },
        log,
        rows: Rows { whole, ..s.rows },
        ..s
    };
    let n = server_log::length_of(log);
    steps::answered(next, Answer::Entry(n, s.head.term, time))
}

// The same, at the tick from this time, where a primary may append.
pub fn appends(s: Server, key: u8, value: u16, from: Time) -> Stepped
    ensures { result ≡ appends_of s key value from }
{
    if !s.head.primary {
        return steps::refuse(s, Refusal::WrongRole);
    }
    if !server_log::has_room(s.log) {
        return steps::refuse(s, Refusal::LogFull);
    }
    let Some(time) = clock::tick(s.head.wall, from) else {
        return steps::refuse(s, Refusal::AtLimit);
    };
    stamped(s, key, value, time)
}
