// Kind 6: a writes key, value, for a client that carries a time.
ghost use Rattle.std.specs.Prelude.{◌≡◌, ◌+◌, leb};
ghost use Rattle.singles.specs.Writes.{most_ahead, writes_of};

use crate::appends::appends;
use clock::Time;
use cluster::Server;
use steps::{Refusal, Stepped};

// How far a client's p may be above the wall clock.
const MOST_AHEAD: u16 = 600;

// Whether a client's p is not too far above the wall clock; by no addition, so none wraps.
fn near(wall: u16, p: u16) -> bool
    ensures { result ≡ leb p (wall + most_ahead) }
{
    p.saturating_sub(wall) <= MOST_AHEAD
}

pub fn writes(s: Server, key: u8, value: u16, client: Time) -> Stepped
    ensures { result ≡ writes_of s key value client }
{
    if server_log::HIGHEST_KEY < key {
        return steps::refuse(s, Refusal::OutOfRange);
    }
    if value < 1 {
        return steps::refuse(s, Refusal::OutOfRange);
    }
    let h = s.head;
    if !near(h.wall, client.p) {
        return steps::refuse(s, Refusal::ClockAhead);
    }
    appends(s, key, value, clock::later(h.time, client))
}
