// Kind 8: a's wall clock.
ghost use Rattle.std.specs.Prelude.{◌≡◌};
ghost use Rattle.singles.specs.WallClock.{wall_clock_of};

use cluster::{Head, Server};
use steps::{Answer, Refusal, Stepped};

pub fn wall_clock(s: Server) -> Stepped
    ensures { result ≡ wall_clock_of s }
{
    if clock::LIMIT <= s.head.wall {
        return steps::refuse(s, Refusal::AtLimit);
    }
    let head = Head {
        wall: s.head.wall + 1,
        ..s.head
    };
    steps::answered(Server { head, ..s }, Answer::Done)
}
