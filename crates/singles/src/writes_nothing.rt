// Kind 14: a appends an entry that writes nothing.
ghost use Rattle.std.specs.Prelude.{◌≡◌};
ghost use Rattle.singles.specs.WritesNothing.{writes_nothing_of};

use crate::appends::appends;
use cluster::Server;
use steps::Stepped;

pub fn writes_nothing(s: Server) -> Stepped
    ensures { result ≡ writes_nothing_of s }
{
    appends(s, server_log::NO_KEY, 0, s.head.time)
}
