// The longest beginning that commit points have ever covered, kept as a log.
ghost use Rattle.std.specs.Prelude.{◌≡◌};
ghost use Rattle.followed.specs.Longest.{cut_log, longer_log, kept_log};

use cluster::{Cluster, Server};
use server_log::Log;

// The server's log, cut at its commit point.
fn cut(s: Server) -> Log
    ensures { result ≡ cut_log s }
{
    let n = server_log::length_of(s.log);
    Log {
        len: s.head.commit.min(n),
        ..s.log
    }
}

// The longer of both, the first where neither is.
fn longer_of(g: Log, h: Log) -> Log
    ensures { result ≡ longer_log g h }
{
    if server_log::length_of(g) < server_log::length_of(h) {
        return h;
    }
    g
}

// What is kept after one record more, each server of which counts.
pub fn longer(kept: Log, c: Cluster) -> Log
    ensures { result ≡ kept_log kept c }
{
    let n = cluster::server_count(c.count);
    let mut g = kept;
    for s in &c.servers[..n] {
        let h = cut(*s);
        g = longer_of(g, h);
    }
    g
}
