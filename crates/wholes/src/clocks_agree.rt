// Kind 13: clocks agree.
ghost use Rattle.std.specs.Prelude.{◌≡◌};
ghost use Rattle.wholes.specs.ClocksAgree.{greatest_clock, agrees_of};

use cluster::Cluster;
use steps::{Answer, Outcome};

// The greatest wall clock of the counted servers.
pub fn greatest_clock(c: Cluster) -> u16
    ensures { result ≡ greatest_clock c }
{
    let size = cluster::server_count(c.count);
    c.servers
        .iter()
        .take(size)
        .map(|s| s.head.wall)
        .max()
        .unwrap_or(0)
}

pub fn clocks_agree(c: Cluster) -> Outcome
    ensures { result ≡ agrees_of c }
{
    let most = greatest_clock(c);
    Outcome {
        cluster: cluster::set_clocks(c, most),
        answer: Answer::Done,
    }
}
