// Kind 0: start.
ghost use Rattle.std.specs.Prelude.{◌≡◌};
ghost use Rattle.wholes.specs.Starts.{starts_of};

use cluster::Cluster;
use steps::{Answer, Outcome, Refusal};

pub fn starts(c: Cluster, n: usize, followers: u8) -> Outcome
    ensures { result ≡ starts_of c n followers }
{
    if !cluster::size_ok(n, followers) {
        return steps::refuse_all(c, Refusal::OutOfRange);
    }
    Outcome {
        cluster: cluster::fresh_cluster(n, followers),
        answer: Answer::Done,
    }
}
