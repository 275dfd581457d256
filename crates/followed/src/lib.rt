// A run that is followed line by line: the record, the longest beginning that was covered since the last start that succeeded, and how
// many starts have.
#![tactic(auto, unfolding(crate::specs::Longest::longer_log, crate::specs::Follow::run_after_read))]

ghost use Rattle.std.specs.Prelude.{◌≡◌};
ghost use Rattle.followed.specs.Follow.{is_done, begins, run_after_read, run_after_line, new_following, followed_by, finished_run};

use cluster::Cluster;
use lines::Reader;
use lines::walks::{self, ByLines, Walk};
use server_log::Log;
use steps::{Answer, Step};

pub mod longest;

#[derive(Clone, Copy)]
pub struct Run {
    pub cluster: Cluster,
    pub longest: Log,
    pub starts: usize,
}

// A run, and the line that is being read.
pub type Following = Walk<Run>;

impl ByLines for Run {
    ghost after = { run_after_line };

    fn line(self, held: Reader) -> Run {
        after_line(self, replay::step_held(held))
    }
}

// Before the first line.
pub fn begin() -> Following
    ensures { result ≡ new_following }
{
    walks::begin(Run {
        cluster: cluster::zero_cluster(),
        longest: server_log::empty_log(),
        starts: 0,
    })
}

fn is_done(a: Answer) -> bool
    ensures { result ≡ is_done a }
{
    matches!(a, Answer::Done)
}

// Whether a line that reads so, and is answered so, is a start that succeeds.
fn begins(read: Option<Step>, a: Answer) -> bool
    ensures { result ≡ begins read a }
{
    match read {
        Some(s) => rules::is_start(s) && is_done(a),
        None => false,
    }
}

// The run after a line that reads so. A start that succeeds begins it anew.
fn after_line(r: Run, read: Option<Step>) -> Run
    ensures { result ≡ run_after_read r read }
{
    let o = replay::respond_to(r.cluster, read);
    if begins(read, o.answer) {
        return Run {
            cluster: o.cluster,
            longest: longest::longer(server_log::empty_log(), o.cluster),
            starts: lines::one_more(r.starts),
        };
    }
    Run {
        cluster: o.cluster,
        longest: longest::longer(r.longest, o.cluster),
        ..r
    }
}

// The run after one piece more of the text.
pub fn follow(f: Following, piece: &[u8]) -> Following
    ensures { result ≡ followed_by f piece.now }
{
    walks::go_on(f, piece)
}

// The run at the end of the text, where a rest without a line feed counts if it isn't empty.
pub fn finish(f: Following) -> Run
    ensures { result ≡ finished_run f }
{
    walks::finish(f)
}
