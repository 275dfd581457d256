// Kind 11: majority read at a.
ghost use Rattle.std.specs.Prelude.{◌≡◌};
ghost use Rattle.reads.specs.MajorityRead.{majority_read_of};

use crate::lists::{committed_list, read_in};
use clock::Time;
use cluster::Server;
use steps::Stepped;

pub fn majority_read(s: Server, key: u8, asked: Time) -> Stepped
    ensures { result ≡ majority_read_of s key asked }
{
    read_in(s, committed_list(s), key, asked)
}
