// Kind 10: local read at a.
ghost use Rattle.std.specs.Prelude.{◌≡◌};
ghost use Rattle.reads.specs.LocalRead.{local_read_of};

use crate::lists::{read_in, whole_list};
use clock::Time;
use cluster::Server;
use steps::Stepped;

pub fn local_read(s: Server, key: u8, asked: Time) -> Stepped
    ensures { result ≡ local_read_of s key asked }
{
    read_in(s, whole_list(s), key, asked)
}
