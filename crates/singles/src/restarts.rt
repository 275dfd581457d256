// Kind 9: a restarts.
ghost use Rattle.std.specs.Prelude.{◌≡◌};
ghost use Rattle.singles.specs.Restarts.{restarts_of};

use cluster::{Head, Server};
use server_log::rows::Rows;
use steps::{Answer, Stepped};

pub fn restarts(s: Server) -> Stepped
    ensures { result ≡ restarts_of s }
{
    let time = server_log::applied_time(s.log);
    let next = Server {
        head: Head {
            primary: false,
            commit: 0,
            time,
            ..s.head
        },
        mail: mail::ZERO_MAIL,
        rows: Rows {
            committed: server_log::rows::ZERO_ROW,
            ..s.rows
        },
        ..s
    };
    steps::answered(next, Answer::Done)
}
