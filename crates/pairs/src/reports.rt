// What a server that took over another's entries tells it: kinds 4 and 5 end so.
ghost use Rattle.std.specs.Prelude.{◌≡◌};
ghost use Rattle.pairs.specs.Reports.{sent_of};

use cluster::Server;
use mail::Report;
use steps::{Answer, Sent, Stepped};

// Server a with b for its source, its length for an answer, and its report for b.
pub fn sent(s: Server, a: u8, b: u8) -> Stepped
    ensures { result ≡ sent_of a b s }
{
    let n = server_log::length_of(s.log);
    let report = Report {
        who: a,
        term: s.head.term,
        last: server_log::last_term(s.log),
        len: steps::number(n),
    };
    let to = usize::from(b);
    Stepped {
        server: Server {
            mail: mail::with_source(s.mail, Some(to)),
            ..s
        },
        answer: Answer::Reached(n),
        sends: Some(Sent { to, report }),
    }
}
