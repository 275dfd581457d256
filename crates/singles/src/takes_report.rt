// Kind 16: a takes its oldest report.
ghost use Rattle.std.specs.Prelude.{◌≡◌};
ghost use Rattle.singles.specs.TakesReport.{forwards, takes_report_of};

use cluster::Server;
use steps::{Answer, Refusal, Sent, Stepped};

// What becomes of the oldest report: a secondary with a source sends it on.
#[tactic(auto, unfolding(crate::specs::TakesReport::forwards))]
pub fn sends(s: Server) -> Option<Sent>
    ensures { result ≡ forwards s }
{
    if s.head.primary {
        return None;
    }
    let to = s.mail.source?;
    Some(Sent {
        to,
        report: mail::report_at(s.mail.queue, 0),
    })
}

pub fn takes_report(s: Server) -> Stepped
    ensures { result ≡ takes_report_of s }
{
    let q = s.mail.queue;
    if q.len < 1 {
        return steps::refuse(s, Refusal::ConditionUnmet);
    }
    let r = mail::report_at(q, 0);
    Stepped {
        server: Server {
            mail: mail::taken(mail::noted(s.mail, r)),
            ..s
        },
        answer: Answer::Done,
        sends: sends(s),
    }
}
