// Kind 2: a steps down.
ghost use Rattle.std.specs.Prelude.{◌≡◌};
ghost use Rattle.singles.specs.StepsDown.{steps_down_of};

use cluster::{Head, Server};
use steps::{Answer, Refusal, Stepped};

pub fn steps_down(s: Server) -> Stepped
    ensures { result ≡ steps_down_of s }
{
    if !s.head.primary {
        return steps::refuse(s, Refusal::WrongRole);
    }
    let head = Head {
        primary: false,
        ..s.head
    };
    steps::answered(Server { head, ..s }, Answer::Done)
}
