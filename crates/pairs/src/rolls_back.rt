// Kind 5: a rolls back to b.
ghost use Rattle.std.specs.Prelude.{◌≡◌};
ghost use Rattle.server_log.specs.Logs.{live, joined};
ghost use Rattle.server_log.specs.Rows.{zero_row, latest_over};
ghost use Rattle.pairs.specs.Pulls.{took_of};
ghost use Rattle.pairs.specs.RollsBack.{rolls_back_of};

use super::pulls::took;
use super::reports::sent;
use cluster::Server;
use steps::{Refusal, Stepped};

// Server a with its first k entries, then the rest of b's log, and the row of that made anew.
#[tactic(auto, using(crate::proofs::Whole::all_between))]
fn rolled(s: Server, t: Server, k: usize) -> Server
    ensures { result ≡ took_of s t (joined s.log t.log k) (latest_over zero_row (live (joined s.log t.log k))) }
{
    let log = server_log::join(s.log, t.log, k);
    let n = server_log::length_of(log);
    let whole = server_log::rows::latest_over(server_log::rows::ZERO_ROW, log, 0, n);
    took(s, t, log, whole)
}

pub fn rolls_back(s: Server, t: Server, a: u8, b: u8) -> Stepped
    ensures { result ≡ rolls_back_of s t a b }
{
    if s.head.primary {
        return steps::refuse(s, Refusal::WrongRole);
    }
    if server_log::length_of(s.log) < 1 {
        return steps::refuse(s, Refusal::ConditionUnmet);
    }
    if server_log::last_term(t.log) <= server_log::last_term(s.log) {
        return steps::refuse(s, Refusal::ConditionUnmet);
    }
    if server_log::is_beginning(s.log, t.log) {
        return steps::refuse(s, Refusal::ConditionUnmet);
    }
    let k = server_log::common_beginning(s.log, t.log);
    if k < s.head.commit {
        return steps::refuse(s, Refusal::BelowCommitPoint);
    }
    sent(rolled(s, t, k), a, b)
}
